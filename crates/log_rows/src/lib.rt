// Games as positions and texts, with their results, offers, counts and answers: rows in specs/ and proofs/.
#![tactic(auto)]
