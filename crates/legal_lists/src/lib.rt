// What a list that is judged right is good for: names, mates and stalemates. Stated in specs/, proved in proofs/. No code.
#![tactic(auto)]
