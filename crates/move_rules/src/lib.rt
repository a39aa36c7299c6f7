// The board after a move, rule by rule (document 02, order 9), and what is promised of it. Stated in specs/, proved in proofs/. No code.
#![tactic(auto)]
