// Order 9 of document 02: what the board after a move hands out is a key. Stated in specs/, proved in proofs/. No code.
#![tactic(auto)]
