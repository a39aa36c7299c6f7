// What in the log depends on the order of its positions' lists (document 02, order 13): specs/, proved in proofs/. No code.
#![tactic(auto)]
