// What the order and the number of entries of a lent list change in the answers of the SAN readers and namers (document 02, order 13): specs/, proved in
// proofs/. No code.
#![tactic(auto)]
