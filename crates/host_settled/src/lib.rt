// One position, one name, stated for the host's own calls by their contracts: specs/, proved in proofs/. No code.
#![tactic(auto)]
