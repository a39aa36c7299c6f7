// Two limits of a log (document 02, order 11): what a program with smaller limits and one with larger ones answer alike, in specs/, proved in proofs/. No code.
#![tactic(auto)]
