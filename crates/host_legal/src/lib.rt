// The legal list, judged, for any calls that a host makes: stated in specs/ over the contracts of the archive's functions, proved in proofs/. No code.
#![tactic(auto)]
