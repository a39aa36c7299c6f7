// The sixteen rows of document 01's table as one theorem: specs/Rows.antt, proved in proofs/Rows.antt. No code.
#![tactic(auto)]
