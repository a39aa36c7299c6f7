// Rows for texts, each as it is read or written: FENs, pages of them, the lines of keys, the evening report; and for the settled record. No code.
#![tactic(auto)]
