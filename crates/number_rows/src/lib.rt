// Rows for the numbers of the papers, where rows by name would follow a change: answers, squares, rights, records, moves, actions and positions. No code.
#![tactic(auto)]
