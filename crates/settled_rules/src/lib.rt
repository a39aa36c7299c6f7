// The settled record: without an en passant file that no pawn can use. Stated in specs/, proved in proofs/. No code: that is in board_after and settled.
#![tactic(auto)]
