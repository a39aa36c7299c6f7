// The static library: each function is the one of its name in the crate menkhodur, with its contract, under its C name (HOST-ABI.md; host/menkhodur.h).
#![tactic(auto)]

ghost use Rattle.std.specs.Prelude.{◌≡◌, length};
ghost use Rattle.version.specs.Version.{version};
ghost use Rattle.answer.specs.Answer.{write_answer, write_bytes};
ghost use Rattle.square.specs.Square.{make_square};
ghost use Rattle.castle_rights.specs.CastleRights.{add_rights, remove_rights, square_rights};
ghost use Rattle.board_builder.specs.Steps.{set_piece, clear_square, set_side, set_rights, set_en_passant, set_half_moves, set_full_moves};
ghost use Rattle.fen_text.specs.Read.{read_fen};
ghost use Rattle.fen_text.specs.Full.{read_full};
ghost use Rattle.fen_text.specs.Page.{page_answer, records_left, told_left};
ghost use Rattle.report_text.specs.Report.{most_lines, report_answer, report_records, report_told};
ghost use Rattle.move_rules.specs.After.{after_answer};
ghost use Rattle.settled_rules.specs.Settled.{settled_answer};
ghost use Rattle.settled.specs.Key.{settled_key, settled_room};
ghost use Rattle.move_laws.specs.Legal.{legal_moves, list_check, check_answer};
ghost use Rattle.move_laws.specs.Judge.{judged_answer};
ghost use Rattle.chess_move.specs.Coordinate.{read_move, move_text, move_check};
ghost use Rattle.san_text.specs.Paper.{from_san, name_answer, name_bytes};
ghost use Rattle.san_text.specs.Standard.{from_san_standard, standard_name_answer, standard_name_bytes};
ghost use Rattle.fen_text.specs.Write.{fen_text, full_text, fen_check};
ghost use Rattle.stored_position.specs.Bytes.{position_given};
ghost use Rattle.game_rules.specs.Limits.{limits};
ghost use Rattle.game_rules.specs.Rules.{make_move, offer_draw, accept_draw, declare_draw, resign};
ghost use Rattle.game_rules.specs.Calls.{
  call_answer,
  counts,
  counts_after,
  actions_after,
  positions_after,
  start_answer,
  positions_begun,
  result_answer,
  claim_answer,
};
ghost use Rattle.laws.specs.Ruling.{ruling_answer, laws_answer};
ghost use Rattle.pgn_text.specs.Walk.{check};
ghost use Rattle.pgn_text.specs.Between.{next_across};
ghost use Rattle.game_text.specs.Step.{play_answer, play_bytes, game_step, game_step_bytes};
ghost use Rattle.roll_text.specs.Calls.{write_check, game_text, judged, judged_old, roll_answer, roll_over};
ghost use Rattle.differences_text.specs.Calls.{differences_answer, differences_room};

use answer::{Answer, Placed};
use board_builder::{BoardBuilder, Stepped};
use fen_text::Fen;
use game_rules::Counts;
use game_text::GameStep;
use laws::Ruled;
use move_laws::Judged;
use pgn_text::{PgnCount, PgnNext};
use report_text::Report;
use roll_text::Roll;

#[unsafe(no_mangle)]
pub extern "C" fn menkhodur_version() -> u64
    ensures { result ≡ version }
{
    menkhodur::menkhodur_version()
}

#[unsafe(no_mangle)]
pub extern "C" fn menkhodur_make_square(rank: u8, file: u8) -> Answer
    ensures { result ≡ make_square rank file }
{
    menkhodur::menkhodur_make_square(rank, file)
}

#[unsafe(no_mangle)]
pub extern "C" fn menkhodur_rights_add(rights: u8, added: u8) -> Answer
    ensures { result ≡ add_rights rights added }
{
    menkhodur::menkhodur_rights_add(rights, added)
}

#[unsafe(no_mangle)]
pub extern "C" fn menkhodur_rights_remove(rights: u8, removed: u8) -> Answer
    ensures { result ≡ remove_rights rights removed }
{
    menkhodur::menkhodur_rights_remove(rights, removed)
}

#[unsafe(no_mangle)]
pub extern "C" fn menkhodur_square_rights(colour: u8, square: u8) -> Answer
    ensures { result ≡ square_rights colour square }
{
    menkhodur::menkhodur_square_rights(colour, square)
}

#[unsafe(no_mangle)]
pub extern "C" fn menkhodur_piece(b: BoardBuilder, square: u8, code: u8) -> Stepped
    ensures { result ≡ set_piece b square code }
{
    menkhodur::menkhodur_piece(b, square, code)
}

#[unsafe(no_mangle)]
pub extern "C" fn menkhodur_clear_square(b: BoardBuilder, square: u8) -> Stepped
    ensures { result ≡ clear_square b square }
{
    menkhodur::menkhodur_clear_square(b, square)
}

#[unsafe(no_mangle)]
pub extern "C" fn menkhodur_side_to_move(b: BoardBuilder, colour: u8) -> Stepped
    ensures { result ≡ set_side b colour }
{
    menkhodur::menkhodur_side_to_move(b, colour)
}

#[unsafe(no_mangle)]
pub extern "C" fn menkhodur_castle_rights(b: BoardBuilder, colour: u8, rights: u8) -> Stepped
    ensures { result ≡ set_rights b colour rights }
{
    menkhodur::menkhodur_castle_rights(b, colour, rights)
}

#[unsafe(no_mangle)]
pub extern "C" fn menkhodur_en_passant(b: BoardBuilder, file: u8) -> Stepped
    ensures { result ≡ set_en_passant b file }
{
    menkhodur::menkhodur_en_passant(b, file)
}

#[unsafe(no_mangle)]
pub extern "C" fn menkhodur_half_moves(b: BoardBuilder, count: u64) -> Stepped
    ensures { result ≡ set_half_moves b count }
{
    menkhodur::menkhodur_half_moves(b, count)
}

#[unsafe(no_mangle)]
pub extern "C" fn menkhodur_full_moves(b: BoardBuilder, count: u64) -> Stepped
    ensures { result ≡ set_full_moves b count }
{
    menkhodur::menkhodur_full_moves(b, count)
}

#[unsafe(no_mangle)]
pub extern "C" fn menkhodur_board_after(b: BoardBuilder, m: u64) -> Stepped
    ensures { result ≡ after_answer b m }
{
    menkhodur::menkhodur_board_after(b, m)
}

#[unsafe(no_mangle)]
pub extern "C" fn menkhodur_board_settled(b: BoardBuilder) -> Stepped
    ensures { result ≡ settled_answer b }
{
    menkhodur::menkhodur_board_settled(b)
}

#[unsafe(no_mangle)]
pub extern "C" fn menkhodur_fen_read(text: &[u8]) -> Fen
    ensures { result ≡ read_fen text.now }
{
    menkhodur::menkhodur_fen_read(text)
}

#[unsafe(no_mangle)]
pub extern "C" fn menkhodur_fen_read_full(text: &[u8]) -> Fen
    ensures { result ≡ read_full text.now }
{
    menkhodur::menkhodur_fen_read_full(text)
}

#[unsafe(no_mangle)]
pub extern "C" fn menkhodur_fen_page(text: &[u8], records: &mut [u8], numbers: &mut [u64]) -> Answer
    ensures answer { result ≡ page_answer text.now (length records.old) (length numbers.old) }
    ensures records { records.new ≡ records_left text.now records.old (length numbers.old) }
    ensures numbers { numbers.new ≡ told_left text.now (length records.old) numbers.old }
{
    menkhodur::menkhodur_fen_page(text, records, numbers)
}

#[unsafe(no_mangle)]
pub extern "C" fn menkhodur_fen_report(
    text: &[u8],
    records: &mut [u8],
    numbers: &mut [u64],
) -> Report
    ensures answer { result ≡ report_answer most_lines text.now (length records.old) (length numbers.old) }
    ensures records { records.new ≡ report_records most_lines text.now records.old (length numbers.old) }
    ensures numbers { numbers.new ≡ report_told most_lines text.now (length records.old) numbers.old }
{
    menkhodur::menkhodur_fen_report(text, records, numbers)
}

#[unsafe(no_mangle)]
pub extern "C" fn menkhodur_fen_write(b: BoardBuilder, out: &mut [u8]) -> Answer
    ensures answer { result ≡ write_answer (fen_check b) (fen_text b) (length out.old) }
    ensures bytes { out.new ≡ write_bytes (fen_check b) (fen_text b) out.old }
{
    menkhodur::menkhodur_fen_write(b, out)
}

#[unsafe(no_mangle)]
pub extern "C" fn menkhodur_fen_write_full(b: BoardBuilder, out: &mut [u8]) -> Answer
    ensures answer { result ≡ write_answer (fen_check b) (full_text b) (length out.old) }
    ensures bytes { out.new ≡ write_bytes (fen_check b) (full_text b) out.old }
{
    menkhodur::menkhodur_fen_write_full(b, out)
}

#[unsafe(no_mangle)]
pub extern "C" fn menkhodur_fen_settled(text: &[u8], out: &mut [u8]) -> Placed
    ensures answer { result ≡ settled_key text.now (length out.old) }
    ensures bytes { out.new ≡ settled_room text.now out.old }
{
    menkhodur::menkhodur_fen_settled(text, out)
}

#[unsafe(no_mangle)]
pub extern "C" fn menkhodur_move_read(text: &[u8]) -> Placed
    ensures { result ≡ read_move text.now }
{
    menkhodur::menkhodur_move_read(text)
}

#[unsafe(no_mangle)]
pub extern "C" fn menkhodur_move_write(n: u64, out: &mut [u8]) -> Answer
    ensures answer { result ≡ write_answer (move_check n) (move_text n) (length out.old) }
    ensures bytes { out.new ≡ write_bytes (move_check n) (move_text n) out.old }
{
    menkhodur::menkhodur_move_write(n, out)
}

#[unsafe(no_mangle)]
pub extern "C" fn menkhodur_san_read(b: BoardBuilder, list: &[u16], text: &[u8]) -> Answer
    ensures { result ≡ from_san b list.now text.now }
{
    menkhodur::menkhodur_san_read(b, list, text)
}

#[unsafe(no_mangle)]
pub extern "C" fn menkhodur_san_name(
    b: BoardBuilder,
    list: &[u16],
    n: u64,
    out: &mut [u8],
) -> Answer
    ensures answer { result ≡ name_answer b list.now n (length out.old) }
    ensures bytes { out.new ≡ name_bytes b list.now n out.old }
{
    menkhodur::menkhodur_san_name(b, list, n, out)
}

#[unsafe(no_mangle)]
pub extern "C" fn menkhodur_san_read_standard(b: BoardBuilder, list: &[u16], text: &[u8]) -> Answer
    ensures { result ≡ from_san_standard b list.now text.now }
{
    menkhodur::menkhodur_san_read_standard(b, list, text)
}

#[unsafe(no_mangle)]
pub extern "C" fn menkhodur_san_name_standard(
    b: BoardBuilder,
    list: &[u16],
    n: u64,
    out: &mut [u8],
) -> Answer
    ensures answer { result ≡ standard_name_answer b list.now n (length out.old) }
    ensures bytes { out.new ≡ standard_name_bytes b list.now n out.old }
{
    menkhodur::menkhodur_san_name_standard(b, list, n, out)
}

#[unsafe(no_mangle)]
pub extern "C" fn menkhodur_game_start(
    acts: &[u8],
    ps: &mut [u8],
    b: BoardBuilder,
    in_check: u8,
    list: &[u16],
) -> Counts
    ensures counts { result ≡ counts (start_answer limits acts.now ps.old (position_given b in_check list.now)) 0 0 }
    ensures positions { ps.new ≡ positions_begun
        (start_answer limits acts.now ps.old (position_given b in_check list.now))
        ps.old (position_given b in_check list.now) }
{
    menkhodur::menkhodur_game_start(acts, ps, b, in_check, list)
}

#[unsafe(no_mangle)]
pub extern "C" fn menkhodur_game_make_move(
    acts: &mut [u8],
    ps: &mut [u8],
    n: u64,
    m: u64,
    x: u64,
    next: BoardBuilder,
    in_check: u8,
    list: &[u16],
) -> Counts
    ensures counts { result ≡ counts_after
        (call_answer limits acts.old ps.old n m (make_move x (position_given next in_check list.now)))
        n m (make_move x (position_given next in_check list.now)) }
    ensures actions { acts.new ≡ actions_after
        (call_answer limits acts.old ps.old n m (make_move x (position_given next in_check list.now)))
        acts.old n (make_move x (position_given next in_check list.now)) }
    ensures positions { ps.new ≡ positions_after
        (call_answer limits acts.old ps.old n m (make_move x (position_given next in_check list.now)))
        ps.old m (make_move x (position_given next in_check list.now)) }
{
    menkhodur::menkhodur_game_make_move(acts, ps, n, m, x, next, in_check, list)
}

#[unsafe(no_mangle)]
pub extern "C" fn menkhodur_game_offer_draw(
    acts: &mut [u8],
    ps: &[u8],
    n: u64,
    m: u64,
    colour: u8,
) -> Counts
    ensures counts { result ≡ counts_after (call_answer limits acts.old ps.now n m (offer_draw colour)) n m (offer_draw colour) }
    ensures actions { acts.new ≡ actions_after
        (call_answer limits acts.old ps.now n m (offer_draw colour))
        acts.old n (offer_draw colour) }
{
    menkhodur::menkhodur_game_offer_draw(acts, ps, n, m, colour)
}

#[unsafe(no_mangle)]
pub extern "C" fn menkhodur_game_resign(
    acts: &mut [u8],
    ps: &[u8],
    n: u64,
    m: u64,
    colour: u8,
) -> Counts
    ensures counts { result ≡ counts_after (call_answer limits acts.old ps.now n m (resign colour)) n m (resign colour) }
    ensures actions { acts.new ≡ actions_after
        (call_answer limits acts.old ps.now n m (resign colour))
        acts.old n (resign colour) }
{
    menkhodur::menkhodur_game_resign(acts, ps, n, m, colour)
}

#[unsafe(no_mangle)]
pub extern "C" fn menkhodur_game_accept_draw(acts: &mut [u8], ps: &[u8], n: u64, m: u64) -> Counts
    ensures counts { result ≡ counts_after (call_answer limits acts.old ps.now n m accept_draw) n m accept_draw }
    ensures actions { acts.new ≡ actions_after
        (call_answer limits acts.old ps.now n m accept_draw)
        acts.old n accept_draw }
{
    menkhodur::menkhodur_game_accept_draw(acts, ps, n, m)
}

#[unsafe(no_mangle)]
pub extern "C" fn menkhodur_game_declare_draw(acts: &mut [u8], ps: &[u8], n: u64, m: u64) -> Counts
    ensures counts { result ≡ counts_after (call_answer limits acts.old ps.now n m declare_draw) n m declare_draw }
    ensures actions { acts.new ≡ actions_after
        (call_answer limits acts.old ps.now n m declare_draw)
        acts.old n declare_draw }
{
    menkhodur::menkhodur_game_declare_draw(acts, ps, n, m)
}

#[unsafe(no_mangle)]
pub extern "C" fn menkhodur_game_result(acts: &[u8], ps: &[u8], n: u64, m: u64) -> Answer
    ensures { result ≡ result_answer limits acts.now ps.now n m }
{
    menkhodur::menkhodur_game_result(acts, ps, n, m)
}

#[unsafe(no_mangle)]
pub extern "C" fn menkhodur_game_can_declare_draw(acts: &[u8], ps: &[u8], n: u64, m: u64) -> Answer
    ensures { result ≡ claim_answer limits acts.now ps.now n m }
{
    menkhodur::menkhodur_game_can_declare_draw(acts, ps, n, m)
}

#[unsafe(no_mangle)]
pub extern "C" fn menkhodur_game_can_claim_by_laws(acts: &[u8], ps: &[u8], n: u64, m: u64) -> Answer
    ensures { result ≡ laws_answer limits acts.now ps.now n m }
{
    menkhodur::menkhodur_game_can_claim_by_laws(acts, ps, n, m)
}

#[unsafe(no_mangle)]
pub extern "C" fn menkhodur_game_ruling(acts: &[u8], ps: &[u8], n: u64, m: u64) -> Ruled
    ensures { result ≡ ruling_answer limits acts.now ps.now n m }
{
    menkhodur::menkhodur_game_ruling(acts, ps, n, m)
}

#[unsafe(no_mangle)]
pub extern "C" fn menkhodur_roll_write(
    b: BoardBuilder,
    acts: &[u8],
    n: u64,
    out: &mut [u8],
) -> Answer
    ensures answer { result ≡ write_answer (write_check limits b acts.now n) (game_text b acts.now n) (length out.old) }
    ensures bytes { out.new ≡ write_bytes (write_check limits b acts.now n) (game_text b acts.now n) out.old }
{
    menkhodur::menkhodur_roll_write(b, acts, n, out)
}

#[unsafe(no_mangle)]
pub extern "C" fn menkhodur_roll_read(roll: &[u8], acts: &mut [u8]) -> Roll
    ensures answer { result ≡ roll_answer (judged limits roll.now (length acts.old)) }
    ensures bytes { acts.new ≡ roll_over (judged limits roll.now (length acts.old)) acts.old }
{
    menkhodur::menkhodur_roll_read(roll, acts)
}

#[unsafe(no_mangle)]
pub extern "C" fn menkhodur_roll_read_old(roll: &[u8], acts: &mut [u8]) -> Roll
    ensures answer { result ≡ roll_answer (judged_old limits roll.now (length acts.old)) }
    ensures bytes { acts.new ≡ roll_over (judged_old limits roll.now (length acts.old)) acts.old }
{
    menkhodur::menkhodur_roll_read_old(roll, acts)
}

#[unsafe(no_mangle)]
pub extern "C" fn menkhodur_roll_differences(first: &[u8], second: &[u8], out: &mut [u8]) -> Answer
    ensures answer { result ≡ differences_answer limits first.now second.now (length out.old) }
    ensures bytes { out.new ≡ differences_room limits first.now second.now out.old }
{
    menkhodur::menkhodur_roll_differences(first, second, out)
}

#[unsafe(no_mangle)]
pub extern "C" fn menkhodur_pgn_check(text: &[u8]) -> PgnCount
    ensures { result ≡ check text.now }
{
    menkhodur::menkhodur_pgn_check(text)
}

#[unsafe(no_mangle)]
pub extern "C" fn menkhodur_pgn_next(text: &[u8], offset: u64, level: u64) -> PgnNext
    ensures { result ≡ next_across text.now offset level }
{
    menkhodur::menkhodur_pgn_next(text, offset, level)
}

#[unsafe(no_mangle)]
pub extern "C" fn menkhodur_game_step(
    text: &[u8],
    offset: u64,
    board: BoardBuilder,
    list: &[u16],
    out: &mut [u8],
) -> GameStep
    ensures answer { result ≡ game_step text.now offset board list.now (length out.old) }
    ensures bytes { out.new ≡ game_step_bytes text.now offset board list.now out.old }
{
    menkhodur::menkhodur_game_step(text, offset, board, list, out)
}

#[unsafe(no_mangle)]
pub extern "C" fn menkhodur_play(
    text: &[u8],
    board: BoardBuilder,
    list: &[u16],
    out: &mut [u8],
) -> GameStep
    ensures answer { result ≡ play_answer text.now board list.now (length out.old) }
    ensures bytes { out.new ≡ play_bytes text.now board list.now out.old }
{
    menkhodur::menkhodur_play(text, board, list, out)
}

#[unsafe(no_mangle)]
pub extern "C" fn menkhodur_in_check(board: BoardBuilder) -> Answer
    ensures { result ≡ check_answer board }
{
    menkhodur::menkhodur_in_check(board)
}

#[unsafe(no_mangle)]
pub extern "C" fn menkhodur_legal_list(board: BoardBuilder, out: &mut [u16]) -> Answer
    ensures answer { result ≡ write_answer (list_check board) (legal_moves board) (length out.old) }
    ensures bytes { out.new ≡ write_bytes (list_check board) (legal_moves board) out.old }
{
    menkhodur::menkhodur_legal_list(board, out)
}

#[unsafe(no_mangle)]
pub extern "C" fn menkhodur_list_judged(board: BoardBuilder, in_check: u8, list: &[u16]) -> Judged
    ensures { result ≡ judged_answer board in_check list.now }
{
    menkhodur::menkhodur_list_judged(board, in_check, list)
}
