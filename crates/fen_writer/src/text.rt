// The FEN text of a record in range, put together in one array of 91 bytes, the longest full FEN. The inner loop has no branch: the digit of an empty run
// stands from its first square on and is written over as the run grows. The place of the next byte is a value beside the array, so that it stays in a register;
// each part has its own bound on it, which a struct of the two could not say.
ghost use Rattle.std.specs.Prelude.{◌≡◌, true, cond, [], ◌∷◌, ◌+◌, ◌%◌, ◌≤◌, ◌<◌, eqb, ltb, take, drop};
ghost use Rattle.answer.specs.Numbers.{all_at_most};
ghost use Rattle.decimal.specs.Decimal.{decimal};
ghost use Rattle.board_builder.specs.BoardBuilder.{last_count, in_range};
ghost use Rattle.fen_text.specs.Write.{side_letter, rights_text, en_passant_text, run_text, ranks_text, tail_with};
ghost use Rattle.fen_writer.specs.CodeSigns.{sign_of};
ghost use Rattle.fen_writer.specs.CodeTexts.{text_with};
ghost use Rattle.answer.specs.CodePushed.{Put};

use board_builder::BoardBuilder;

fn push(bytes: &mut [u8; 91], n: usize, b: u8) -> usize
    requires { n < 91 }
    ensures { Put 91 bytes.old n (b ∷ []) bytes.new result }
{
    bytes[n] = b;
    n + 1
}

fn push_if(bytes: &mut [u8; 91], n: usize, there: bool, b: u8) -> usize
    requires { n < 91 }
    ensures { Put 91 bytes.old n (cond there (b ∷ []) []) bytes.new result }
{
    if there {
        return push(bytes, n, b);
    }
    n
}

// What the byte of a square starts from: the letter of its piece, or the digit 0 of an empty square, to which the run is added. Each of the sixteen
// remainders has an arm, so that this is one look into a table, with no test of the code before it.
fn sign_of(piece: u8) -> u8
    ensures { result ≡ sign_of (piece % 16) }
{
    match piece % 16 {
        0 => b'0',
        1 => b'P',
        2 => b'N',
        3 => b'B',
        4 => b'R',
        5 => b'Q',
        6 => b'K',
        7 => b'p',
        8 => b'n',
        9 => b'b',
        10 => b'r',
        11 => b'q',
        12 => b'k',
        13 => 0,
        14 => 0,
        15 => 0,
        _ => 0,
    }
}

fn run_after(run: u8, piece: u8) -> u8
    requires { run < 8 }
    ensures { result ≡ cond (eqb piece 0) (run + 1) 0 }
{
    if piece == 0 { run + 1 } else { 0 }
}

fn length_after(n: usize, run: u8) -> usize
    requires { n < 91 }
    ensures { result ≡ cond (ltb 1 run) n (n + 1) }
{
    if 1 < run { n } else { n + 1 }
}

// One rank: the eight squares from `from` on.
fn rank(bytes: &mut [u8; 91], at: usize, pieces: &[u8; 64], from: usize) -> usize
    requires at_bound { at < 77 }
    requires pieces_value { all_at_most 12 pieces.now ≡ true }
    requires from_bound { from < 57 }
    ensures { Put 91 bytes.old at (run_text 0 (take 8 (drop from pieces.now))) bytes.new result }
{
    let mut n = at;
    let mut run = 0;
    for i in 0..8 {
        let piece = pieces[from + i];
        run = run_after(run, piece);
        n = length_after(n, run);
        bytes[n - 1] = sign_of(piece) + run;
    }
    n
}

// The ranks from the eighth down.
fn ranks(bytes: &mut [u8; 91], pieces: &[u8; 64]) -> usize
    requires { all_at_most 12 pieces.now ≡ true }
    ensures { Put 91 bytes.old 0 (ranks_text 8 pieces.now) bytes.new result }
{
    let mut n = 0;
    for left in (0..8).rev() {
        n = rank(bytes, n, pieces, left * 8);
        n = push_if(bytes, n, 0 < left, b'/');
    }
    n
}

fn side(bytes: &mut [u8; 91], n: usize, side: u8) -> usize
    requires { n < 91 }
    ensures { Put 91 bytes.old n (side_letter side ∷ []) bytes.new result }
{
    if side == 0 {
        return push(bytes, n, b'w');
    }
    push(bytes, n, b'b')
}

// White's letters then black's, or one `-` if none was pushed.
fn rights(bytes: &mut [u8; 91], at: usize, white: u8, black: u8) -> usize
    requires at_bound { at < 81 }
    requires white_bound { white < 4 }
    requires black_bound { black < 4 }
    ensures { Put 91 bytes.old at (rights_text white black) bytes.new result }
{
    let a = push_if(bytes, at, white % 2 == 1, b'K');
    let b = push_if(bytes, a, white / 2 == 1, b'Q');
    let c = push_if(bytes, b, black % 2 == 1, b'k');
    let d = push_if(bytes, c, black / 2 == 1, b'q');
    push_if(bytes, d, d == at, b'-')
}

// The en passant square, on rank 6 with white to move and rank 3 with black, or `-`.
fn en_passant(bytes: &mut [u8; 91], n: usize, side: u8, file: u8) -> usize
    requires n_bound { n < 84 }
    requires file_bound { file < 9 }
    ensures { Put 91 bytes.old n (en_passant_text side file) bytes.new result }
{
    if file == 0 {
        return push(bytes, n, b'-');
    }
    let m = push(bytes, n, b'a' + (file - 1));
    if side == 0 {
        return push(bytes, m, b'6');
    }
    push(bytes, m, b'3')
}

// What follows the placement, up to the counters.
fn tail(bytes: &mut [u8; 91], at: usize, board: BoardBuilder) -> usize
    requires at_bound { at < 72 }
    requires board_value { in_range board ≡ true }
    ensures { Put 91 bytes.old at (tail_with board []) bytes.new result }
{
    let a = push(bytes, at, b' ');
    let b = side(bytes, a, board.side_to_move);
    let c = push(bytes, b, b' ');
    let d = rights(
        bytes,
        c,
        board.white_castle_rights,
        board.black_castle_rights,
    );
    let e = push(bytes, d, b' ');
    en_passant(bytes, e, board.side_to_move, board.en_passant)
}

// A counter in decimal.
fn counter(bytes: &mut [u8; 91], at: usize, n: u16) -> usize
    requires at_bound { at < 88 }
    requires n_le_last_count { n ≤ last_count }
    ensures { Put 91 bytes.old at (decimal n) bytes.new result }
{
    let a = push_if(bytes, at, 999 < n, b'0' + (n / 1000) as u8);
    let b = push_if(bytes, a, 99 < n, b'0' + (n / 100 % 10) as u8);
    let c = push_if(bytes, b, 9 < n, b'0' + (n / 10 % 10) as u8);
    push(bytes, c, b'0' + (n % 10) as u8)
}

// The record's text with two counters, at the start of the bytes. The pieces are the record's own, lent, since a copy of them made just before the loop is
// slow to read.
pub(crate) fn text(
    bytes: &mut [u8; 91],
    pieces: &[u8; 64],
    board: BoardBuilder,
    half: u16,
    full: u16,
) -> usize
    requires pieces_value { pieces.now ≡ board.pieces }
    requires board_value { in_range board ≡ true }
    requires half_le_last_count { half ≤ last_count }
    requires full_le_last_count { full ≤ last_count }
    ensures { Put 91 bytes.old 0 (text_with board half full) bytes.new result }
{
    let n = ranks(bytes, pieces);
    let a = tail(bytes, n, board);
    let b = push(bytes, a, b' ');
    let c = counter(bytes, b, half);
    let d = push(bytes, c, b' ');
    counter(bytes, d, full)
}
