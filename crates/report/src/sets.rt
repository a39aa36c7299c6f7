// Sets of squares, 64 bits each, one per kind of men. First each of the four bits of the codes is gathered from all squares at once; a kind's set is where the
// bits are those of its code. In a set the squares stand file by file, each file from its first rank on.
ghost use Rattle.std.specs.Prelude.{◌≡◌, true, List, ℕ, ◌+◌, ◌^◌, ◌≤◌, ◌<◌, length};
ghost use Rattle.answer.specs.Numbers.{all_at_most};
ghost use Rattle.board_builder.specs.BoardBuilder.{squares};
ghost use Rattle.report.specs.CodeSets.{bytes_at, rank_at, ranks_at, lowest_bits, plane_from, planes_of, by_files, quarters_of, kind_sets};

pub(crate) const KINDS: usize = 12;

// What a number in the fifth byte of a word is worth.
const FIFTH_BYTE: u64 = 0x1_0000_0000;

// The lowest bit of each half byte.
const LOWEST: u64 = 0x1111_1111_1111_1111;

const ALL: u64 = 0xFFFF_FFFF_FFFF_FFFF;

pub(crate) fn four_bytes(numbers: &[u8], at: usize) -> u64
    requires { at + 4 ≤ length numbers.now }
    ensures value { result ≡ bytes_at numbers.now at }
    ensures small { result < 2 ^ 32 }
{
    u64::from(u32::from_le_bytes([
        numbers[at],
        numbers[at + 1],
        numbers[at + 2],
        numbers[at + 3],
    ]))
}

// The eight codes of a rank, a byte each.
fn rank(places: &[u8], at: usize) -> u64
    requires { at + 8 ≤ length places.now }
    ensures { result ≡ rank_at places.now at }
{
    four_bytes(places, at) + FIFTH_BYTE * four_bytes(places, at + 4)
}

// A rank's codes, and in the upper halves of their bytes those of the fourth rank behind it.
fn two_ranks(places: &[u8], at: usize) -> u64
    requires at_in_bounds { at + 40 ≤ length places.now }
    requires places_value { all_at_most 12 places.now ≡ true }
    ensures { result ≡ ranks_at places.now at }
{
    rank(places, at) + 16 * rank(places, at + 32)
}

fn lowest(word: u64) -> u64
    ensures { result ≡ lowest_bits word }
{
    word & LOWEST
}

// One bit of each half byte of four words, side by side: of a file's eight squares they are the bits of a byte.
fn plane(a: u64, b: u64, c: u64, d: u64) -> u64
    ensures { result ≡ plane_from a b c d }
{
    lowest(a) + 2 * lowest(b) + 4 * lowest(c) + 8 * lowest(d)
}

// For each bit of a code, by its value, the set of the squares whose codes have it.
#[derive(Clone, Copy)]
pub struct Planes {
    pub one: u64,
    pub two: u64,
    pub four: u64,
    pub eight: u64,
}

pub(crate) fn planes_of(places: &[u8]) -> Planes
    requires places_len { length places.now ≡ squares }
    requires places_value { all_at_most 12 places.now ≡ true }
    ensures { result ≡ planes_of (by_files places.now) }
{
    let a = two_ranks(places, 0);
    let b = two_ranks(places, 8);
    let c = two_ranks(places, 16);
    let d = two_ranks(places, 24);
    Planes {
        one: plane(a, b, c, d),
        two: plane(a >> 1, b >> 1, c >> 1, d >> 1),
        four: plane(a >> 2, b >> 2, c >> 2, d >> 2),
        eight: plane(a >> 3, b >> 3, c >> 3, d >> 3),
    }
}

// All squares, parted by two bits of their codes.
#[derive(Clone, Copy)]
pub struct Quarters {
    pub none: u64,
    pub first: u64,
    pub second: u64,
    pub both: u64,
}

fn parted(first: u64, second: u64) -> Quarters
    ensures { result ≡ quarters_of first second }
{
    let both = first & second;
    Quarters {
        none: ALL - (first | second),
        first: first - both,
        second: second - both,
        both,
    }
}

// A code is the sum of its bits: 5, the white queen's, is four and one.
pub(crate) fn sets_of(planes: Planes) -> [u64; KINDS]
    ensures { (xs : List ℕ) → length xs ≡ squares → all_at_most 12 xs ≡ true → planes ≡ planes_of xs → result ≡ kind_sets xs }
{
    let low = parted(planes.one, planes.two);
    let high = parted(planes.four, planes.eight);
    [
        high.none & low.first,
        high.none & low.second,
        high.none & low.both,
        high.first & low.none,
        high.first & low.first,
        high.first & low.second,
        high.first & low.both,
        high.second & low.none,
        high.second & low.first,
        high.second & low.second,
        high.second & low.both,
        high.both & low.none,
    ]
}
