// A part of the log as plain bytes: what a script sets, fills and looks at.

// The checksum is Adler-32's (RFC 1950).
const MODULUS: u64 = 65_521;

// Sets a byte, if the part has it.
pub(crate) fn set(part: &mut [u8], offset: u64, value: u8) -> Option<()> {
    *part.get_mut(offset as usize)? = value;
    Some(())
}

// Fills the part from `from` on.
pub(crate) fn fill(part: &mut [u8], from: usize, value: u8) {
    if let Some(rest) = part.get_mut(from..) {
        rest.fill(value);
    }
}

pub(crate) fn checksum(part: &[u8]) -> u64 {
    let mut low: u64 = 1;
    let mut high: u64 = 0;
    for b in part {
        low = (low + *b as u64) % MODULUS;
        high = (high + low) % MODULUS;
    }
    high * 65_536 + low
}
