// Words and their two bytes, high byte first; reads that give 0 past the end, and a write that does nothing there. Where one is a method of std,
// its contract says it by the definition of that name, which the contracts above cite.
ghost use Rattle.std.specs.Prelude.{◌≡◌, get_or, set};
ghost use Rattle.numbers.specs.Words.{word as word_of, high as high_of, low as low_of, word_at};

// The word of a high and a low byte.
#[tactic(auto, unfolding(crate::specs::Words::word))]
pub fn word(high: u8, low: u8) -> u16
    ensures { result ≡ word_of high low }
{
    // By `u16::from_be_bytes` a single step takes 816 instructions for 802: the bytes are put together low first, and exchanged.
    (high as u16) * 256 + (low as u16)
}

// A word's high byte.
#[tactic(auto, unfolding(crate::specs::Words::high))]
pub fn high(w: u16) -> u8
    ensures { result ≡ high_of w }
{
    w.to_be_bytes()[0]
}

// A word's low byte.
#[tactic(auto, unfolding(crate::specs::Words::low))]
pub fn low(w: u16) -> u8
    ensures { result ≡ low_of w }
{
    w.to_be_bytes()[1]
}

// The byte at an index, 0 past the end.
pub fn byte_at(bytes: &[u8], at: usize) -> u8
    ensures { result ≡ get_or bytes.now at 0 }
{
    bytes.get(at).copied().unwrap_or(0)
}

// The word at an index, high byte first; a byte past the end counts as 0.
pub fn word_at(bytes: &[u8], at: usize) -> u16
    ensures { result ≡ word_at bytes.now at }
{
    // The test comes first: past the last index of all there is no `at + 1`.
    if at < bytes.len() {
        word(bytes[at], byte_at(bytes, at + 1))
    } else {
        0
    }
}

// Puts a byte at an index; past the end there is no place for it.
pub fn put_byte(bytes: &mut [u8], at: usize, byte: u8)
    ensures { bytes.new ≡ set bytes.old at byte }
{
    // Not by `get_mut`: of a slice that was written through it, a proof knows the length alone.
    if at < bytes.len() {
        bytes[at] = byte;
    }
}
