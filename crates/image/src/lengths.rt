// The length list in one pass: a state of fixed size that is fed each length once, in table order, and knows nothing of the file.
ghost use Rattle.std.specs.Prelude.{◌≡◌, if◌then◌else◌, nat_lt, slice_index};
ghost use Rattle.image.specs.Lengths.{unfed, fed, cut};

// The sum of the lengths so far, which is under 2^24 for the 255 of the longest list, and whether one of them was 0.
#[derive(Clone, Copy)]
pub struct LengthState {
    pub sum: u32,
    pub empty: bool,
}

impl LengthState {
    // Before any length.
    pub fn new() -> LengthState
        ensures { result ≡ unfed }
    {
        LengthState {
            sum: 0,
            empty: false,
        }
    }

    // After one more length; a sum past 32 bits, which no list of 255 comes to, loses the bits above.
    pub fn feed(self, length: u16) -> LengthState
        ensures { result ≡ cut (fed self length) }
    {
        LengthState {
            sum: self.sum.wrapping_add(u32::from(length)),
            empty: length == 0 || self.empty,
        }
    }
}

// Where routine k begins, 0 past the 32 that there may be.
pub fn begin_at(begins: &[u16; 32], k: usize) -> usize
    ensures { result ≡ (if nat_lt k 32 then slice_index begins.now k else 0) }
{
    begins.get(k).copied().map_or(0, usize::from)
}
