// The bit of a byte at a position; a byte has no bit above 7.
ghost use Rattle.std.specs.Prelude.{◌≡◌};
ghost use Rattle.arithmetic.specs.Bits.{is_set, with_bit};

use numbers::bits::{bit, flag};

// Whether a bit is set.
pub fn is_set(position: u8, value: u8) -> bool
    ensures { result ≡ is_set position value }
{
    bit(position, value) == 1
}

// A byte with a bit put in.
pub fn with_bit(position: u8, holds: bool, value: u8) -> u8
    ensures { result ≡ with_bit position holds value }
{
    if position < 8 {
        value - (bit(position, value) << position) + (flag(holds) << position)
    } else {
        value
    }
}
