// The operations on the bit of a byte at a position, and the jumps by it.
ghost use Rattle.std.specs.Prelude.{◌≡◌};
ghost use Rattle.byte_operations.specs.BitOperations.{bit_result, bit_holds, bit_tested};

use arithmetic::bits::{is_set, with_bit};
use arithmetic::flags;
use stm8::{BitOp, BitTest};

pub fn bit(o: BitOp, position: u8, m: u8, cc: u8) -> u8
    ensures { result ≡ bit_result o position m cc }
{
    match o {
        BitOp::Bccm => with_bit(position, flags::carry(cc), m),
        BitOp::Bcpl => with_bit(position, !is_set(position, m), m),
        BitOp::Bres => with_bit(position, false, m),
        BitOp::Bset => with_bit(position, true, m),
    }
}

// Whether BTJT or BTJF jumps.
pub fn bit_holds(o: BitTest, position: u8, m: u8) -> bool
    ensures { result ≡ bit_holds o position m }
{
    match o {
        BitTest::Btjt => is_set(position, m),
        BitTest::Btjf => !is_set(position, m),
    }
}

// CC after BTJT and BTJF.
pub fn bit_tested(position: u8, m: u8, cc: u8) -> u8
    ensures { result ≡ bit_tested position m cc }
{
    flags::with_c(is_set(position, m), cc)
}
