// The flags of CC, which is a byte here as in the registers: a struct around it would be made and taken apart at every operation.
ghost use Rattle.std.specs.Prelude.{◌≡◌};
ghost use Rattle.arithmetic.specs.Flags.{flag_v, flag_n, flag_z, flag_c, with_v, with_h, with_n, with_z, with_c, with_nz};

use crate::Flagged;
use crate::bits::{is_set, with_bit};
use crate::width::Unsigned;

// V of CC.
pub fn overflow(cc: u8) -> bool
    ensures { result ≡ flag_v cc }
{
    is_set(7, cc)
}

// N of CC.
pub fn negative(cc: u8) -> bool
    ensures { result ≡ flag_n cc }
{
    is_set(2, cc)
}

// Z of CC.
pub fn zero(cc: u8) -> bool
    ensures { result ≡ flag_z cc }
{
    is_set(1, cc)
}

// C of CC.
pub fn carry(cc: u8) -> bool
    ensures { result ≡ flag_c cc }
{
    is_set(0, cc)
}

// CC with V put in.
pub fn with_v(v: bool, cc: u8) -> u8
    ensures { result ≡ with_v v cc }
{
    with_bit(7, v, cc)
}

// CC with H put in.
pub fn with_h(h: bool, cc: u8) -> u8
    ensures { result ≡ with_h h cc }
{
    with_bit(4, h, cc)
}

// CC with C put in.
pub fn with_c(c: bool, cc: u8) -> u8
    ensures { result ≡ with_c c cc }
{
    with_bit(0, c, cc)
}

// CC with N and Z of a result.
#[tactic(auto, unfolding(numbers::specs::Bits::bit, crate::specs::Flags::with_nz))]
pub fn with_nz<T: Unsigned>(value: T, cc: u8) -> u8
    ensures { result ≡ with_nz T.BITS (T.value value) cc }
{
    let value = value.wide();
    let negative = (value >> (T::BITS - 1)) % 2 == 1;
    with_bit(2, negative, with_bit(1, value == 0, cc))
}

// A result that affects N and Z alone.
pub fn result_nz<T: Unsigned>(value: T, cc: u8) -> Flagged<T>
    ensures { result ≡ record { value = value; cc = with_nz T.BITS (T.value value) cc } }
{
    Flagged {
        value,
        cc: with_nz(value, cc),
    }
}
