// The bits of a byte.
ghost use Rattle.std.specs.Prelude.{◌≡◌};
ghost use Rattle.numbers.specs.Bits.{bit as bit_of, flag as flag_of};

// 1 where the test holds, else 0: std's conversion, by the definition that sums and bits cite.
pub fn flag(holds: bool) -> u8
    ensures { result ≡ flag_of holds }
{
    u8::from(holds)
}

// Bit `position` of a byte; a byte has no bit above 7, and there it is 0.
#[tactic(auto, using(crate::proofs::Shifting::shifted_out), unfolding(crate::specs::Bits::bit))]
pub fn bit(position: u8, value: u8) -> u8
    ensures { result ≡ bit_of position value }
{
    value.checked_shr(position.into()).unwrap_or(0) % 2
}
