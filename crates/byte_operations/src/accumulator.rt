// The operations on A with an operand: A and CC after each.
ghost use Rattle.std.specs.Prelude.{◌≡◌};
ghost use Rattle.byte_operations.specs.Accumulator.{added as added_of, subtracted as subtracted_of, alu_result};

use arithmetic::Flagged;
use arithmetic::flags::{carry, result_nz, with_h, with_nz};
use arithmetic::sums::{after_difference, after_sum, difference, half_carry, sum};
use stm8::AluOp;

// a + m + c.
#[tactic(auto, unfolding(crate::specs::Accumulator::added))]
fn added(a: u8, m: u8, c: bool, cc: u8) -> Flagged<u8>
    ensures { result ≡ added_of a m c cc }
{
    Flagged {
        value: sum(a, m, c),
        cc: with_h(half_carry(a, m, c), after_sum(a, m, c, cc)),
    }
}

// a - m - c.
#[tactic(auto, unfolding(crate::specs::Accumulator::subtracted))]
pub(crate) fn subtracted(a: u8, m: u8, c: bool, cc: u8) -> Flagged<u8>
    ensures { result ≡ subtracted_of a m c cc }
{
    Flagged {
        value: difference(a, m, c),
        cc: after_difference(a, m, c, cc),
    }
}

#[tactic(auto, unfolding(crate::specs::Accumulator::result_nz, crate::specs::Accumulator::alu_result))]
pub fn alu(o: AluOp, a: u8, m: u8, cc: u8) -> Flagged<u8>
    ensures { result ≡ alu_result o a m cc }
{
    match o {
        AluOp::Adc => added(a, m, carry(cc), cc),
        AluOp::Add => added(a, m, false, cc),
        AluOp::And => result_nz(a & m, cc),
        AluOp::Bcp => Flagged {
            value: a,
            cc: with_nz(a & m, cc),
        },
        AluOp::Cp => Flagged {
            value: a,
            cc: after_difference(a, m, false, cc),
        },
        AluOp::Ld => result_nz(m, cc),
        AluOp::Or => result_nz(a | m, cc),
        AluOp::Sbc => subtracted(a, m, carry(cc), cc),
        AluOp::Sub => subtracted(a, m, false, cc),
        AluOp::Xor => result_nz(a ^ m, cc),
    }
}
