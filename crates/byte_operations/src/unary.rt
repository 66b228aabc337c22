// The operations on one byte: the byte and CC after each.
ghost use Rattle.std.specs.Prelude.{◌≡◌};
ghost use Rattle.byte_operations.specs.Unary.{result_nzc, shifted_left, shifted_right, modify_result};

use crate::accumulator::subtracted;
use arithmetic::Flagged;
use arithmetic::bits::is_set;
use arithmetic::flags::{carry, result_nz, with_c, with_nz};
use arithmetic::sums::{after_decrement, after_increment, difference, sum};
use numbers::bits::flag;
use stm8::ModifyOp;

// A value that affects N, Z and C.
#[tactic(auto, unfolding(crate::specs::Unary::result_nzc))]
fn result_nzc(value: u8, c: bool, cc: u8) -> Flagged<u8>
    ensures { result ≡ result_nzc value c cc }
{
    Flagged {
        value,
        cc: with_c(c, with_nz(value, cc)),
    }
}

// One place to the left.
#[tactic(auto, using(arithmetic::proofs::BitLaws::flag_le), unfolding(crate::specs::Unary::shifted_left))]
fn shifted_left(m: u8, entering: bool, cc: u8) -> Flagged<u8>
    ensures { result ≡ shifted_left m entering cc }
{
    result_nzc(m % 128 * 2 + flag(entering), is_set(7, m), cc)
}

// One place to the right.
#[tactic(auto, using(arithmetic::proofs::BitLaws::flag_le), unfolding(crate::specs::Unary::shifted_right))]
fn shifted_right(m: u8, entering: bool, cc: u8) -> Flagged<u8>
    ensures { result ≡ shifted_right m entering cc }
{
    result_nzc(flag(entering) * 128 + m / 2, is_set(0, m), cc)
}

#[tactic(auto, unfolding(crate::specs::Unary::modify_result, crate::specs::Accumulator::result_nz, arithmetic::specs::Flags::with_nz, numbers::specs::Bits::bit))]
pub fn modify(o: ModifyOp, m: u8, cc: u8) -> Flagged<u8>
    ensures { result ≡ modify_result o m cc }
{
    match o {
        ModifyOp::Clr => result_nz(0, cc),
        ModifyOp::Cpl => result_nzc(255 - m, true, cc),
        ModifyOp::Dec => Flagged {
            value: difference(m, 1, false),
            cc: after_decrement(m, cc),
        },
        ModifyOp::Inc => Flagged {
            value: sum(m, 1, false),
            cc: after_increment(m, cc),
        },
        ModifyOp::Neg => subtracted(0, m, false, cc),
        ModifyOp::Rlc => shifted_left(m, carry(cc), cc),
        ModifyOp::Rrc => shifted_right(m, carry(cc), cc),
        ModifyOp::Sll => shifted_left(m, false, cc),
        ModifyOp::Sra => shifted_right(m, is_set(7, m), cc),
        ModifyOp::Srl => shifted_right(m, false, cc),
        ModifyOp::Swap => result_nz(m % 16 * 16 + m / 16, cc),
        ModifyOp::Tnz => result_nz(m, cc),
    }
}
