// What the operations on an index register give, as the manual's instruction pages have it, by operation.
#![tactic(auto)]

ghost use Rattle.std.specs.Prelude.{◌≡◌};
ghost use Rattle.index_operations.specs.Words.{ldw_result, word_alu_result, word_modify_result, mul_result};

use arithmetic::Flagged;
use arithmetic::flags::{result_nz, with_c, with_h};
use arithmetic::sums::{
    after_decrement, after_difference, after_increment, after_sum, difference, half_borrow,
    half_carry, sum,
};
use numbers::words::low;
use stm8::{WordAluOp, WordModifyOp};

#[tactic(auto, unfolding(crate::specs::Words::ldw_result))]
pub fn ldw(m: u16, cc: u8) -> Flagged<u16>
    ensures { result ≡ ldw_result m cc }
{
    result_nz(m, cc)
}

#[tactic(auto, unfolding(crate::specs::Words::word_alu_result))]
pub fn word_alu(o: WordAluOp, x: u16, m: u16, cc: u8) -> Flagged<u16>
    ensures { result ≡ word_alu_result o x m cc }
{
    match o {
        WordAluOp::Addw => Flagged {
            value: sum(x, m, false),
            cc: with_h(half_carry(x, m, false), after_sum(x, m, false, cc)),
        },
        WordAluOp::Cpw => Flagged {
            value: x,
            cc: after_difference(x, m, false, cc),
        },
        WordAluOp::Subw => Flagged {
            value: difference(x, m, false),
            cc: with_h(half_borrow(x, m, false), after_difference(x, m, false, cc)),
        },
    }
}

#[tactic(auto, unfolding(crate::specs::Words::ldw_result, crate::specs::Words::word_modify_result, arithmetic::specs::Flags::with_nz, numbers::specs::Bits::bit))]
pub fn word_modify(o: WordModifyOp, x: u16, cc: u8) -> Flagged<u16>
    ensures { result ≡ word_modify_result o x cc }
{
    match o {
        WordModifyOp::Clrw => ldw(0, cc),
        WordModifyOp::Decw => Flagged {
            value: difference(x, 1, false),
            cc: after_decrement(x, cc),
        },
        WordModifyOp::Incw => Flagged {
            value: sum(x, 1, false),
            cc: after_increment(x, cc),
        },
    }
}

#[tactic(auto, unfolding(crate::specs::Words::mul_result))]
pub fn mul(x: u16, a: u8, cc: u8) -> Flagged<u16>
    ensures { result ≡ mul_result x a cc }
{
    Flagged {
        value: low(x) as u16 * a as u16,
        cc: with_h(false, with_c(false, cc)),
    }
}
