// What the operations give, on the registers: A, X, Y and CC after an instruction, the value that it stores, and whether its condition holds. An
// operand's byte or word has been read before.
ghost use Rattle.std.specs.Prelude.{◌≡◌, false};
ghost use Rattle.stm8.specs.IndexRegisters.{other_of};
ghost use Rattle.arithmetic.specs.Flags.{with_nz};
ghost use Rattle.byte_operations.specs.Accumulator.{alu_result};
ghost use Rattle.byte_operations.specs.Unary.{modify_result};
ghost use Rattle.byte_operations.specs.BitOperations.{bit_result, bit_holds, bit_tested};
ghost use Rattle.byte_operations.specs.FlagOperations.{flag_result};
ghost use Rattle.byte_operations.specs.Conditions.{holds};
ghost use Rattle.index_operations.specs.Words.{ldw_result, word_alu_result, word_modify_result, mul_result};
ghost use Rattle.execution.specs.Operands.{index_of};
ghost use Rattle.execution.specs.Computing.{with_a, with_index, storing as storing_of, testing as testing_of, into_operand, half_of, with_half};
ghost use Rattle.execution.specs.Internal.{byte_keeping_flags, word_keeping_flags};

use crate::{Computed, Registers};
use arithmetic::Flagged;
use arithmetic::flags::with_nz;
use numbers::words::{high, low, word};
use stm8::{
    AluOp, BitOp, BitTest, Condition, FlagOp, Half, ModifyOp, Operand, Register, WordAluOp,
    WordModifyOp,
};

fn other_of(r: Register) -> Register
    ensures { result ≡ other_of r }
{
    match r {
        Register::X => Register::Y,
        Register::Y => Register::X,
    }
}

// A half of a word.
fn half_of(h: Half, w: u16) -> u8
    ensures { result ≡ half_of h w }
{
    match h {
        Half::Low => low(w),
        Half::High => high(w),
    }
}

// A word with a half put in.
fn with_half(h: Half, w: u16, n: u8) -> u16
    ensures { result ≡ with_half h w n }
{
    match h {
        Half::Low => word(high(w), n),
        Half::High => word(n, low(w)),
    }
}

impl Registers {
    pub(crate) fn alu(self, o: AluOp, m: u8) -> Computed
        ensures { result ≡ with_a self (alu_result o self.a m self.cc) }
    {
        self.with_a(byte_operations::alu(o, self.a, m, self.cc))
    }

    // LD operand,A
    pub(crate) fn store_a(self) -> Computed
        ensures { result ≡ storing_of self self.a (with_nz 8 self.a self.cc) }
    {
        self.storing(self.a as u16, with_nz(self.a, self.cc))
    }

    pub(crate) fn load_half(self, r: Register, h: Half) -> Computed
        ensures { result ≡ with_a self (byte_keeping_flags self (half_of h (index_of self r))) }
    {
        self.with_a(Flagged {
            value: half_of(h, self.index(r)),
            cc: self.cc,
        })
    }

    pub(crate) fn store_half(self, r: Register, h: Half) -> Computed
        ensures { result ≡ with_index self r (word_keeping_flags self (with_half h (index_of self r) self.a)) }
    {
        self.with_word(r, with_half(h, self.index(r), self.a))
    }

    pub(crate) fn modify(self, o: ModifyOp, x: Operand, m: u8) -> Computed
        ensures { result ≡ into_operand self x (modify_result o m self.cc) }
    {
        self.into_operand(x, byte_operations::modify(o, m, self.cc))
    }

    pub(crate) fn load_word(self, r: Register, m: u16) -> Computed
        ensures { result ≡ with_index self r (ldw_result m self.cc) }
    {
        self.with_index(r, index_operations::ldw(m, self.cc))
    }

    // LDW operand,register
    pub(crate) fn store_word(self, r: Register) -> Computed
        ensures { result ≡ storing_of self (index_of self r) (with_nz 16 (index_of self r) self.cc) }
    {
        let w = self.index(r);
        self.storing(w, with_nz(w, self.cc))
    }

    pub(crate) fn copy_word(self, r: Register) -> Computed
        ensures { result ≡ with_index self r (word_keeping_flags self (index_of self (other_of r))) }
    {
        self.with_word(r, self.index(other_of(r)))
    }

    pub(crate) fn word_alu(self, o: WordAluOp, r: Register, m: u16) -> Computed
        ensures { result ≡ with_index self r (word_alu_result o (index_of self r) m self.cc) }
    {
        self.with_index(r, index_operations::word_alu(o, self.index(r), m, self.cc))
    }

    pub(crate) fn word_modify(self, o: WordModifyOp, r: Register) -> Computed
        ensures { result ≡ with_index self r (word_modify_result o (index_of self r) self.cc) }
    {
        self.with_index(r, index_operations::word_modify(o, self.index(r), self.cc))
    }

    pub(crate) fn mul(self, r: Register) -> Computed
        ensures { result ≡ with_index self r (mul_result (index_of self r) self.a self.cc) }
    {
        self.with_index(r, index_operations::mul(self.index(r), self.a, self.cc))
    }

    pub(crate) fn pushw(self, r: Register) -> Computed
        ensures { result ≡ storing_of self (index_of self r) self.cc }
    {
        self.storing(self.index(r), self.cc)
    }

    // POP, into A or to the place that the effect names.
    pub(crate) fn pop(self, x: Operand, m: u8) -> Computed
        ensures { result ≡ into_operand self x (byte_keeping_flags self m) }
    {
        self.into_operand(
            x,
            Flagged {
                value: m,
                cc: self.cc,
            },
        )
    }

    pub(crate) fn bit(self, o: BitOp, position: u8, m: u8) -> Computed
        ensures { result ≡ storing_of self (bit_result o position m self.cc) self.cc }
    {
        self.storing_byte(byte_operations::bit(o, position, m, self.cc))
    }

    pub(crate) fn bit_jump(self, o: BitTest, position: u8, m: u8) -> Computed
        ensures { result ≡ testing_of self (bit_holds o position m) (bit_tested position m self.cc) }
    {
        self.testing(
            byte_operations::bit_holds(o, position, m),
            byte_operations::bit_tested(position, m, self.cc),
        )
    }

    pub(crate) fn jump(self, o: Condition) -> Computed
        ensures { result ≡ testing_of self (holds o self.cc) self.cc }
    {
        self.testing(byte_operations::holds(o, self.cc), self.cc)
    }

    pub(crate) fn flag(self, o: FlagOp) -> Computed
        ensures { result ≡ testing_of self false (flag_result o self.cc) }
    {
        self.testing(false, byte_operations::flag(o, self.cc))
    }
}
