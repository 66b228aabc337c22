// The rows of the page without pre-code, by the op-code's high digit: a row is asked only for the columns, the low digit, that it has.
// a and b are the bytes after the op-code, ab, bc and cd the words that begin there. D_, E_ and F_ stand in shared.rt.
ghost use Rattle.std.specs.Prelude.{◌≡◌, ℕ};
ghost use Rattle.stm8.specs.OpcodeMap.{one, row1, row2, row3, row4, row5, row8, row9, row_a, row_b, row_c};
ghost use Rattle.stm8.specs.declared.Operand.TheVariants.{Sp};
ghost use Rattle.stm8.specs.declared.AluOp.TheVariants.{Ld};
ghost use Rattle.stm8.specs.declared.Instruction.TheVariants.{Alu, Store};
ghost use Rattle.opcodes.specs.Entries.{in_row};

use crate::operations::{alu_of, condition_of, modify_of};
use crate::shared::{register_row_5, register_row_8, register_row_9};
use stm8::{AluOp, FlagOp, Instruction, Operand, Register, WordAluOp};

pub fn row_1(op: u8, a: u8, ab: u16) -> Instruction
    ensures { result ≡ in_row (row1 a ab) op result }
{
    let column = op % 16;
    match column {
        6 => Instruction::LoadWord(Register::Y, Operand::Sp(a)),
        7 => Instruction::StoreWord(Register::Y, Operand::Sp(a)),
        12 => Instruction::WordAlu(WordAluOp::Addw, Register::X, ab),
        13 => Instruction::WordAlu(WordAluOp::Subw, Register::X, ab),
        14 => Instruction::LoadWord(Register::X, Operand::Sp(a)),
        15 => Instruction::StoreWord(Register::X, Operand::Sp(a)),
        _ => Instruction::Alu(alu_of(op), Operand::Sp(a)),
    }
}

pub fn row_2(op: u8, a: u8) -> Instruction
    ensures { result ≡ in_row (row2 a) op result }
{
    Instruction::Jump(condition_of(op), a)
}

pub fn row_3(op: u8, a: u8, ab: u16, bc: u16) -> Instruction
    ensures { result ≡ in_row (row3 a ab bc) op result }
{
    let column = op % 16;
    match column {
        2 => Instruction::Pop(Operand::Long(ab)),
        5 => Instruction::Mov(Operand::Long(bc), Operand::Immediate(a)),
        11 => Instruction::Push(Operand::Long(ab)),
        _ => Instruction::Modify(modify_of(op), Operand::Short(a)),
    }
}

pub fn row_4(op: u8, a: u8, b: u8) -> Instruction
    ensures { result ≡ in_row (row4 a b) op result }
{
    let column = op % 16;
    match column {
        2 => Instruction::Mul(Register::X),
        5 => Instruction::Mov(Operand::Short(b), Operand::Short(a)),
        11 => Instruction::Push(Operand::Immediate(a)),
        _ => Instruction::Modify(modify_of(op), Operand::Accumulator),
    }
}

pub fn row_5(op: u8, a: u8, ab: u16, cd: u16) -> Instruction
    ensures { result ≡ in_row (row5 a ab cd) op result }
{
    let column = op % 16;
    match column {
        1 => Instruction::Exgw,
        2 => Instruction::SubSp(a),
        5 => Instruction::Mov(Operand::Long(cd), Operand::Long(ab)),
        11 => Instruction::AddSp(a),
        _ => register_row_5(op, Register::X),
    }
}

// 6B alone.
pub fn row_6(a: u8) -> Instruction
    ensures { (op : ℕ) → result ≡ in_row (one 0xb (Store (Sp a))) op result }
{
    Instruction::Store(Operand::Sp(a))
}

// 7B alone.
pub fn row_7(a: u8) -> Instruction
    ensures { (op : ℕ) → result ≡ in_row (one 0xb (Alu Ld (Sp a))) op result }
{
    Instruction::Alu(AluOp::Ld, Operand::Sp(a))
}

pub fn row_8(op: u8) -> Instruction
    ensures { result ≡ in_row row8 op result }
{
    let column = op % 16;
    match column {
        1 => Instruction::Ret,
        4 => Instruction::Pop(Operand::Accumulator),
        8 => Instruction::Push(Operand::Accumulator),
        12 => Instruction::Flag(FlagOp::Ccf),
        _ => register_row_8(op, Register::X),
    }
}

pub fn row_9(op: u8) -> Instruction
    ensures { result ≡ in_row row9 op result }
{
    let column = op % 16;
    match column {
        8 => Instruction::Flag(FlagOp::Rcf),
        9 => Instruction::Flag(FlagOp::Scf),
        12 => Instruction::Flag(FlagOp::Rvf),
        13 => Instruction::Nop,
        _ => register_row_9(op, Register::X),
    }
}

pub fn row_a(op: u8, a: u8, ab: u16) -> Instruction
    ensures { result ≡ in_row (row_a a ab) op result }
{
    let column = op % 16;
    match column {
        3 => Instruction::WordAlu(WordAluOp::Cpw, Register::X, ab),
        13 => Instruction::Callr(a),
        14 => Instruction::LoadWord(Register::X, Operand::ImmediateWord(ab)),
        _ => Instruction::Alu(alu_of(op), Operand::Immediate(a)),
    }
}

pub fn row_b(op: u8, a: u8) -> Instruction
    ensures { result ≡ in_row (row_b a) op result }
{
    let column = op % 16;
    match column {
        7 => Instruction::Store(Operand::Short(a)),
        _ => Instruction::Alu(alu_of(op), Operand::Short(a)),
    }
}

pub fn row_c(op: u8, ab: u16) -> Instruction
    ensures { result ≡ in_row (row_c ab) op result }
{
    let column = op % 16;
    match column {
        7 => Instruction::Store(Operand::Long(ab)),
        13 => Instruction::Call(ab),
        14 => Instruction::LoadWord(Register::X, Operand::Long(ab)),
        15 => Instruction::StoreWord(Register::X, Operand::Long(ab)),
        _ => Instruction::Alu(alu_of(op), Operand::Long(ab)),
    }
}
