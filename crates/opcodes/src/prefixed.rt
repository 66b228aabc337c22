// Rows after 72 and after 90 that have no like without pre-code, each asked only for the columns that it has. ab is the word after the
// op-code.
ghost use Rattle.std.specs.Prelude.{◌≡◌, ℕ};
ghost use Rattle.stm8.specs.OpcodeMap.{Blank, one, two, modify_row, bit_row};
ghost use Rattle.stm8.specs.declared.Register.TheVariants.{Y};
ghost use Rattle.stm8.specs.declared.Operand.TheVariants.{ImmediateWord, Long};
ghost use Rattle.stm8.specs.declared.WordAluOp.TheVariants.{Addw, Cpw, Subw};
ghost use Rattle.stm8.specs.declared.BitTest.TheVariants.{Btjt, Btjf};
ghost use Rattle.stm8.specs.declared.Instruction.TheVariants.{Bit, BitJump, LoadWord, Mul, StoreWord, WordAlu};
ghost use Rattle.opcodes.specs.Entries.{in_row};

use crate::operations::modify_of;
use stm8::{BitOp, BitTest, Instruction, Operand, Register, WordAluOp};

// 72 0_: the column's lowest bit picks the operation, and the others are the bit position.
pub fn bit_jump_row(op: u8, ab: u16, offset: u8) -> Instruction
    ensures { result ≡ in_row (bit_row (λ n. BitJump Btjt n ab offset) (λ n. BitJump Btjf n ab offset)) op result }
{
    let column = op % 16;
    let position = column / 2;
    if column % 2 == 0 {
        Instruction::BitJump(BitTest::Btjt, position, ab, offset)
    } else {
        Instruction::BitJump(BitTest::Btjf, position, ab, offset)
    }
}

// 72 1_ and 90 1_: likewise.
pub fn bit_row(op: u8, even: BitOp, odd: BitOp, ab: u16) -> Instruction
    ensures { result ≡ in_row (bit_row (λ n. Bit even n ab) (λ n. Bit odd n ab)) op result }
{
    let column = op % 16;
    let position = column / 2;
    if column % 2 == 0 {
        Instruction::Bit(even, position, ab)
    } else {
        Instruction::Bit(odd, position, ab)
    }
}

// 72 5_: longmem.
pub fn row_72_5(op: u8, ab: u16) -> Instruction
    ensures { result ≡ in_row (modify_row (Long ab) Blank Blank Blank) op result }
{
    Instruction::Modify(modify_of(op), Operand::Long(ab))
}

// 72 A2 and 72 A9.
pub fn row_72_a(op: u8, ab: u16) -> Instruction
    ensures { result ≡ in_row (two 2 (WordAlu Subw Y ab) 9 (WordAlu Addw Y ab)) op result }
{
    let column = op % 16;
    match column {
        2 => Instruction::WordAlu(WordAluOp::Subw, Register::Y, ab),
        _ => Instruction::WordAlu(WordAluOp::Addw, Register::Y, ab),
    }
}

// 90 42 alone.
pub fn row_90_4() -> Instruction
    ensures { (op : ℕ) → result ≡ in_row (one 2 (Mul Y)) op result }
{
    Instruction::Mul(Register::Y)
}

// 90 A3 and 90 AE.
pub fn row_90_a(op: u8, ab: u16) -> Instruction
    ensures { result ≡ in_row (two 3 (WordAlu Cpw Y ab) 0xe (LoadWord Y (ImmediateWord ab))) op result }
{
    let column = op % 16;
    match column {
        3 => Instruction::WordAlu(WordAluOp::Cpw, Register::Y, ab),
        _ => Instruction::LoadWord(Register::Y, Operand::ImmediateWord(ab)),
    }
}

// 90 CE and 90 CF.
pub fn row_90_c(op: u8, ab: u16) -> Instruction
    ensures { result ≡ in_row (two 0xe (LoadWord Y (Long ab)) 0xf (StoreWord Y (Long ab))) op result }
{
    let column = op % 16;
    match column {
        14 => Instruction::LoadWord(Register::Y, Operand::Long(ab)),
        _ => Instruction::StoreWord(Register::Y, Operand::Long(ab)),
    }
}
