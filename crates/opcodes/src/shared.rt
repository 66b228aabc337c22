// Rows that stand without pre-code for X and after 90 for Y, each asked only for the columns that it has.
ghost use Rattle.std.specs.Prelude.{◌≡◌};
ghost use Rattle.stm8.specs.OpcodeMap.{Blank, indexed_row, register_row5, register_row8, register_row9};
ghost use Rattle.stm8.specs.declared.Operand.TheVariants.{Indexed};
ghost use Rattle.stm8.specs.declared.Offset.TheVariants.{Zero, Byte, Word};
ghost use Rattle.opcodes.specs.Entries.{in_row};

use crate::operations::alu_of;
use stm8::{Half, Instruction, Offset, Operand, Register, WordModifyOp};

// 5_, with A, C and F for either register.
pub fn register_row_5(op: u8, register: Register) -> Instruction
    ensures { result ≡ in_row (register_row5 register Blank Blank Blank Blank) op result }
{
    let column = op % 16;
    match column {
        10 => Instruction::WordModify(WordModifyOp::Decw, register),
        12 => Instruction::WordModify(WordModifyOp::Incw, register),
        _ => Instruction::WordModify(WordModifyOp::Clrw, register),
    }
}

// 8_, with 5 and 9.
pub fn register_row_8(op: u8, register: Register) -> Instruction
    ensures { result ≡ in_row (register_row8 register Blank Blank Blank Blank) op result }
{
    let column = op % 16;
    match column {
        5 => Instruction::Popw(register),
        _ => Instruction::Pushw(register),
    }
}

// 9_, with 3, 5, 7, E and F.
pub fn register_row_9(op: u8, register: Register) -> Instruction
    ensures { result ≡ in_row (register_row9 register Blank Blank Blank Blank) op result }
{
    let column = op % 16;
    match column {
        3 => Instruction::CopyWord(register),
        5 => Instruction::StoreHalf(register, Half::High),
        7 => Instruction::StoreHalf(register, Half::Low),
        14 => Instruction::LoadHalf(register, Half::High),
        _ => Instruction::LoadHalf(register, Half::Low),
    }
}

// D_: (longoff,register).
pub fn long_offset_row(op: u8, register: Register, offset: u16) -> Instruction
    ensures { result ≡ in_row (indexed_row (Indexed register (Word offset))) op result }
{
    Instruction::Alu(alu_of(op), Operand::Indexed(register, Offset::Word(offset)))
}

// E_: (shortoff,register).
pub fn short_offset_row(op: u8, register: Register, offset: u8) -> Instruction
    ensures { result ≡ in_row (indexed_row (Indexed register (Byte offset))) op result }
{
    Instruction::Alu(alu_of(op), Operand::Indexed(register, Offset::Byte(offset)))
}

// F_: (register).
pub fn no_offset_row(op: u8, register: Register) -> Instruction
    ensures { result ≡ in_row (indexed_row (Indexed register Zero)) op result }
{
    Instruction::Alu(alu_of(op), Operand::Indexed(register, Offset::Zero))
}
