// The operations that the columns of several rows have in common. All sixteen columns are spelled, so that the compiler makes a table;
// LD and CLR fill those that are outside the set or hold something else. The default, never reached, is not one of these two, since the
// compiler drops arms that are as the default, and with many dropped it makes jumps.
ghost use Rattle.std.specs.Prelude.{◌≡◌, ℕ};
ghost use Rattle.stm8.specs.OpcodeMap.{Blank, indexed_row, modify_row, row2};
ghost use Rattle.stm8.specs.declared.Operand.{Operand};
ghost use Rattle.stm8.specs.declared.Instruction.TheVariants.{Alu, Modify, Jump};
ghost use Rattle.opcodes.specs.Entries.{in_row};

use stm8::{AluOp, Condition, ModifyOp};

// The operation on A, in the column that an indexed row has it in.
pub fn alu_of(op: u8) -> AluOp
    ensures { (x : Operand) → Alu result x ≡ in_row (indexed_row x) op (Alu result x) }
{
    let column = op % 16;
    match column {
        0 => AluOp::Sub,
        1 => AluOp::Cp,
        2 => AluOp::Sbc,
        3 => AluOp::Ld,
        4 => AluOp::And,
        5 => AluOp::Bcp,
        6 => AluOp::Ld,
        7 => AluOp::Ld,
        8 => AluOp::Xor,
        9 => AluOp::Adc,
        10 => AluOp::Or,
        11 => AluOp::Add,
        12 => AluOp::Ld,
        13 => AluOp::Ld,
        14 => AluOp::Ld,
        15 => AluOp::Ld,
        _ => AluOp::Sub,
    }
}

// The operation that reads, modifies and writes its operand.
pub fn modify_of(op: u8) -> ModifyOp
    ensures { (x : Operand) → Modify result x ≡ in_row (modify_row x Blank Blank Blank) op (Modify result x) }
{
    let column = op % 16;
    match column {
        0 => ModifyOp::Neg,
        1 => ModifyOp::Clr,
        2 => ModifyOp::Clr,
        3 => ModifyOp::Cpl,
        4 => ModifyOp::Srl,
        5 => ModifyOp::Clr,
        6 => ModifyOp::Rrc,
        7 => ModifyOp::Sra,
        8 => ModifyOp::Sll,
        9 => ModifyOp::Rlc,
        10 => ModifyOp::Dec,
        11 => ModifyOp::Clr,
        12 => ModifyOp::Inc,
        13 => ModifyOp::Tnz,
        14 => ModifyOp::Swap,
        15 => ModifyOp::Clr,
        _ => ModifyOp::Neg,
    }
}

// The condition of a column of the relative jumps.
pub fn condition_of(op: u8) -> Condition
    ensures { (a : ℕ) → Jump result a ≡ in_row (row2 a) op (Jump result a) }
{
    let column = op % 16;
    match column {
        0 => Condition::Jra,
        1 => Condition::Jrf,
        2 => Condition::Jrugt,
        3 => Condition::Jrule,
        4 => Condition::Jrnc,
        5 => Condition::Jrc,
        6 => Condition::Jrne,
        7 => Condition::Jreq,
        8 => Condition::Jrnv,
        9 => Condition::Jrv,
        10 => Condition::Jrpl,
        11 => Condition::Jrmi,
        12 => Condition::Jrsgt,
        13 => Condition::Jrsle,
        14 => Condition::Jrsge,
        15 => Condition::Jrslt,
        _ => Condition::Jra,
    }
}
