// The instruction at an op-code of a page, with the bytes after it: the row by the op-code's high digit, then the column. Whether the map
// has the op-code is not asked: where it has not, some instruction or other is given.
#![tactic(auto)]

ghost use Rattle.std.specs.Prelude.{◌≡◌};
ghost use Rattle.numbers.specs.Words.{high as high_of, low as low_of};
ghost use Rattle.stm8.specs.OpcodeMap.{Plain, After72, After90};
ghost use Rattle.opcodes.specs.Entries.{on_page};

mod operations;
mod prefixed;
mod rows;
mod shared;

use numbers::words::{high, low, word};
use prefixed::{bit_jump_row, bit_row, row_72_5, row_72_a, row_90_4, row_90_a, row_90_c};
use rows::{row_1, row_2, row_3, row_4, row_5, row_6, row_7, row_8, row_9, row_a, row_b, row_c};
use shared::{
    long_offset_row, no_offset_row, register_row_5, register_row_8, register_row_9,
    short_offset_row,
};
use stm8::{BitOp, Instruction, Register};

// The instruction at an op-code of the page without pre-code; ab and cd are the words after it.
pub fn plain_instruction(op: u8, ab: u16, cd: u16) -> Instruction
    ensures { result ≡ on_page Plain op (high_of ab) (low_of ab) (high_of cd) (low_of cd) result }
{
    let a = high(ab);
    let row = op / 16;
    match row {
        1 => row_1(op, a, ab),
        2 => row_2(op, a),
        3 => row_3(op, a, ab, word(low(ab), high(cd))),
        4 => row_4(op, a, low(ab)),
        5 => row_5(op, a, ab, cd),
        6 => row_6(a),
        7 => row_7(a),
        8 => row_8(op),
        9 => row_9(op),
        10 => row_a(op, a, ab),
        11 => row_b(op, a),
        12 => row_c(op, ab),
        13 => long_offset_row(op, Register::X, ab),
        14 => short_offset_row(op, Register::X, a),
        _ => no_offset_row(op, Register::X),
    }
}

// The same on the page after 72; c is the byte after the word.
pub fn after_72_instruction(op: u8, ab: u16, c: u8) -> Instruction
    ensures { result ≡ on_page After72 op (high_of ab) (low_of ab) c 0 result }
{
    let row = op / 16;
    match row {
        0 => bit_jump_row(op, ab, c),
        1 => bit_row(op, BitOp::Bset, BitOp::Bres, ab),
        5 => row_72_5(op, ab),
        _ => row_72_a(op, ab),
    }
}

// The same on the page after 90.
pub fn after_90_instruction(op: u8, ab: u16) -> Instruction
    ensures { result ≡ on_page After90 op (high_of ab) (low_of ab) 0 0 result }
{
    let row = op / 16;
    match row {
        1 => bit_row(op, BitOp::Bcpl, BitOp::Bccm, ab),
        4 => row_90_4(),
        5 => register_row_5(op, Register::Y),
        8 => register_row_8(op, Register::Y),
        9 => register_row_9(op, Register::Y),
        10 => row_90_a(op, ab),
        12 => row_90_c(op, ab),
        13 => long_offset_row(op, Register::Y, ab),
        14 => short_offset_row(op, Register::Y, high(ab)),
        _ => no_offset_row(op, Register::Y),
    }
}
