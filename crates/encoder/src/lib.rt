// Encoding: the bytes of an instruction, or number 18.
#![tactic(auto)]

ghost use Rattle.std.specs.Prelude.{◌≡◌, [], ◌∷◌, cond, ◌+◌, ◌*◌, ◌<◌, leb};
ghost use Rattle.numbers.specs.Words.{high as high_of, low as low_of};
ghost use Rattle.stm8.specs.Encoding.{on_register, indexed_bytes, alu_bytes, mov_bytes, word_alu_bytes, padded, encoded};
ghost use Rattle.encoder.specs.Forms.{opcode_bytes, appended, appended_word, operand_form};

mod codes;

use codes::{
    alu_column, alu_sp, bit_code, bit_precode, condition_column, flag_code, load_half_code,
    load_word_sp, modify_column, precode, store_half_code, store_word_sp, test_code,
    word_modify_code,
};
use numbers::words::{high, low};
use stm8::{AluOp, Encoded, Instruction, Offset, Operand, Register, WordAluOp};

// No such instruction.
const NONE: Encoded = Encoded {
    number: 18,
    length: 0,
    bytes: [0, 0, 0, 0, 0],
};

fn one_byte(a: u8) -> Encoded
    ensures { result ≡ padded (a ∷ []) }
{
    Encoded {
        number: 0,
        length: 1,
        bytes: [a, 0, 0, 0, 0],
    }
}

// One byte more; where there is no instruction, none.
fn append(e: Encoded, byte: u8) -> Encoded
    ensures { result ≡ appended e byte }
{
    let length = e.length;
    if length == 0 {
        e
    } else if length < 5 {
        let mut bytes = e.bytes;
        bytes[length] = byte;
        Encoded {
            number: e.number,
            length: length + 1,
            bytes,
        }
    } else {
        e
    }
}

fn two_bytes(a: u8, b: u8) -> Encoded
    ensures { result ≡ padded (a ∷ b ∷ []) }
{
    append(one_byte(a), b)
}

fn append_word(e: Encoded, w: u16) -> Encoded
    ensures { result ≡ appended_word e w }
{
    append(append(e, high(w)), low(w))
}

// What an instruction begins with: its pre-code, 0 for none, and its op-code. An op-code 0 says that there is no such instruction.
fn opcode(precode: u8, code: u8) -> Encoded
    ensures { result ≡ padded (opcode_bytes precode code) }
{
    if code == 0 {
        NONE
    } else if precode == 0 {
        one_byte(code)
    } else {
        two_bytes(precode, code)
    }
}

// An instruction whose op-code for Y is that for X after 90.
fn on_register(r: Register, code: u8) -> Encoded
    ensures { result ≡ padded (on_register r (code ∷ [])) }
{
    match r {
        Register::X => one_byte(code),
        Register::Y => two_bytes(0x90, code),
    }
}

// An instruction with an operand that is not indexed: its op-code for A, #byte, #word, shortmem, longmem and (shortoff,SP), 0 for a form
// that it is not paired with, and the pre-code, 0 for none, that it has where the operand is a word.
fn on_operand(
    x: Operand,
    precode: u8,
    accumulator: u8,
    immediate: u8,
    word: u8,
    short: u8,
    long: u8,
    sp: u8,
) -> Encoded
    ensures { result ≡ operand_form precode accumulator immediate word short long sp x }
{
    match x {
        Operand::Accumulator => opcode(0, accumulator),
        Operand::Immediate(n) => append(opcode(0, immediate), n),
        Operand::ImmediateWord(w) => append_word(opcode(precode, word), w),
        Operand::Short(n) => append(opcode(0, short), n),
        Operand::Long(w) => append_word(opcode(precode, long), w),
        Operand::Indexed(_, _) => NONE,
        Operand::Sp(n) => append(opcode(0, sp), n),
    }
}

// An operation on A with an indexed operand, by the column of its op-codes.
fn indexed(column: u8, r: Register, f: Offset) -> Encoded
    requires { column < 16 }
    ensures { result ≡ padded (on_register r (indexed_bytes column f)) }
{
    match f {
        Offset::Word(w) => append_word(on_register(r, 0xd0 + column), w),
        Offset::Byte(n) => append(on_register(r, 0xe0 + column), n),
        Offset::Zero => on_register(r, 0xf0 + column),
    }
}

fn alu(o: AluOp, x: Operand) -> Encoded
    ensures { result ≡ padded (alu_bytes o x) }
{
    let column = alu_column(o);
    match x {
        Operand::Accumulator => NONE,
        Operand::Immediate(n) => two_bytes(0xa0 + column, n),
        Operand::ImmediateWord(_) => NONE,
        Operand::Short(n) => two_bytes(0xb0 + column, n),
        Operand::Long(w) => append_word(one_byte(0xc0 + column), w),
        Operand::Indexed(r, f) => indexed(column, r, f),
        Operand::Sp(n) => two_bytes(alu_sp(o), n),
    }
}

fn word_alu(o: WordAluOp, r: Register, w: u16) -> Encoded
    ensures { result ≡ padded (word_alu_bytes o r w) }
{
    match o {
        WordAluOp::Addw => match r {
            Register::X => append_word(one_byte(0x1c), w),
            Register::Y => append_word(two_bytes(0x72, 0xa9), w),
        },
        WordAluOp::Subw => match r {
            Register::X => append_word(one_byte(0x1d), w),
            Register::Y => append_word(two_bytes(0x72, 0xa2), w),
        },
        WordAluOp::Cpw => append_word(on_register(r, 0xa3), w),
    }
}

// The op-code and the address of a bit operation, at a bit position from 0 to 7.
fn at_bit(precode: u8, code: u8, position: u8, w: u16) -> Encoded
    requires { code < 32 }
    ensures { result ≡ padded (cond (leb position 7) (precode ∷ (code + 2 * position) ∷ high_of w ∷ low_of w ∷ []) []) }
{
    if position <= 7 {
        append_word(two_bytes(precode, code + 2 * position), w)
    } else {
        NONE
    }
}

// MOV: the source precedes the destination.
fn mov(to: Operand, from: Operand) -> Encoded
    ensures { result ≡ padded (mov_bytes to from) }
{
    match to {
        Operand::Accumulator => NONE,
        Operand::Immediate(_) => NONE,
        Operand::ImmediateWord(_) => NONE,
        Operand::Short(n) => append(on_operand(from, 0, 0, 0, 0, 0x45, 0, 0), n),
        Operand::Long(w) => append_word(on_operand(from, 0, 0, 0x35, 0, 0, 0x55, 0), w),
        Operand::Indexed(_, _) => NONE,
        Operand::Sp(_) => NONE,
    }
}

// The bytes of an instruction: number 0, the length and five bytes, 0 past the length; number 18 and no bytes where a name and form
// are not paired, or a bit position is over 7.
pub fn encode(i: Instruction) -> Encoded
    ensures { result ≡ encoded i }
{
    match i {
        Instruction::Alu(o, x) => alu(o, x),
        Instruction::Store(x) => on_operand(x, 0, 0, 0, 0, 0xb7, 0xc7, 0x6b),
        Instruction::LoadHalf(r, h) => on_register(r, load_half_code(h)),
        Instruction::StoreHalf(r, h) => on_register(r, store_half_code(h)),
        Instruction::Modify(o, x) => {
            let column = modify_column(o);
            on_operand(
                x,
                0x72,
                0x40 + column,
                0,
                0,
                0x30 + column,
                0x50 + column,
                0,
            )
        }
        Instruction::LoadWord(r, x) => {
            on_operand(x, precode(r), 0, 0, 0xae, 0, 0xce, load_word_sp(r))
        }
        Instruction::StoreWord(r, x) => {
            on_operand(x, precode(r), 0, 0, 0, 0, 0xcf, store_word_sp(r))
        }
        Instruction::CopyWord(r) => on_register(r, 0x93),
        Instruction::WordAlu(o, r, w) => word_alu(o, r, w),
        Instruction::WordModify(o, r) => on_register(r, word_modify_code(o)),
        Instruction::Pushw(r) => on_register(r, 0x89),
        Instruction::Popw(r) => on_register(r, 0x85),
        Instruction::Exgw => one_byte(0x51),
        Instruction::Mul(r) => on_register(r, 0x42),
        Instruction::Bit(o, n, w) => at_bit(bit_precode(o), bit_code(o), n, w),
        Instruction::BitJump(o, n, w, j) => append(at_bit(0x72, test_code(o), n, w), j),
        Instruction::Mov(to, from) => mov(to, from),
        Instruction::Push(x) => on_operand(x, 0, 0x88, 0x4b, 0, 0, 0x3b, 0),
        Instruction::Pop(x) => on_operand(x, 0, 0x84, 0, 0, 0, 0x32, 0),
        Instruction::SubSp(n) => two_bytes(0x52, n),
        Instruction::AddSp(n) => two_bytes(0x5b, n),
        Instruction::Jump(o, n) => two_bytes(0x20 + condition_column(o), n),
        Instruction::Call(w) => append_word(one_byte(0xcd), w),
        Instruction::Callr(n) => two_bytes(0xad, n),
        Instruction::Ret => one_byte(0x81),
        Instruction::Nop => one_byte(0x9d),
        Instruction::Flag(o) => one_byte(flag_code(o)),
    }
}
