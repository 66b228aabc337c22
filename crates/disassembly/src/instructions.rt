// The text of an instruction: its name, and the operands after it.
#![tactic(auto, unfolding(crate::specs::Text::text))]

ghost use Rattle.std.specs.Prelude.{◌≡◌, [], cond, ◌+◌, leb};
ghost use Rattle.stm8.specs.IndexRegisters.{other_of};
ghost use Rattle.notation.specs.Writing.{appended};
ghost use Rattle.disassembly.specs.Text.{target as target_of, text as text_of};

use effects::relative;
use notation::{Accumulator, Address, LONGEST, Named, Position, StackPointer, Text, names};
use stm8::{Instruction, Operand, Register};

// The target of a jump of so many bytes at an address.
#[tactic(auto, unfolding(crate::specs::Text::target))]
fn target(address: u16, length: u8, n: u8) -> u16
    ensures { result ≡ target_of (address + length) n }
{
    let next = 0x10000 + address as u32 + length as u32;
    (relative(next, n) % 0x10000) as u16
}

// The length of BTJT and BTJF; with a bit position over 7 there is no such instruction.
fn bit_jump_length(position: u8) -> u8
    ensures { result ≡ cond (leb position 7) 5 0 }
{
    if position <= 7 { 5 } else { 0 }
}

// The index register that r is not.
fn other(r: Register) -> Register
    ensures { result ≡ other_of r }
{
    match r {
        Register::X => Register::Y,
        Register::Y => Register::X,
    }
}

/// The text of the instruction at an address.
pub fn text_of(i: Instruction, here: u16) -> Text<LONGEST>
    ensures { result ≡ appended LONGEST [] (text_of here i) }
{
    let mut text = Text::new();
    push_text(&mut text, i, here);
    text
}

/// The same at the end of a text.
pub fn push_text<const N: usize>(text: &mut Text<N>, i: Instruction, here: u16)
    ensures { text.new ≡ appended N text.old (text_of here i) }
{
    match i {
        Instruction::Alu(o, x) => text.push_with_two(o.name(), Accumulator, x),
        Instruction::Store(x) => text.push_with_two(names::LD, x, Accumulator),
        Instruction::LoadHalf(r, h) => text.push_with_two(names::LD, Accumulator, (r, h)),
        Instruction::StoreHalf(r, h) => text.push_with_two(names::LD, (r, h), Accumulator),
        Instruction::Modify(o, x) => text.push_with_one(o.name(), x),
        Instruction::LoadWord(r, x) => text.push_with_two(names::LDW, r, x),
        Instruction::StoreWord(r, x) => text.push_with_two(names::LDW, x, r),
        Instruction::CopyWord(r) => text.push_with_two(names::LDW, r, other(r)),
        Instruction::WordAlu(o, r, w) => text.push_with_two(o.name(), r, Operand::ImmediateWord(w)),
        Instruction::WordModify(o, r) => text.push_with_one(o.name(), r),
        Instruction::Pushw(r) => text.push_with_one(names::PUSHW, r),
        Instruction::Popw(r) => text.push_with_one(names::POPW, r),
        Instruction::Exgw => text.push_with_two(names::EXGW, Register::X, Register::Y),
        Instruction::Mul(r) => text.push_with_two(names::MUL, r, Accumulator),
        Instruction::Bit(o, n, w) => text.push_with_two(o.name(), Address(w), Position(n)),
        Instruction::BitJump(o, n, w, j) => text.push_with_three(
            o.name(),
            Address(w),
            Position(n),
            Address(target(here, bit_jump_length(n), j)),
        ),
        Instruction::Mov(to, from) => text.push_with_two(names::MOV, to, from),
        Instruction::Push(x) => text.push_with_one(names::PUSH, x),
        Instruction::Pop(x) => text.push_with_one(names::POP, x),
        Instruction::SubSp(n) => text.push_with_two(
            names::SUB,
            StackPointer,
            Operand::Immediate(n),
        ),
        Instruction::AddSp(n) => text.push_with_two(
            names::ADDW,
            StackPointer,
            Operand::Immediate(n),
        ),
        Instruction::Jump(o, n) => text.push_with_one(o.name(), Address(target(here, 2, n))),
        Instruction::Call(w) => text.push_with_one(names::CALL, Address(w)),
        Instruction::Callr(n) => text.push_with_one(names::CALLR, Address(target(here, 2, n))),
        Instruction::Ret => text.push_name(names::RET),
        Instruction::Nop => text.push_name(names::NOP),
        Instruction::Flag(o) => text.push_name(o.name()),
    }
}
