// The cycles of an instruction, and what was decoded with its cycles.
#![tactic(auto)]

ghost use Rattle.std.specs.Prelude.{◌≡◌};
ghost use Rattle.stm8.specs.Cycles.{once as once_of, either as either_of, jump_cycles, cycles};
ghost use Rattle.cycles.specs.Timed.{with_cycles};

use effects::falls_through;
use stm8::{Condition, Cycles, Decoded, Instruction};

// What was decoded, with its cycles. Callers in C get two figures in any case, so both are 0 where it is no instruction.
#[derive(Clone, Copy)]
pub struct Timed {
    pub decoded: Decoded,
    pub cycles: Cycles,
}

// The figures of the manual's pages: one that stands for both, or not taken and taken.
fn once(n: u8) -> Cycles
    ensures { result ≡ once_of n }
{
    either(n, n)
}

fn either(untaken: u8, taken: u8) -> Cycles
    ensures { result ≡ either_of untaken taken }
{
    Cycles { untaken, taken }
}

fn jump_cycles(o: Condition) -> Cycles
    ensures { result ≡ jump_cycles o }
{
    if falls_through(o) {
        either(1, 2)
    } else {
        once(2)
    }
}

// The cycles of an instruction.
pub fn cycles_of(i: Instruction) -> Cycles
    ensures { result ≡ cycles i }
{
    match i {
        Instruction::Alu(_, _)
        | Instruction::Store(_)
        | Instruction::LoadHalf(_, _)
        | Instruction::StoreHalf(_, _)
        | Instruction::Modify(_, _)
        | Instruction::CopyWord(_)
        | Instruction::WordModify(_, _)
        | Instruction::Exgw
        | Instruction::Bit(_, _, _)
        | Instruction::Mov(_, _)
        | Instruction::Push(_)
        | Instruction::Pop(_)
        | Instruction::SubSp(_)
        | Instruction::Nop
        | Instruction::Flag(_) => once(1),
        Instruction::LoadWord(_, _)
        | Instruction::StoreWord(_, _)
        | Instruction::WordAlu(_, _, _)
        | Instruction::Pushw(_)
        | Instruction::Popw(_)
        | Instruction::AddSp(_) => once(2),
        Instruction::Mul(_) | Instruction::Call(_) | Instruction::Callr(_) | Instruction::Ret =>
            once(4),
        Instruction::BitJump(_, _, _, _) => either(2, 3),
        Instruction::Jump(o, _) => jump_cycles(o),
    }
}

// What was decoded, with its cycles.
pub fn with_cycles(decoded: Decoded) -> Timed
    ensures { result ≡ with_cycles decoded }
{
    let cycles = decoded.map_or(once(0), |(i, _)| cycles_of(i));
    Timed { decoded, cycles }
}
