// The effect of an instruction, which the check and the machine share.
#![tactic(auto)]

ghost use Rattle.std.specs.Prelude.{◌≡◌};
ghost use Rattle.stm8.specs.Effects.{relative as relative_to, bytes_wide, place_of, writes_back, modify_place, falls_through, jump_flow, stores as stores_of, goes as goes_of, calls as calls_of, effect};

use stm8::{Condition, Effect, Flow, Instruction, ModifyOp, Operand, Place, Width};

// Where a relative jump or call goes. An address below 0, which no code has, counts as 0.
#[tactic(auto, unfolding(stm8::specs::Effects::relative))]
pub fn relative(next: u32, offset: u8) -> usize
    ensures { result ≡ relative_to next offset }
{
    let sum = next as usize + offset as usize;
    if offset < 128 {
        sum
    } else {
        sum.saturating_sub(256)
    }
}

// How many bytes a store of a width writes.
pub fn bytes_wide(w: Width) -> usize
    ensures { result ≡ bytes_wide w }
{
    match w {
        Width::Byte => 1,
        Width::Word => 2,
    }
}

// Where a store to an operand goes; the other forms are no destination of the set.
fn place_of(x: Operand, w: Width) -> Place
    ensures { result ≡ place_of x w }
{
    match x {
        Operand::Short(a) => Place::Direct(a as u16, w),
        Operand::Long(a) => Place::Direct(a, w),
        Operand::Sp(f) => Place::OnStack(f, w),
        Operand::Accumulator
        | Operand::Immediate(_)
        | Operand::ImmediateWord(_)
        | Operand::Indexed(_, _) => Place::Nowhere,
    }
}

// Whether an operation stores its result: TNZ does not.
pub fn writes_back(o: ModifyOp) -> bool
    ensures { result ≡ writes_back o }
{
    !matches!(o, ModifyOp::Tnz)
}

fn modify_place(o: ModifyOp, x: Operand) -> Place
    ensures { result ≡ modify_place o x }
{
    if writes_back(o) {
        place_of(x, Width::Byte)
    } else {
        Place::Nowhere
    }
}

// Whether control may fall through a jump: past JRA it never does.
pub fn falls_through(o: Condition) -> bool
    ensures { result ≡ falls_through o }
{
    !matches!(o, Condition::Jra)
}

fn jump_flow(o: Condition, n: u8) -> Flow
    ensures { result ≡ jump_flow o n }
{
    if falls_through(o) {
        Flow::Branch(n)
    } else {
        Flow::Jump(n)
    }
}

// What neither stores nor moves the stack, and goes on at the next instruction.
const COMPUTES: Effect = Effect {
    pops: 0,
    pushes: 0,
    place: Place::Nowhere,
    flow: Flow::Next,
};

fn stores(place: Place) -> Effect
    ensures { result ≡ stores_of place }
{
    Effect { place, ..COMPUTES }
}

fn goes(flow: Flow) -> Effect
    ensures { result ≡ goes_of flow }
{
    Effect { flow, ..COMPUTES }
}

fn calls(flow: Flow) -> Effect
    ensures { result ≡ calls_of flow }
{
    Effect {
        pushes: 2,
        place: Place::Pushed(Width::Word),
        flow,
        ..COMPUTES
    }
}

// What an instruction moves.
pub fn effect_of(i: Instruction) -> Effect
    ensures { result ≡ effect i }
{
    match i {
        Instruction::Alu(_, _)
        | Instruction::LoadHalf(_, _)
        | Instruction::StoreHalf(_, _)
        | Instruction::LoadWord(_, _)
        | Instruction::CopyWord(_)
        | Instruction::WordAlu(_, _, _)
        | Instruction::WordModify(_, _)
        | Instruction::Exgw
        | Instruction::Mul(_)
        | Instruction::Nop
        | Instruction::Flag(_) => COMPUTES,
        Instruction::Store(x) | Instruction::Mov(x, _) => stores(place_of(x, Width::Byte)),
        Instruction::StoreWord(_, x) => stores(place_of(x, Width::Word)),
        Instruction::Modify(o, x) => stores(modify_place(o, x)),
        Instruction::Bit(_, _, a) => stores(Place::Direct(a, Width::Byte)),
        Instruction::Push(_) => Effect {
            pushes: 1,
            ..stores(Place::Pushed(Width::Byte))
        },
        Instruction::Pushw(_) => Effect {
            pushes: 2,
            ..stores(Place::Pushed(Width::Word))
        },
        Instruction::Pop(x) => Effect {
            pops: 1,
            ..stores(place_of(x, Width::Byte))
        },
        Instruction::Popw(_) => Effect {
            pops: 2,
            ..COMPUTES
        },
        Instruction::SubSp(n) => Effect {
            pushes: n,
            ..COMPUTES
        },
        Instruction::AddSp(n) => Effect {
            pops: n,
            ..COMPUTES
        },
        Instruction::BitJump(_, _, _, n) => goes(Flow::Branch(n)),
        Instruction::Jump(o, n) => goes(jump_flow(o, n)),
        Instruction::Call(a) => calls(Flow::Call(a)),
        Instruction::Callr(n) => calls(Flow::CallRelative(n)),
        Instruction::Ret => Effect {
            pops: 2,
            ..goes(Flow::Return)
        },
    }
}
