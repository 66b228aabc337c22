// The sum over the instructions of each routine, in table order, up to a jump that goes to its own or a lower address.
ghost use Rattle.std.specs.Prelude.{◌≡◌, List, ℕ, ◌≤◌, ◌<◌, IfSome};
ghost use Rattle.stm8.specs.Effects.{jump_target, call_target};
ghost use Rattle.image.specs.Lengths.{Begins};
ghost use Rattle.decode_pass.specs.Pass.{RoutineOf, Given};
ghost use Rattle.turns.specs.Turn.{goes_back, callee_turn};
ghost use Rattle.turns.specs.Internal.{held as held_of, HeldIn, Fit, CountedAt, RoutineSum, MainSum};

use checker::{ValidImage, routine_at};
use code::decode_at;
use decode_pass::{Routine, callee};
use effects::{effect_of, relative};
use stm8::Flow;

// What stands at an offset, where it jumps to no address that is its own or lower: its turn, and the offset behind it.
#[derive(Clone, Copy)]
struct Counted {
    turn: u64,
    next: usize,
}

// A sum above 4,294,967,295 is held as 4,294,967,296, so that no sum of two wraps.
#[tactic(auto, unfolding(crate::specs::Internal::held))]
fn held(n: u64) -> u64
    ensures { result ≡ held_of n }
{
    n.min(4294967296)
}

// The turn of the routine that is called, 0 where nothing is; `next` is the address after the instruction.
#[tactic(auto, unfolding(stm8::specs::Effects::call_target, crate::specs::Internal::held))]
fn callee_turn(begins: &[u16; 32], turns: &[u64; 32], r: Routine, next: u32, flow: Flow) -> u64
    requires { (r.index < 32) × Fit turns.now }
    ensures upper_bound { result ≤ 4294967296 }
    ensures turn { (image before : List ℕ) → RoutineOf image r → Begins image begins.now r.index →
        HeldIn turns.now before → result ≡ held_of (callee_turn image before r.index (call_target next flow)) }
{
    // Where a call has no callee, as in no accepted image, the routine's own turn stands there, which is not summed yet.
    match flow {
        Flow::Call(a) => turns[callee(begins, r.base, r.index, usize::from(a)).unwrap_or(r.index)],
        Flow::CallRelative(n) => {
            turns[callee(begins, r.base, r.index, relative(next, n)).unwrap_or(r.index)]
        }
        Flow::Next | Flow::Branch(_) | Flow::Jump(_) | Flow::Return => 0,
    }
}

// Whether an instruction at an address, with `next` after it, jumps to that address or a lower one.
#[tactic(auto, unfolding(stm8::specs::Effects::jump_target))]
fn goes_back(own: usize, next: u32, flow: Flow) -> bool
    ensures { result ≡ goes_back own (jump_target next flow) }
{
    match flow {
        Flow::Branch(n) => relative(next, n) <= own,
        Flow::Jump(n) => relative(next, n) <= own,
        Flow::Call(_) | Flow::CallRelative(_) => false,
        Flow::Next | Flow::Return => false,
    }
}

// What stands at an offset of a routine, none where it jumps back. Where no instruction does, as in no accepted image, the routine is over.
fn count_at(
    code: &[u8],
    begins: &[u16; 32],
    turns: &[u64; 32],
    r: Routine,
    at: usize,
) -> Option<Counted>
    requires { (at < r.end) × (r.end ≤ 4096) × (r.index < 32) × Fit turns.now }
    ensures ahead { IfSome result (λ c. (at < c.next) × (c.next ≤ r.end) × (c.turn ≤ 4294967297)) }
    ensures counted { (image before : List ℕ) → Given image code.now begins.now r → HeldIn turns.now before →
        CountedAt image before r.index at result }
{
    let Ok((i, n)) = decode_at(r.version, code, at, r.end) else {
        return Some(Counted {
            turn: 0,
            next: r.end,
        });
    };
    let flow = effect_of(i).flow;
    let own = usize::from(r.base) + at;
    let next = (own + n) as u32;
    if goes_back(own, next, flow) {
        return None;
    }
    Some(Counted {
        turn: 1 + callee_turn(begins, turns, r, next, flow),
        next: at + n,
    })
}

// The sum over a routine's instructions, by the turns of the routines before it; none where one of them jumps back.
fn sum_routine(code: &[u8], begins: &[u16; 32], turns: &[u64; 32], r: Routine) -> Option<u64>
    requires { (r.end ≤ 4096) × (r.index < 32) × Fit turns.now }
    ensures upper_bound { IfSome result (λ turn. turn ≤ 4294967296) }
    ensures summed { (image before : List ℕ) → Given image code.now begins.now r → HeldIn turns.now before →
        RoutineSum image before r.index result }
{
    let mut turn = 0;
    let mut at = r.start;
    // A step is as long as its instruction, which is known once it is decoded: no range has these offsets.
    while at < r.end {
        let counted = count_at(code, begins, turns, r, at)?;
        turn = held(turn + counted.turn);
        at = counted.next;
    }
    Some(turn)
}

// The sum over main, the last routine, after those over the routines before it; none where one of them jumps back.
pub(crate) fn sum_main(valid: ValidImage) -> Option<u64>
    ensures { MainSum valid.entry.image.now result }
{
    let code = &valid.image[valid.layout.code..];
    let mut turns = [0u64; 32];
    let mut turn = 0;
    let mut start = 0;
    for index in 0..valid.layout.count {
        let r = routine_at(valid.limits, valid.layout, valid.begins, index, start);
        turn = sum_routine(code, valid.begins, &turns, r)?;
        turns[index] = turn;
        start = r.end;
    }
    Some(turn)
}
