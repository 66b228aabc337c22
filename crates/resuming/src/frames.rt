// The walk up the stack, from frame to frame: whether it holds the return address of a routine, its caller's, and so on to main's.
ghost use Rattle.std.specs.Prelude.{◌≡◌, List, ℕ, ◌+◌, ◌-◌, ◌≤◌, ◌<◌, length};
ghost use Rattle.stm8.specs.Effects.{call_target, effect};
ghost use Rattle.image.specs.Image.{base_of, count_of, size_of, main_of};
ghost use Rattle.image.specs.declared.Limits.{Limits};
ghost use Rattle.image.specs.Lengths.{Begins};
ghost use Rattle.image.specs.Rules.{ImageRules};
ghost use Rattle.code.specs.Code.{instruction_in};
ghost use Rattle.resuming.specs.Internal.{Accepting, Tells, Framed, calls_to, is_call_to, CallTold, CallerTold, NearestBelow, LastBegun};

use code::decode_at;
use effects::relative;
use gate::Limits;
use image::{base_of, begin_at, code_at, count_of, version_of};
use numbers::words::word_at;
use stm8::Instruction;

// Whether there is a call, and the offset where it stands.
#[derive(Clone, Copy)]
pub struct CallAt {
    pub found: bool,
    pub at: usize,
}

// The routine whose return address lies at place + 1, if there is one.
#[derive(Clone, Copy)]
pub struct Caller {
    pub found: bool,
    pub routine: usize,
    pub place: usize,
}

// Whether an instruction calls an address; `next` is the one after it. The instruction itself is asked: with one more caller of `effect_of` the
// compiler would not put that in line where a step's record is made, and single steps would be slower.
fn calls(next: u32, i: Instruction, address: usize) -> bool
    ensures { result ≡ calls_to (call_target next (effect i).flow) address }
{
    match i {
        Instruction::Alu(_, _) => false,
        Instruction::Store(_) => false,
        Instruction::LoadHalf(_, _) => false,
        Instruction::StoreHalf(_, _) => false,
        Instruction::Modify(_, _) => false,
        Instruction::LoadWord(_, _) => false,
        Instruction::StoreWord(_, _) => false,
        Instruction::CopyWord(_) => false,
        Instruction::WordAlu(_, _, _) => false,
        Instruction::WordModify(_, _) => false,
        Instruction::Pushw(_) => false,
        Instruction::Popw(_) => false,
        Instruction::Exgw => false,
        Instruction::Mul(_) => false,
        Instruction::Bit(_, _, _) => false,
        Instruction::BitJump(_, _, _, _) => false,
        Instruction::Mov(_, _) => false,
        Instruction::Push(_) => false,
        Instruction::Pop(_) => false,
        Instruction::SubSp(_) => false,
        Instruction::AddSp(_) => false,
        Instruction::Jump(_, _) => false,
        Instruction::Call(a) => a as usize == address,
        Instruction::Callr(n) => relative(next, n) == address,
        Instruction::Ret => false,
        Instruction::Nop => false,
        Instruction::Flag(_) => false,
    }
}

// Whether at an offset stands a call to an address that ends at the offset `next`.
fn is_call(image: &[u8], at: usize, next: usize, address: usize) -> bool
    requires { ImageRules image.now × (next ≤ size_of image.now) }
    ensures { result ≡ is_call_to (base_of image.now) at next address (instruction_in image.now at) }
{
    let code = code_at(image);
    let Ok((i, n)) = decode_at(version_of(image), &image[code..], at, image.len() - code) else {
        return false;
    };
    at + n == next && calls((base_of(image) as usize + next) as u32, i, address)
}

// The nearest marked offset below k, or 0.
fn nearest_below(marks: &[u16], k: usize) -> usize
    requires { (1 ≤ k) × (k ≤ length marks.now) }
    ensures { NearestBelow marks.now k result }
{
    let mut o = k - 1;
    while 0 < o {
        if marks[o] != 0 {
            return o;
        }
        o -= 1;
    }
    o
}

// The call to the routine that begins at an offset after which a word comes as the address.
fn call_before(image: &[u8], marks: &[u16], word: u16, begin: u16) -> CallAt
    requires { ImageRules image.now × (size_of image.now ≤ length marks.now) }
    ensures at_bound { result.at < size_of image.now }
    ensures call_told { (limits : Limits) (begins : List ℕ) → Accepting image.now limits begins marks.now →
        CallTold image.now word (base_of image.now + begin) result.found result.at }
{
    let base = base_of(image) as usize;
    let size = image.len() - code_at(image);
    let address = word as usize;
    if address <= base {
        return CallAt {
            found: false,
            at: 0,
        };
    }
    let next = address - base;
    if size < next {
        return CallAt {
            found: false,
            at: 0,
        };
    }
    let at = nearest_below(marks, next);
    CallAt {
        found: is_call(image, at, next, base + begin as usize),
        at,
    }
}

// The routine that an offset lies in: the last that begins there or before.
pub(crate) fn routine_of(begins: &[u16; 32], count: usize, o: usize) -> usize
    requires { (1 ≤ count) × (count ≤ 32) }
    ensures upper_bound { result < count }
    ensures by_index { (image : List ℕ) → Begins image begins.now count → LastBegun image count o result }
{
    let mut r = count - 1;
    while 0 < r {
        if begin_at(begins, r) <= o {
            return r;
        }
        r -= 1;
    }
    r
}

// The depth that a start's mark says.
pub(crate) fn depth_in(mark: u16) -> usize
    ensures { result ≡ mark - 1 }
{
    if mark == 0 {
        return 0;
    }
    mark as usize - 1
}

// The caller of routine r, whose return address lies at f + 1: the routine of the call that comes before that address, and past its depth there the
// place of its own.
fn caller_of(
    image: &[u8],
    begins: &[u16; 32],
    marks: &[u16],
    memory: &[u8],
    r: usize,
    f: usize,
) -> Caller
    requires { ImageRules image.now × (size_of image.now ≤ length marks.now) × (r < count_of image.now) × (f ≤ 0x7FFF) }
    ensures routine_bound { (result.routine < count_of image.now) × (f < result.place) × (result.place ≤ 0x1FFFE) }
    ensures caller_told { (limits : Limits) → Accepting image.now limits begins.now marks.now →
        (r ≡ main_of image.now → ⊥) →
        CallerTold image.now limits marks.now memory.now r f result.found result.routine result.place }
{
    let word = word_at(memory, f + 1);
    let call = call_before(image, marks, word, begins[r]);
    let at = call.at;
    Caller {
        found: call.found,
        routine: routine_of(begins, count_of(image) as usize, at),
        place: f + 2 + depth_in(marks[at]),
    }
}

// Whether the stack holds the return address of a routine, which lies at place + 1, its caller's, and so on to main's, 0000 at the very top. Each is
// compared with stack high before it is read.
pub(crate) fn frames_hold(
    image: &[u8],
    limits: Limits,
    begins: &[u16; 32],
    marks: &[u16],
    memory: &[u8],
    routine: usize,
    place: usize,
) -> bool
    requires { Accepting image.now limits begins.now marks.now × (routine < count_of image.now) × (place ≤ 0x1FFFE) }
    ensures { Tells result (Framed image.now limits marks.now memory.now routine place) }
{
    let stack = limits.stack;
    let top = stack.high as usize;
    let main = count_of(image) as usize - 1;
    let mut r = routine;
    let mut f = place;
    while r != main {
        if top < f + 2 {
            return false;
        }
        let caller = caller_of(image, begins, marks, memory, r, f);
        if !caller.found {
            return false;
        }
        r = caller.routine;
        f = caller.place;
    }
    if f + 2 != top {
        return false;
    }
    word_at(memory, f + 1) == 0
}
