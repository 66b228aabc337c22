// Whether registers and a memory are good.
ghost use Rattle.resuming.specs.Good.{Good};
ghost use Rattle.resuming.specs.Internal.{Accepting, Tells};

use crate::frames::{depth_in, frames_hold, routine_of};
use gate::{Limits, Registers};
use image::{base_of, code_at, count_of};

// PC 0 is good if SP equals stack high. Otherwise PC must be a start, and past its routine's depth the stack must hold what the callers left.
pub(crate) fn is_good(
    image: &[u8],
    limits: Limits,
    begins: &[u16; 32],
    marks: &[u16],
    memory: &[u8],
    registers: Registers,
) -> bool
    requires { Accepting image.now limits begins.now marks.now }
    ensures { Tells result (Good image.now limits marks.now registers memory.now) }
{
    let stack = limits.stack;
    let pc = registers.pc as usize;
    if pc == 0 {
        return registers.sp == stack.high;
    }
    let base = base_of(image) as usize;
    if pc < base {
        return false;
    }
    let o = pc - base;
    if image.len() - code_at(image) <= o {
        return false;
    }
    let mark = marks[o];
    if mark == 0 {
        return false;
    }
    let r = routine_of(begins, count_of(image) as usize, o);
    let place = registers.sp as usize + depth_in(mark);
    frames_hold(image, limits, begins, marks, memory, r, place)
}
