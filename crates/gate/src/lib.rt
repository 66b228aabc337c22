// Starting a gate routine; check, turn, step, step back and run beside it.
#![tactic(auto)]

ghost use Rattle.std.specs.Prelude.{◌≡◌, ◌+◌, ◌≤◌, ◌<◌, length};
ghost use Rattle.image.specs.Image.{base_of, count_of, start_of, main_of};
ghost use Rattle.image.specs.Lengths.{Begins};
ghost use Rattle.image.specs.Rules.{ImageRules};
ghost use Rattle.rules.specs.Outcome.{VerdictNumbered};
ghost use Rattle.gate.specs.Start.{started, zeros, begun, cleared};

use checker::check_begins;
pub use checker::{Acceptance, Refusal, Verdict, check};
pub use image::{Area, Limits};
use image::{base_of, begin_at, count_of};
pub use machine::{
    Ran, Registers, RunAnswer, StepAnswer, Stepped, TimedRun, run, run_number, step_number,
};
pub use records::{Record, RecordedStep, SteppedBack, step, step_back};
pub use turns::{TurnAnswer, turn};

// What starting answers: the check's verdict, or 17, and the registers to go on from, all 0 where it is refused.
#[derive(Clone, Copy)]
pub struct Started {
    pub verdict: Verdict,
    pub registers: Registers,
}

// The answer of a refused start: all registers 0.
fn refused(verdict: Verdict) -> Started
    ensures { result ≡ record { verdict = verdict; registers = zeros } }
{
    let registers = Registers {
        a: 0,
        x: 0,
        y: 0,
        cc: 0,
        sp: 0,
        pc: 0,
    };
    Started { verdict, registers }
}

// The address of main's first byte.
fn main_address(image: &[u8], begins: &[u16; 32]) -> u32
    requires { ImageRules image.now × Begins image.now begins.now (count_of image.now) }
    ensures { result ≡ base_of image.now + start_of image.now (main_of image.now) }
{
    let main = count_of(image) as usize - 1;
    (base_of(image) as usize + begin_at(begins, main)) as u32
}

// 00 to the top two stack bytes, SP two below stack high and PC at main.
fn begin(
    image: &[u8],
    begins: &[u16; 32],
    limits: Limits,
    memory: &mut [u8],
    a: u8,
    x: u16,
    y: u16,
    cc: u8,
) -> Registers
    requires image_rules { ImageRules image.now × Begins image.now begins.now (count_of image.now) }
    requires le_high { (2 ≤ limits.stack.high) × (limits.stack.high < length memory.old) }
    ensures value { result ≡ begun image.now limits a x y cc }
    ensures memory_after { memory.new ≡ cleared limits memory.old }
{
    let stack = limits.stack;
    let top = stack.high as usize;
    memory[top - 1] = 0;
    memory[top] = 0;
    Registers {
        a,
        x,
        y,
        cc,
        sp: stack.high - 2,
        pc: main_address(image, begins),
    }
}

// Starts a gate routine: 17, then the whole check; accepted, main is ready to run.
pub fn start(
    image: &[u8],
    limits: Limits,
    marks: &mut [u16],
    memory: &mut [u8],
    a: u8,
    x: u16,
    y: u16,
    cc: u8,
) -> Started
    ensures cc_value { started image.now limits marks.old memory.old a x y cc ≡
        record { started = result; marks = marks.new; memory = memory.new } }
    ensures verdict_numbered { VerdictNumbered 17 result.verdict }
{
    if memory.len() != 32768 {
        return refused(Err(Refusal::of_rule(17)));
    }
    let checked = check_begins(image, limits, marks);
    let verdict = checked.verdict;
    let begins = checked.begins;
    match verdict {
        Err(_) => refused(verdict),
        Ok(_) => {
            let registers = begin(image, &begins, limits, memory, a, x, y, cc);
            Started { verdict, registers }
        }
    }
}
