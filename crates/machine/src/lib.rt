// The machine: one step and a run.
#![tactic(auto)]

mod running;
mod stepping;
mod traps;

ghost use Rattle.std.specs.Prelude.{◌≡◌};
ghost use Rattle.machine.specs.Step.{step_refusal, stepped, step_number, StepNumbered};
ghost use Rattle.machine.specs.Run.{ran, run_number, RunNumbered};
ghost use Rattle.machine.specs.Cycles.{step_cycles, run_cycles};
ghost use Rattle.machine.specs.Internal.{only_step};

pub use execution::{Registers, StepAnswer, Stepped, TimedStep};
use image::Limits;

// A trap and a refusal are their numbers: definitions and theorems name them so.
#[derive(Clone, Copy)]
pub enum RunAnswer {
    Finished,
    Spent,
    Trap(u8),
    Refused(u8),
}

#[derive(Clone, Copy)]
pub struct Ran {
    pub answer: RunAnswer,
    pub registers: Registers,
    pub steps: u32,
}

// A run with its cycles: the sum over the steps made.
#[derive(Clone, Copy)]
pub struct TimedRun {
    pub ran: Ran,
    pub cycles: u64,
}

// Steps until the routine finishes, traps or the steps are used up.
pub fn run(
    image: &[u8],
    limits: Limits,
    registers: Registers,
    memory: &mut [u8],
    budget: u32,
) -> TimedRun
    ensures outcome { ran budget image.now limits registers memory.old ≡ (result.ran, memory.new) }
    ensures run_numbered { RunNumbered (step_refusal image.now limits memory.old) result.ran.answer }
    ensures cost { result.cycles ≡ run_cycles budget image.now limits registers memory.old }
{
    match stepping::validate(image, limits, memory) {
        Ok(layout) => running::run_valid(registers, image, layout, limits, memory, budget),
        Err(refusal) => running::ended(registers, RunAnswer::Refused(refusal.number())),
    }
}

// The step that a run of one step tried. Spent, such a run has made its step, so the arm of one that is spent with no step cannot come.
fn only_step(ran: Ran) -> Stepped
    ensures { result ≡ only_step ran }
{
    let answer = match ran.answer {
        _ if ran.steps != 0 => StepAnswer::Made,
        RunAnswer::Finished => StepAnswer::Finished,
        RunAnswer::Spent => StepAnswer::Made,
        RunAnswer::Trap(number) => StepAnswer::Trap(number),
        RunAnswer::Refused(number) => StepAnswer::Refused(number),
    };
    ran.registers.answer(answer)
}

// One step, from any registers and memory: a run of one, so that the run's loop alone holds the code of a step.
pub fn step(image: &[u8], limits: Limits, registers: Registers, memory: &mut [u8]) -> TimedStep
    ensures outcome { stepped image.now limits registers memory.old ≡ (result.stepped, memory.new) }
    ensures step_numbered { StepNumbered (step_refusal image.now limits memory.old) result.stepped.answer }
    ensures cost { result.cycles ≡ step_cycles image.now limits registers memory.old }
{
    let timed = run(image, limits, registers, memory, 1);
    TimedStep {
        stepped: only_step(timed.ran),
        cycles: timed.cycles,
    }
}

// The number of a step's answer: 0 made, 64 finished, else document 01's.
pub fn step_number(answer: StepAnswer) -> u8
    ensures { result ≡ step_number answer }
{
    match answer {
        StepAnswer::Made => 0,
        StepAnswer::Finished => 64,
        StepAnswer::Trap(number) | StepAnswer::Refused(number) => number,
    }
}

// The number of a run's answer: 64 finished, 65 spent, else document 01's.
pub fn run_number(answer: RunAnswer) -> u8
    ensures { result ≡ run_number answer }
{
    match answer {
        RunAnswer::Finished => 64,
        RunAnswer::Spent => 65,
        RunAnswer::Trap(number) | RunAnswer::Refused(number) => number,
    }
}
