// A run of an image and limits that are valid.
ghost use Rattle.std.specs.Prelude.{◌≡◌};
ghost use Rattle.image.specs.ValidLayout.{ValidLayout};
ghost use Rattle.machine.specs.Step.{step_refusal};
ghost use Rattle.machine.specs.Run.{ran};
ghost use Rattle.machine.specs.Cycles.{run_cycles};

use crate::stepping::step_valid;
use crate::{Ran, Registers, RunAnswer, StepAnswer, TimedRun};
use image::{Layout, Limits};

// An answer before any step.
pub(crate) fn ended(registers: Registers, answer: RunAnswer) -> TimedRun
    ensures { result ≡ record { ran = record { answer = answer; registers = registers; steps = 0 }; cycles = 0 } }
{
    let ran = Ran {
        answer,
        registers,
        steps: 0,
    };
    TimedRun { ran, cycles: 0 }
}

// The steps of a run, one after the other.
pub(crate) fn run_valid(
    given: Registers,
    image: &[u8],
    layout: Layout,
    limits: Limits,
    memory: &mut [u8],
    budget: u32,
) -> TimedRun
    requires valid { ValidLayout image.now layout }
    requires passes { step_refusal image.now limits memory.old ≡ 0 }
    ensures outcome { ran budget image.now limits given memory.old ≡ (result.ran, memory.new) }
    ensures cost { result.cycles ≡ run_cycles budget image.now limits given memory.old }
{
    let mut registers = given;
    let mut cycles = 0;
    for steps in 0..budget {
        let timed = step_valid(registers, image, layout, limits, memory);
        registers = timed.stepped.registers;
        let answer = match timed.stepped.answer {
            StepAnswer::Made => {
                cycles += timed.cycles;
                continue;
            }
            StepAnswer::Finished => RunAnswer::Finished,
            StepAnswer::Trap(number) => RunAnswer::Trap(number),
            StepAnswer::Refused(number) => RunAnswer::Refused(number),
        };
        return TimedRun {
            ran: Ran {
                answer,
                registers,
                steps,
            },
            cycles,
        };
    }
    let answer = if registers.pc == 0 {
        RunAnswer::Finished
    } else {
        RunAnswer::Spent
    };
    let ran = Ran {
        answer,
        registers,
        steps: budget,
    };
    TimedRun { ran, cycles }
}
