// Steps with their records, and stepping back: the registers before a step and the bytes of memory that it overwrote, given back.
#![tactic(auto)]

mod back;
mod recording;

ghost use Rattle.std.specs.Prelude.{◌≡◌};
ghost use Rattle.machine.specs.Step.{step_refusal, stepped, StepNumbered};
ghost use Rattle.machine.specs.Cycles.{step_cycles};
ghost use Rattle.records.specs.Recording.{recorded};
ghost use Rattle.records.specs.Back.{stepped_back};

use image::Limits;
use machine::{Registers, Stepped};

// The registers before a step and the bytes of memory that it overwrote: how many, where each lies and what it held, the lower address first. A count
// and addresses have 32 bits, as the cells of a caller in C, and stand apart from the values as those do: a value that is too large is refused, and none
// is cut.
#[derive(Clone, Copy)]
pub struct Record {
    pub registers: Registers,
    pub count: u32,
    pub addresses: [u32; 2],
    pub values: [u8; 2],
}

// A step with its cycles and its record.
#[derive(Clone, Copy)]
pub struct RecordedStep {
    pub stepped: Stepped,
    pub cycles: u64,
    pub record: Record,
}

// What stepping back answers: 0, 17 or 26, and the record's registers, whatever the number.
#[derive(Clone, Copy)]
pub struct SteppedBack {
    pub number: u8,
    pub registers: Registers,
}

// One step, from any registers and memory, with its record: made, finished, trapped or refused. What it is about to overwrite is read before it.
pub fn step(image: &[u8], limits: Limits, registers: Registers, memory: &mut [u8]) -> RecordedStep
    ensures memory_value { stepped image.now limits registers memory.old ≡ (result.stepped, memory.new) }
    ensures step_numbered { StepNumbered (step_refusal image.now limits memory.old) result.stepped.answer }
    ensures cycles_value { result.cycles ≡ step_cycles image.now limits registers memory.old }
    ensures record_value { result.record ≡ recorded image.now limits registers memory.old }
{
    let before = recording::record_at(image, registers, memory);
    let timed = machine::step(image, limits, registers, memory);
    let stepped = timed.stepped;
    let answer = stepped.answer;
    let record = recording::record_of(answer, registers, before);
    RecordedStep {
        stepped,
        cycles: timed.cycles,
        record,
    }
}

// Gives a record back: its bytes are written in its order, unless it is refused.
pub fn step_back(given: Record, memory: &mut [u8]) -> SteppedBack
    ensures { stepped_back given memory.old ≡ (result, memory.new) }
{
    let number = back::refusal(given, memory);
    back::put_unless(number, given, memory);
    let registers = given.registers;
    SteppedBack { number, registers }
}
