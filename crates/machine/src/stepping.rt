// A step of an image and limits that are valid.
ghost use Rattle.std.specs.Prelude.{◌≡◌, ◌-◌, ◌≤◌, ℕ, List};
ghost use Rattle.numbers.specs.Checks.{first};
ghost use Rattle.image.specs.Image.{base_of, layout_of};
ghost use Rattle.image.specs.Validation.{answer};
ghost use Rattle.image.specs.ValidLayout.{ValidLayout};
ghost use Rattle.code.specs.Code.{instruction_in};
ghost use Rattle.storage.specs.Storing.{sp_trap};
ghost use Rattle.storage.specs.Traps.{number_of};
ghost use Rattle.execution.specs.Cycles.{cost_of};
ghost use Rattle.machine.specs.Cycles.{cycles_at};
ghost use Rattle.machine.specs.Refusing.{refusal_number, answer_of};
ghost use Rattle.machine.specs.Step.{pc_trap, decoding_trap, decoded_step, step_valid, step_refusal};

use crate::traps::{pc_trap, sp_trap};
use crate::{Registers, StepAnswer, Stepped, TimedStep};
use code::decode_at;
use image::{ImageError, Layout, Limits};
use numbers::checks::first;
use stm8::{DecodeError, Decoded};
use storage::Trap;

// Why no step is tried: memory has not 32,768 bytes, or the image or the limits are not valid.
#[derive(Clone, Copy, Debug, PartialEq, Eq)]
pub enum StepRefusal {
    Memory,
    Image(ImageError),
}

impl StepRefusal {
    // Document 01's number, 17 and 1 to 4.
    pub(crate) fn number(self) -> u8
        ensures { result ≡ refusal_number self }
    {
        match self {
            StepRefusal::Memory => 17,
            StepRefusal::Image(error) => error.number(),
        }
    }
}

// The layout of the image; memory's size comes first.
#[tactic(auto, unfolding(crate::specs::Step::step_refusal, numbers::specs::Checks::differ, numbers::specs::Checks::first, image::specs::Validation::validated))]
pub(crate) fn validate(image: &[u8], limits: Limits, memory: &[u8]) -> Result<Layout, StepRefusal>
    ensures { answer_of result ≡ answer (step_refusal image.now limits memory.now) (layout_of image.now) }
{
    if memory.len() != 32768 {
        return Err(StepRefusal::Memory);
    }
    image::validate(image, limits).map_err(StepRefusal::Image)
}

// What stands at PC.
fn fetch(image: &[u8], layout: Layout, pc: u32) -> Decoded
    requires valid { ValidLayout image.now layout }
    requires inside { pc_trap image.now pc ≡ 0 }
    ensures { result ≡ instruction_in image.now (pc - base_of image.now) }
{
    let code = layout.code;
    decode_at(
        layout.version,
        &image[code..],
        pc as usize - layout.base as usize,
        layout.size,
    )
}

// 23 outside the set, 22 where the bytes run out.
fn decoding_trap(decoded: Decoded) -> u8
    ensures { result ≡ decoding_trap decoded }
{
    match decoded {
        Ok(_) => 0,
        Err(DecodeError::Outside) => 23,
        Err(DecodeError::Truncated) => 22,
    }
}

// A step that is not made costs no cycles.
fn without_cycles(stepped: Stepped) -> TimedStep
    ensures { result ≡ record { stepped = stepped; cycles = 0 } }
{
    TimedStep { stepped, cycles: 0 }
}

// The instruction at PC, which is in the code.
fn step_inside(
    registers: Registers,
    image: &[u8],
    layout: Layout,
    limits: Limits,
    memory: &mut [u8],
) -> TimedStep
    requires valid { ValidLayout image.now layout }
    requires stack { sp_trap limits registers.sp ≡ 0 }
    requires inside { pc_trap image.now registers.pc ≡ 0 }
    ensures outcome { decoded_step image.now limits registers memory.old
        (instruction_in image.now (registers.pc - base_of image.now)) ≡ (result.stepped, memory.new) }
    ensures cost { result.cycles ≡ cost_of result.stepped.answer (cycles_at image.now registers memory.old) }
{
    let decoded = fetch(image, layout, registers.pc);
    let Ok((i, n)) = decoded else {
        return without_cycles(registers.answer(StepAnswer::Trap(decoding_trap(decoded))));
    };
    registers.step(image, limits, memory, i, registers.pc + n as u32)
}

// The traps of SP and PC, in this order.
fn early_trap(registers: Registers, layout: Layout, limits: Limits) -> Result<(), Trap>
    requires { layout.size ≤ 4096 }
    ensures { (image : List ℕ) → layout ≡ layout_of image →
        number_of result ≡ first (sp_trap limits registers.sp) (pc_trap image registers.pc) }
{
    sp_trap(limits, registers.sp)?;
    pc_trap(layout, registers.pc)
}

// One step.
pub(crate) fn step_valid(
    registers: Registers,
    image: &[u8],
    layout: Layout,
    limits: Limits,
    memory: &mut [u8],
) -> TimedStep
    requires valid { ValidLayout image.now layout }
    ensures outcome { step_valid image.now limits registers memory.old ≡ (result.stepped, memory.new) }
    ensures cost { result.cycles ≡ cost_of result.stepped.answer (cycles_at image.now registers memory.old) }
{
    if registers.pc == 0 {
        return without_cycles(registers.answer(StepAnswer::Finished));
    }
    if let Err(trap) = early_trap(registers, layout, limits) {
        return without_cycles(registers.answer(StepAnswer::Trap(u8::from(trap))));
    }
    step_inside(registers, image, layout, limits, memory)
}
