// The record of a step: what memory holds where the instruction at PC stores.
ghost use Rattle.std.specs.Prelude.{◌≡◌, List, [], ℕ, ◌+◌, ◌-◌, ◌<◌};
ghost use Rattle.image.specs.Image.{base_of};
ghost use Rattle.image.specs.Rules.{ImageRules};
ghost use Rattle.code.specs.Code.{instruction_in};
ghost use Rattle.storage.specs.Storing.{bytes_from, stored_at};
ghost use Rattle.execution.specs.Performing.{sp_after};
ghost use Rattle.records.specs.Recording.{record_of, stored_by, overwrites};

use crate::Record;
use code::decode_at;
use effects::effect_of;
use image::{base_of, code_at, version_of};
use machine::{Registers, StepAnswer};
use numbers::words::byte_at;
use stm8::{DecodeError, Decoded, Effect, Place, Width};

// A record of no bytes.
fn without_bytes(registers: Registers) -> Record
    ensures { (memory : List ℕ) → result ≡ record_of registers memory [] }
{
    Record {
        registers,
        count: 0,
        addresses: [0, 0],
        values: [0, 0],
    }
}

// A record of a byte or a word.
fn record_from(registers: Registers, memory: &[u8], at: u32, w: Width) -> Record
    requires { at < 0x100000 }
    ensures { result ≡ record_of registers memory.now (bytes_from at w) }
{
    let lower = byte_at(memory, at as usize);
    match w {
        Width::Byte => Record {
            registers,
            count: 1,
            addresses: [at, 0],
            values: [lower, 0],
        },
        Width::Word => Record {
            registers,
            count: 2,
            addresses: [at, at + 1],
            values: [lower, byte_at(memory, at as usize + 1)],
        },
    }
}

// SP after pops and pushes.
fn sp_after(sp: u16, pops: u8, pushes: u8) -> u32
    ensures { result ≡ sp + pops - pushes }
{
    let popped = sp as u32 + pops as u32;
    if popped < pushes as u32 {
        0
    } else {
        popped - pushes as u32
    }
}

// The record of an effect.
fn record_by(registers: Registers, memory: &[u8], e: Effect) -> Record
    ensures { result ≡ record_of registers memory.now (stored_at registers.sp (sp_after registers.sp e) e.place) }
{
    let sp = registers.sp;
    let place = e.place;
    match place {
        Place::Nowhere => without_bytes(registers),
        Place::Direct(a, w) => record_from(registers, memory, a as u32, w),
        Place::OnStack(f, w) => record_from(registers, memory, sp as u32 + f as u32, w),
        Place::Pushed(w) => record_from(registers, memory, sp_after(sp, e.pops, e.pushes) + 1, w),
    }
}

// How far an address lies above the first code byte.
fn offset_from(base: u16, pc: u32) -> usize
    ensures { result ≡ pc - base }
{
    if pc < base as u32 {
        0
    } else {
        (pc - base as u32) as usize
    }
}

// What stands at PC in an image that follows the rules: its code ends where it ends, so the length list need not be read. Of any other image a step makes
// nothing, whatever is found.
fn fetch(image: &[u8], pc: u32) -> Decoded
    ensures { ImageRules image.now → result ≡ instruction_in image.now (pc - base_of image.now) }
{
    let code = code_at(image);
    if image.len() < code {
        return Err(DecodeError::Truncated);
    }
    let size = image.len() - code;
    decode_at(
        version_of(image),
        &image[code..],
        offset_from(base_of(image), pc),
        size,
    )
}

// The record of the instruction at PC, as if it were made.
pub(crate) fn record_at(image: &[u8], registers: Registers, memory: &[u8]) -> Record
    ensures { ImageRules image.now → result ≡ record_of registers memory.now
        (stored_by registers.sp (instruction_in image.now (registers.pc - base_of image.now))) }
{
    match fetch(image, registers.pc) {
        Ok((i, _)) => record_by(registers, memory, effect_of(i)),
        Err(_) => without_bytes(registers),
    }
}

// The record of a step by its answer: only one that was made has overwritten anything.
pub(crate) fn record_of(answer: StepAnswer, registers: Registers, made: Record) -> Record
    ensures { (memory addresses : List ℕ) → (answer ≡ StepAnswer.Made → made ≡ record_of registers memory addresses) →
        result ≡ record_of registers memory (overwrites answer addresses) }
{
    match answer {
        StepAnswer::Made => made,
        StepAnswer::Finished => without_bytes(registers),
        StepAnswer::Trap(_) => without_bytes(registers),
        StepAnswer::Refused(_) => without_bytes(registers),
    }
}
