// Stores, each with its trap, 25, where the value was not stored.
ghost use Rattle.std.specs.Prelude.{◌≡◌, ℕ};
ghost use Rattle.stm8.specs.Effects.{place_of};
ghost use Rattle.stm8.specs.declared.Place.TheVariants.{Direct, OnStack};
ghost use Rattle.storage.specs.Storing.{bytes_from, memory_after, Stored};
ghost use Rattle.storage.specs.Traps.{number_of};

use crate::Trap;
use crate::traps::{direct_trap, stack_trap};
use image::Limits;
use numbers::words::{high, low, put_byte};
use stm8::{Operand, Width};

// A value's low byte, or both bytes, the high byte lower.
pub fn put(memory: &mut [u8], at: u32, w: Width, value: u16)
    ensures { memory.new ≡ memory_after memory.old (bytes_from at w) value }
{
    match w {
        Width::Byte => put_byte(memory, at as usize, low(value)),
        Width::Word => {
            let first = high(value);
            let second = low(value);
            put_byte(memory, at as usize, first);
            put_byte(memory, at as usize + 1, second);
        }
    }
}

// A store at an address.
pub fn put_direct(
    limits: Limits,
    memory: &mut [u8],
    a: u16,
    w: Width,
    value: u16,
) -> Result<(), Trap>
    ensures { (sp : ℕ) → Stored limits sp (Direct a w) value memory.old (number_of result) memory.new }
{
    direct_trap(limits, a, w)?;
    put(memory, a as u32, w, value);
    Ok(())
}

// A store at an offset from SP.
fn put_on_stack(
    limits: Limits,
    memory: &mut [u8],
    sp: u16,
    f: u8,
    w: Width,
    value: u16,
) -> Result<(), Trap>
    ensures { Stored limits sp (OnStack f w) value memory.old (number_of result) memory.new }
{
    stack_trap(limits, sp, f, w)?;
    put(memory, sp as u32 + f as u32, w, value);
    Ok(())
}

// A store to an operand. It is put in line: called, it takes a run's registers through memory, and a step 196 instructions for 179.
#[inline]
pub fn put_operand(
    limits: Limits,
    memory: &mut [u8],
    sp: u16,
    x: Operand,
    w: Width,
    value: u16,
) -> Result<(), Trap>
    ensures { Stored limits sp (place_of x w) value memory.old (number_of result) memory.new }
{
    match x {
        Operand::Short(a) => put_direct(limits, memory, a as u16, w, value),
        Operand::Long(a) => put_direct(limits, memory, a, w, value),
        Operand::Sp(f) => put_on_stack(limits, memory, sp, f, w, value),
        // No place in memory.
        _ => Ok(()),
    }
}
