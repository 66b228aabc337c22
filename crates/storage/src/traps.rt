// When the traps of an instruction, 24, 25 and 22, are due.
ghost use Rattle.std.specs.Prelude.{◌≡◌, ℕ, ltb};
ghost use Rattle.numbers.specs.Checks.{unless};
ghost use Rattle.stm8.specs.declared.Place.{Place};
ghost use Rattle.stm8.specs.declared.Place.TheVariants.{Direct, OnStack};
ghost use Rattle.stm8.specs.declared.Flow.{Flow};
ghost use Rattle.storage.specs.Storing.{move_trap, store_trap};
ghost use Rattle.storage.specs.Traps.{number_of};

use crate::Trap;
use effects::bytes_wide;
use image::{Limits, granted};
use stm8::Width;

pub fn move_trap(limits: Limits, sp: u16, pops: u8, pushes: u8) -> Result<(), Trap>
    ensures { (place : Place) (flow : Flow) →
        number_of result ≡ move_trap limits sp (record { pops = pops; pushes = pushes; place = place; flow = flow }) }
{
    let stack = limits.stack;
    let popped = sp as usize + pops as usize;
    if popped > stack.high as usize || popped + 1 < stack.low as usize + pushes as usize {
        return Err(Trap::Stack);
    }
    Ok(())
}

pub(crate) fn direct_trap(limits: Limits, address: u16, w: Width) -> Result<(), Trap>
    ensures { (sp : ℕ) → number_of result ≡ store_trap limits sp (Direct address w) }
{
    if granted(limits, address, bytes_wide(w) as u8) {
        Ok(())
    } else {
        Err(Trap::Store)
    }
}

pub(crate) fn stack_trap(limits: Limits, sp: u16, offset: u8, w: Width) -> Result<(), Trap>
    ensures { number_of result ≡ store_trap limits sp (OnStack offset w) }
{
    let end = sp as usize + offset as usize + bytes_wide(w);
    if offset == 0 || end > limits.stack.high as usize + 1 {
        return Err(Trap::Store);
    }
    Ok(())
}

// A call whose next address is 10000 cannot push it.
pub fn call_trap(next: u32) -> Result<(), Trap>
    ensures { number_of result ≡ unless (ltb next 0x10000) 22 }
{
    if next < 0x10000 {
        Ok(())
    } else {
        Err(Trap::Pc)
    }
}
