// The traps before an instruction is looked at, 21 and 22.
ghost use Rattle.std.specs.Prelude.{◌≡◌, ◌+◌, ◌≤◌};
ghost use Rattle.numbers.specs.Checks.{first, under};
ghost use Rattle.storage.specs.Storing.{sp_trap};
ghost use Rattle.storage.specs.Traps.{number_of};

use image::{Layout, Limits};
use storage::Trap;

pub(crate) fn sp_trap(limits: Limits, sp: u16) -> Result<(), Trap>
    ensures { number_of result ≡ sp_trap limits sp }
{
    let stack = limits.stack;
    if (sp as u32 + 1) < stack.low as u32 || sp > stack.high {
        return Err(Trap::Sp);
    }
    Ok(())
}

pub(crate) fn pc_trap(layout: Layout, pc: u32) -> Result<(), Trap>
    requires { layout.size ≤ 4096 }
    ensures { number_of result ≡ first (under pc layout.base 22) (under (layout.base + layout.size) (pc + 1) 22) }
{
    let base = layout.base as usize;
    if (base..base + layout.size).contains(&(pc as usize)) {
        Ok(())
    } else {
        Err(Trap::Pc)
    }
}
