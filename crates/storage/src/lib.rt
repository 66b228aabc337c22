// What an instruction reads and stores, and the traps of SP, of stores and of calls.
#![tactic(auto)]

mod reading;
mod storing;
mod traps;

ghost use Rattle.std.specs.Prelude.{◌≡◌};
ghost use Rattle.storage.specs.Traps.{trap_number};

pub use reading::{read_byte, read_word};
pub use storing::{put, put_direct, put_operand};
pub use traps::{call_trap, move_trap};

// Why a step is not made.
#[derive(Clone, Copy, Debug, PartialEq, Eq)]
pub enum Trap {
    // 21, SP is not from stack low - 1 to stack high.
    Sp,
    // 22, PC is not in the code, the bytes run out, or a call's next address is 10000.
    Pc,
    // 23, outside the set.
    Outside,
    // 24, SP would leave its range.
    Stack,
    // 25, a store outside the grants, or outside SP + 1 to stack high.
    Store,
}

impl From<Trap> for u8 {
    ghost from_gives = { λ trap number. number ≡ trap_number trap };

    fn from(trap: Trap) -> u8 {
        match trap {
            Trap::Sp => 21,
            Trap::Pc => 22,
            Trap::Outside => 23,
            Trap::Stack => 24,
            Trap::Store => 25,
        }
    }
}
