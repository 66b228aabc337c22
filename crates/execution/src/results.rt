// Where a result goes.
ghost use Rattle.std.specs.Prelude.{◌≡◌};
ghost use Rattle.execution.specs.Computing.{unchanged as unchanged_of, with_a, with_index, exchanged as exchanged_of};
ghost use Rattle.execution.specs.Computing.{storing as storing_of, testing as testing_of, into_operand};
ghost use Rattle.execution.specs.Internal.{word_keeping_flags};

use crate::{Computed, Registers};
use arithmetic::Flagged;
use stm8::{Operand, Register};

impl Registers {
    pub(crate) fn unchanged(self) -> Computed
        ensures { result ≡ unchanged_of self }
    {
        Computed {
            a: self.a,
            x: self.x,
            y: self.y,
            cc: self.cc,
            stored: 0,
            taken: false,
        }
    }

    pub(crate) fn with_a(self, res: Flagged<u8>) -> Computed
        ensures { result ≡ with_a self res }
    {
        Computed {
            a: res.value,
            cc: res.cc,
            ..self.unchanged()
        }
    }

    pub(crate) fn with_index(self, r: Register, res: Flagged<u16>) -> Computed
        ensures { result ≡ with_index self r res }
    {
        match r {
            Register::X => Computed {
                x: res.value,
                cc: res.cc,
                ..self.unchanged()
            },
            Register::Y => Computed {
                y: res.value,
                cc: res.cc,
                ..self.unchanged()
            },
        }
    }

    // A word that touches no flag.
    pub(crate) fn with_word(self, r: Register, value: u16) -> Computed
        ensures { result ≡ with_index self r (word_keeping_flags self value) }
    {
        self.with_index(r, Flagged { value, cc: self.cc })
    }

    pub(crate) fn exchanged(self) -> Computed
        ensures { result ≡ exchanged_of self }
    {
        Computed {
            x: self.y,
            y: self.x,
            ..self.unchanged()
        }
    }

    pub(crate) fn storing(self, value: u16, cc: u8) -> Computed
        ensures { result ≡ storing_of self value cc }
    {
        Computed {
            cc,
            stored: value,
            ..self.unchanged()
        }
    }

    // A byte that touches no flag.
    pub(crate) fn storing_byte(self, value: u8) -> Computed
        ensures { result ≡ storing_of self value self.cc }
    {
        self.storing(value as u16, self.cc)
    }

    pub(crate) fn testing(self, taken: bool, cc: u8) -> Computed
        ensures { result ≡ testing_of self taken cc }
    {
        Computed {
            cc,
            taken,
            ..self.unchanged()
        }
    }

    // Into A, or to the place that the effect names.
    pub(crate) fn into_operand(self, x: Operand, res: Flagged<u8>) -> Computed
        ensures { result ≡ into_operand self x res }
    {
        match x {
            Operand::Accumulator => self.with_a(res),
            _ => self.storing(res.value as u16, res.cc),
        }
    }
}
