// The operands of an instruction: registers, offsets, and the byte or the word that an operand stands for.
ghost use Rattle.std.specs.Prelude.{◌≡◌};
ghost use Rattle.execution.specs.Operands.{index_of, offset_of, address_of, byte_of, word_of};

use crate::Registers;
use stm8::{Offset, Operand, Register};
use storage::{read_byte, read_word};

pub fn offset_of(f: Offset) -> u16
    ensures { result ≡ offset_of f }
{
    match f {
        Offset::Zero => 0,
        Offset::Byte(n) => n as u16,
        Offset::Word(w) => w,
    }
}

impl Registers {
    pub(crate) fn index(self, r: Register) -> u16
        ensures { result ≡ index_of self r }
    {
        match r {
            Register::X => self.x,
            Register::Y => self.y,
        }
    }

    // Where an operand lies in memory, if it does.
    fn address_of(self, x: Operand) -> Option<u32>
        ensures { result ≡ address_of self x }
    {
        match x {
            Operand::Short(a) => Some(a as u32),
            Operand::Long(a) => Some(a as u32),
            Operand::Indexed(r, f) => Some(self.index(r) as u32 + offset_of(f) as u32),
            Operand::Sp(f) => Some(self.sp as u32 + f as u32),
            Operand::Accumulator | Operand::Immediate(_) | Operand::ImmediateWord(_) => None,
        }
    }

    // One call reads for every addressing form, here and below: so the functions are small enough to be put in line.
    pub(crate) fn operand_byte(self, image: &[u8], memory: &[u8], x: Operand) -> u8
        ensures { result ≡ byte_of image.now memory.now self x }
    {
        match x {
            Operand::Accumulator => self.a,
            Operand::Immediate(n) => n,
            _ => match self.address_of(x) {
                Some(address) => read_byte(image, memory, address),
                None => 0,
            },
        }
    }

    pub(crate) fn operand_word(self, image: &[u8], memory: &[u8], x: Operand) -> u16
        ensures { result ≡ word_of image.now memory.now self x }
    {
        match x {
            Operand::ImmediateWord(w) => w,
            _ => match self.address_of(x) {
                Some(address) => read_word(image, memory, address),
                None => 0,
            },
        }
    }
}
