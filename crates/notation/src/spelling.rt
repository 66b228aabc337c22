// What a line shows, in its letters.
#![tactic(auto, using(crate::proofs::Growing::appended_twice, crate::proofs::Growing::appended_none))]

ghost use Rattle.std.specs.Prelude.{◌≡◌, ◌≤◌, ℕ, List, take};
ghost use Rattle.numbers.specs.Ascii.{ascii};
ghost use Rattle.notation.specs.Notation.{bit_position, half_text, offset_text, operand_text, register_text, word_text};
ghost use Rattle.notation.specs.Writing.{appended};

use crate::text::{hex_digit, put, put_all, put_byte, put_word};
use stm8::{Half, Offset, Operand, Register};

// What has letters in the notation. It writes them in the cells of a text, past those that are there, and gives how many there are then. Callers
// of this crate name the types alone: the trait is not exported, and so nothing with a `requires` is.
pub trait Spelled<const N: usize>: Copy {
    ghost spelling: { Self → List ℕ };

    fn spell(self, cells: &mut [u8; N], length: usize) -> usize
        requires { length ≤ N }
        ensures within { result ≤ N }
        ensures written { take result cells.new ≡ appended N (take length cells.old) (spelling self) };
}

/// The letter A.
#[derive(Clone, Copy)]
pub struct Accumulator;

impl<const N: usize> Spelled<N> for Accumulator {
    ghost spelling = { λ a. ascii "A" };

    fn spell(self, cells: &mut [u8; N], length: usize) -> usize {
        put(cells, length, b'A')
    }
}

/// The letters SP.
#[derive(Clone, Copy)]
pub struct StackPointer;

impl<const N: usize> Spelled<N> for StackPointer {
    ghost spelling = { λ s. ascii "SP" };

    fn spell(self, cells: &mut [u8; N], length: usize) -> usize {
        put_all(cells, length, b"SP")
    }
}

impl<const N: usize> Spelled<N> for Register {
    ghost spelling = { register_text };

    fn spell(self, cells: &mut [u8; N], length: usize) -> usize {
        let letter = match self {
            Register::X => b'X',
            Register::Y => b'Y',
        };
        put(cells, length, letter)
    }
}

impl<const N: usize> Spelled<N> for (Register, Half) {
    ghost spelling = { λ half. half_text half.0 half.1 };

    fn spell(self, cells: &mut [u8; N], length: usize) -> usize {
        let length = self.0.spell(cells, length);
        let letter = match self.1 {
            Half::Low => b'L',
            Half::High => b'H',
        };
        put(cells, length, letter)
    }
}

/// The position of a bit.
#[derive(Clone, Copy)]
pub struct Position(pub u8);

impl<const N: usize> Spelled<N> for Position {
    ghost spelling = { λ position. bit_position position.0 };

    fn spell(self, cells: &mut [u8; N], length: usize) -> usize {
        let length = put(cells, length, b'#');
        put(cells, length, hex_digit(self.0))
    }
}

/// An address, or an offset of a word, in four digits.
#[derive(Clone, Copy)]
pub struct Address(pub u16);

impl<const N: usize> Spelled<N> for Address {
    ghost spelling = { λ address. word_text address.0 };

    fn spell(self, cells: &mut [u8; N], length: usize) -> usize {
        let length = put(cells, length, b'$');
        put_word(cells, length, self.0)
    }
}

// An offset in front of its register.
impl<const N: usize> Spelled<N> for Offset {
    ghost spelling = { offset_text };

    fn spell(self, cells: &mut [u8; N], length: usize) -> usize {
        match self {
            Offset::Zero => length,
            Offset::Byte(n) => {
                let length = put(cells, length, b'$');
                let length = put_byte(cells, length, n);
                put(cells, length, b',')
            }
            Offset::Word(w) => {
                let length = Address(w).spell(cells, length);
                put(cells, length, b',')
            }
        }
    }
}

impl<const N: usize> Spelled<N> for Operand {
    ghost spelling = { operand_text };

    fn spell(self, cells: &mut [u8; N], length: usize) -> usize {
        match self {
            Operand::Accumulator => Accumulator.spell(cells, length),
            Operand::Immediate(n) => {
                let length = put_all(cells, length, b"#$");
                put_byte(cells, length, n)
            }
            Operand::ImmediateWord(w) => {
                let length = put_all(cells, length, b"#$");
                put_word(cells, length, w)
            }
            Operand::Short(a) => {
                let length = put(cells, length, b'$');
                put_byte(cells, length, a)
            }
            Operand::Long(a) => Address(a).spell(cells, length),
            Operand::Indexed(r, f) => {
                let length = put(cells, length, b'(');
                let length = f.spell(cells, length);
                let length = r.spell(cells, length);
                put(cells, length, b')')
            }
            Operand::Sp(n) => {
                let length = put_all(cells, length, b"($");
                let length = put_byte(cells, length, n);
                put_all(cells, length, b",SP)")
            }
        }
    }
}
