// A line: a name, and what stands after it.
#![tactic(auto, using(crate::proofs::Growing::appended_twice, crate::proofs::Growing::appended_none))]

ghost use Rattle.std.specs.Prelude.{◌≡◌, ◌≤◌, [], ◌∷◌, ◌++◌, map, take};
ghost use Rattle.numbers.specs.Ascii.{ascii};
ghost use Rattle.notation.specs.Notation.{line};
ghost use Rattle.notation.specs.Writing.{appended, shown_text};

use crate::LONGEST;
use crate::spelling::{self, Spelled};
use crate::text::{Text, put, put_name};
use stm8::{Half, Operand, Register};

/// What stands after a name.
#[derive(Clone, Copy)]
pub enum Shown {
    Operand(Operand),
    Register(Register),
    Half(Register, Half),
    StackPointer,
    Position(u8),
}

impl<const N: usize> Spelled<N> for Shown {
    ghost spelling = { shown_text };

    fn spell(self, cells: &mut [u8; N], length: usize) -> usize {
        match self {
            Shown::Operand(x) => x.spell(cells, length),
            Shown::Register(r) => r.spell(cells, length),
            Shown::Half(r, h) => (r, h).spell(cells, length),
            Shown::StackPointer => spelling::StackPointer.spell(cells, length),
            Shown::Position(n) => spelling::Position(n).spell(cells, length),
        }
    }
}

/// A name and what stands after it: a space before the first, a comma before each other.
pub fn line(name: &str, operands: &[Shown]) -> Text<LONGEST>
    ensures { result ≡ appended LONGEST [] (line name.now (map shown_text operands.now)) }
{
    let mut text = Text::new();
    text.length = put_line(&mut text.letters, 0, name, operands);
    text
}

// The same at the end of a text, where it is known what stands after the name: each has its type, and no list of it is put together to be taken apart
// again. With something after the name they are put in line: called, decoding a relative jump takes 304 instructions for 266.
impl<const N: usize> Text<N> {
    /// A name alone.
    pub fn push_name(&mut self, name: &str)
        ensures { self.new ≡ appended N self.old (line name.now []) }
    {
        self.length = put_name(&mut self.letters, self.length, name);
    }

    /// A name with one part after it.
    #[inline]
    pub fn push_with_one<P: Spelled<N>>(&mut self, name: &str, x: P)
        ensures { self.new ≡ appended N self.old (line name.now (P.spelling x ∷ [])) }
    {
        self.length = put_with_one(&mut self.letters, self.length, name, x);
    }

    /// A name with two parts after it.
    #[inline]
    pub fn push_with_two<P: Spelled<N>, Q: Spelled<N>>(&mut self, name: &str, x: P, y: Q)
        ensures { self.new ≡ appended N self.old (line name.now (P.spelling x ∷ Q.spelling y ∷ [])) }
    {
        let end = put_with_one(&mut self.letters, self.length, name, x);
        self.length = put_another(&mut self.letters, end, y);
    }

    /// A name with three parts after it.
    #[inline]
    pub fn push_with_three<P: Spelled<N>, Q: Spelled<N>, R: Spelled<N>>(
        &mut self,
        name: &str,
        x: P,
        y: Q,
        z: R,
    )
        ensures { self.new ≡ appended N self.old (line name.now (P.spelling x ∷ Q.spelling y ∷ R.spelling z ∷ [])) }
    {
        let end = put_with_one(&mut self.letters, self.length, name, x);
        let end = put_another(&mut self.letters, end, y);
        self.length = put_another(&mut self.letters, end, z);
    }
}

fn put_with_one<const N: usize, P: Spelled<N>>(
    cells: &mut [u8; N],
    length: usize,
    name: &str,
    x: P,
) -> usize
    requires { length ≤ N }
    ensures within { result ≤ N }
    ensures written { take result cells.new ≡ appended N (take length cells.old) (line name.now (P.spelling x ∷ [])) }
{
    let end = put_name(cells, length, name);
    let end = put(cells, end, b' ');
    x.spell(cells, end)
}

fn put_another<const N: usize, P: Spelled<N>>(cells: &mut [u8; N], length: usize, x: P) -> usize
    requires { length ≤ N }
    ensures within { result ≤ N }
    ensures written { take result cells.new ≡ appended N (take length cells.old) (ascii "," ++ P.spelling x) }
{
    let end = put(cells, length, b',');
    x.spell(cells, end)
}

fn put_line<const N: usize>(
    cells: &mut [u8; N],
    length: usize,
    name: &str,
    operands: &[Shown],
) -> usize
    requires { length ≤ N }
    ensures within { result ≤ N }
    ensures written { take result cells.new ≡ appended N (take length cells.old) (line name.now (map shown_text operands.now)) }
{
    let mut end = put_name(cells, length, name);
    let mut separator = b' ';
    for &operand in operands {
        end = put(cells, end, separator);
        end = operand.spell(cells, end);
        separator = b',';
    }
    end
}
