// A text that grows at its end, in place.
#![tactic(auto, using(crate::proofs::Growing::appended_twice, crate::proofs::Growing::appended_none))]

ghost use Rattle.std.specs.Prelude.{◌≡◌, ℕ, ◌≤◌, List, [], ◌∷◌, length, take};
ghost use Rattle.notation.specs.Notation.{digit, byte_digits, word_digits};
ghost use Rattle.notation.specs.Writing.{appended};

use numbers::words;
use std::marker::Model;

/// At most N letters. What is written after them is left out.
#[derive(Drop)]
pub struct Text<const N: usize> {
    pub(crate) letters: [u8; N],
    pub(crate) length: usize,
}

// Clauses see the letters.
impl<const N: usize> Model for Text<N> {
    ghost Value = { List ℕ };

    ghost view = { λ t. take t.length t.letters };

    ghost invariant = { λ t. t.length ≤ N };
}

impl<const N: usize> Text<N> {
    pub fn new() -> Self
        ensures { result ≡ [] }
    {
        Text {
            letters: [0; N],
            length: 0,
        }
    }

    pub fn as_bytes(&self) -> &[u8]
        ensures letters { result.now ≡ self.now }
        ensures within { length result.now ≤ N }
    {
        &self.letters[..self.length]
    }

    pub fn push(&mut self, letter: u8)
        ensures { self.new ≡ appended N self.old (letter ∷ []) }
    {
        self.length = put(&mut self.letters, self.length, letter);
    }

    pub fn push_all(&mut self, letters: &[u8])
        ensures { self.new ≡ appended N self.old letters.now }
    {
        self.length = put_all(&mut self.letters, self.length, letters);
    }

    /// The two hexadecimal digits of a byte.
    pub fn push_byte(&mut self, n: u8)
        ensures { self.new ≡ appended N self.old (byte_digits n) }
    {
        self.length = put_byte(&mut self.letters, self.length, n);
    }

    /// The four hexadecimal digits of a word.
    pub fn push_word(&mut self, w: u16)
        ensures { self.new ≡ appended N self.old (word_digits w) }
    {
        self.length = put_word(&mut self.letters, self.length, w);
    }
}

// Writing in the cells of a text, past the letters that are there, gives how many there are then. The number goes from call to call by itself: beside the
// cells, it would be written and read again at each letter, since a letter might for all the compiler knows be written over it.
pub(crate) fn put<const N: usize>(cells: &mut [u8; N], length: usize, letter: u8) -> usize
    requires { length ≤ N }
    ensures within { result ≤ N }
    ensures written { take result cells.new ≡ appended N (take length cells.old) (letter ∷ []) }
{
    if length < N {
        cells[length] = letter;
        length + 1
    } else {
        length
    }
}

pub(crate) fn put_all<const N: usize>(cells: &mut [u8; N], length: usize, letters: &[u8]) -> usize
    requires { length ≤ N }
    ensures within { result ≤ N }
    ensures written { take result cells.new ≡ appended N (take length cells.old) letters.now }
{
    let mut end = length;
    for &letter in letters {
        end = put(cells, end, letter);
    }
    end
}

const LONGEST_NAME: usize = 5;

// The letters of a name. The names here have five at most, and a loop of so many rounds is written out by the compiler: in the mean over the op-codes,
// decoding takes 258 instructions for 273. What a longer one has more comes after them.
pub(crate) fn put_name<const N: usize>(cells: &mut [u8; N], length: usize, name: &str) -> usize
    requires { length ≤ N }
    ensures within { result ≤ N }
    ensures written { take result cells.new ≡ appended N (take length cells.old) name.now }
{
    let letters = name.as_bytes();
    let mut end = length;
    for k in 0..LONGEST_NAME {
        if k < letters.len() {
            end = put(cells, end, letters[k]);
        }
    }
    if letters.len() <= LONGEST_NAME {
        end
    } else {
        put_all(cells, end, &letters[LONGEST_NAME..])
    }
}

pub(crate) fn put_byte<const N: usize>(cells: &mut [u8; N], length: usize, n: u8) -> usize
    requires { length ≤ N }
    ensures within { result ≤ N }
    ensures written { take result cells.new ≡ appended N (take length cells.old) (byte_digits n) }
{
    let length = put(cells, length, hex_digit(n / 16));
    put(cells, length, hex_digit(n))
}

pub(crate) fn put_word<const N: usize>(cells: &mut [u8; N], length: usize, w: u16) -> usize
    requires { length ≤ N }
    ensures within { result ≤ N }
    ensures written { take result cells.new ≡ appended N (take length cells.old) (word_digits w) }
{
    let length = put_byte(cells, length, words::high(w));
    put_byte(cells, length, words::low(w))
}

// The last hexadecimal digit of a byte.
#[tactic(auto, unfolding(crate::specs::Notation::digit))]
pub fn hex_digit(n: u8) -> u8
    ensures { result ≡ digit n }
{
    let digits = b"0123456789ABCDEF";
    digits[(n % 16) as usize]
}
