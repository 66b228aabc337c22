// Registers and memory: as bytes, in the form in which recorded steps and written cases give them, and as text, in which cases print them.
#![tactic(auto)]

ghost use Rattle.std.specs.Prelude.{◌≡◌, ◌≤◌};
ghost use Rattle.std.proofs.lemmas.List.Edits.{sets};
ghost use Rattle.notation.specs.Notation.{byte_digits, word_digits};
ghost use Rattle.vectors.specs.Bytes.{long_at, registers_of, with_cells};
ghost use Rattle.vectors.specs.Text.{registers_text};

use machine::Registers;
use notation::hex_digit;
use numbers::words::{byte_at, high, low, put_byte, word_at};

// A number of 32 bits, high byte first; a byte past the end counts as 0.
pub fn long_at(bytes: &[u8], at: usize) -> u32
    ensures { result ≡ long_at bytes.now at }
{
    if at < bytes.len() {
        word_at(bytes, at) as u32 * 65536 + word_at(bytes, at + 2) as u32
    } else {
        0
    }
}

// Registers from eleven bytes: A, X, Y, CC, SP and PC, high byte first.
pub fn registers_of(bytes: &[u8]) -> Registers
    ensures { result ≡ registers_of bytes.now }
{
    Registers {
        a: byte_at(bytes, 0),
        x: word_at(bytes, 1),
        y: word_at(bytes, 3),
        cc: byte_at(bytes, 5),
        sp: word_at(bytes, 6),
        pc: byte_at(bytes, 8) as u32 * 65536 + word_at(bytes, 9) as u32,
    }
}

// Puts cells into memory, one after the other: an address, high byte first, and the byte there.
pub fn put_cells(memory: &mut [u8], cells: &[u8])
    ensures { memory.new ≡ with_cells memory.old cells.now }
{
    let mut at = 0;
    while at + 2 < cells.len() {
        let address = word_at(cells, at) as usize;
        put_byte(memory, address, byte_at(cells, at + 2));
        at += 3;
    }
}

// The two hexadecimal digits of a byte.
pub fn byte_text(n: u8) -> [u8; 2]
    ensures { result ≡ byte_digits n }
{
    [hex_digit(n / 16), hex_digit(n)]
}

// The four of a word.
pub fn word_text(w: u16) -> [u8; 4]
    ensures { result ≡ word_digits w }
{
    let h = high(w);
    let l = low(w);
    [
        hex_digit(h / 16),
        hex_digit(h),
        hex_digit(l / 16),
        hex_digit(l),
    ]
}

fn put_byte_digits(text: &mut [u8], at: usize, n: u8)
    requires { at ≤ 40 }
    ensures { text.new ≡ sets text.old at (byte_digits n) }
{
    put_byte(text, at, hex_digit(n / 16));
    put_byte(text, at + 1, hex_digit(n));
}

fn put_word_digits(text: &mut [u8], at: usize, w: u16)
    requires { at ≤ 38 }
    ensures { text.new ≡ sets text.old at (word_digits w) }
{
    put_byte_digits(text, at, high(w));
    put_byte_digits(text, at + 2, low(w));
}

// The registers by name; PC by the 24 bits that document 01 gives it.
pub fn registers_text(r: Registers) -> [u8; 42]
    ensures { result ≡ registers_text r }
{
    let mut text = [0u8; 42];
    slices::copy(b"A .. X .... Y .... CC .. SP .... PC ......", &mut text);
    put_byte_digits(&mut text, 2, r.a);
    put_word_digits(&mut text, 7, r.x);
    put_word_digits(&mut text, 14, r.y);
    put_byte_digits(&mut text, 22, r.cc);
    put_word_digits(&mut text, 28, r.sp);
    put_byte_digits(&mut text, 36, (r.pc / 65536 % 256) as u8);
    put_word_digits(&mut text, 38, (r.pc % 65536) as u16);
    text
}
