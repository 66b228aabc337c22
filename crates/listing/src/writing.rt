// Writing to a buffer from an index on. Each function answers the index past what it wrote. The bytes go to where they stay: put together as a text and
// copied, the lines of a listing take up to 1.6 times as long.
ghost use Rattle.std.specs.Prelude.{[], ◌∷◌, ◌+◌, ◌≤◌, ◌<◌, length};
ghost use Rattle.notation.specs.Notation.{byte_digits, word_digits};
ghost use Rattle.disassembly.specs.Text.{text as text_of};
ghost use Rattle.listing.specs.Decimal.{leading as leading_of, last_digit, decimal as decimal_of};
ghost use Rattle.listing.specs.Internal.{Wrote};

use disassembly::disassemble;
use notation::hex_digit;
use numbers::words;
use stm8::Instruction;

pub(crate) fn push(buffer: &mut [u8], at: usize, b: u8) -> usize
    requires { at < length buffer.old }
    ensures { Wrote at buffer.old (b ∷ []) result buffer.new }
{
    buffer[at] = b;
    at + 1
}

pub(crate) fn push_bytes(buffer: &mut [u8], at: usize, source: &[u8]) -> usize
    requires { at + length source.now ≤ length buffer.old }
    ensures { Wrote at buffer.old source.now result buffer.new }
{
    let end = at + source.len();
    buffer[at..end].copy_from_slice(source);
    end
}

// The two hexadecimal digits of a byte.
fn push_hex(buffer: &mut [u8], at: usize, n: u8) -> usize
    requires { at + 2 ≤ length buffer.old }
    ensures { Wrote at buffer.old (byte_digits n) result buffer.new }
{
    let next = push(buffer, at, hex_digit(n / 16));
    push(buffer, next, hex_digit(n))
}

// The four hexadecimal digits of a word.
pub(crate) fn push_word(buffer: &mut [u8], at: usize, w: u16) -> usize
    requires { at + 4 ≤ length buffer.old }
    ensures { Wrote at buffer.old (word_digits w) result buffer.new }
{
    let next = push_hex(buffer, at, words::high(w));
    push_hex(buffer, next, words::low(w))
}

// A number's last decimal digit.
fn push_digit(buffer: &mut [u8], at: usize, n: u16) -> usize
    requires { at < length buffer.old }
    ensures { Wrote at buffer.old (last_digit n) result buffer.new }
{
    push(buffer, at, b'0' + (n % 10) as u8)
}

// The same in front of other digits, where zeros are left out.
fn push_leading(buffer: &mut [u8], at: usize, n: u16) -> usize
    requires { at < length buffer.old }
    ensures { Wrote at buffer.old (leading_of n) result buffer.new }
{
    if n == 0 {
        return at;
    }
    push_digit(buffer, at, n)
}

pub(crate) fn push_decimal(buffer: &mut [u8], at: usize, n: u16) -> usize
    requires { at + 5 ≤ length buffer.old }
    ensures { Wrote at buffer.old (decimal_of n) result buffer.new }
{
    let at = push_leading(buffer, at, n / 10000);
    let at = push_leading(buffer, at, n / 1000);
    let at = push_leading(buffer, at, n / 100);
    let at = push_leading(buffer, at, n / 10);
    push_digit(buffer, at, n)
}

// The text of the instruction at an address.
pub(crate) fn push_text(buffer: &mut [u8], at: usize, address: u16, i: Instruction) -> usize
    requires { at + 23 ≤ length buffer.old }
    ensures { Wrote at buffer.old (text_of address i) result buffer.new }
{
    match disassemble(i, address, &mut buffer[at..]) {
        Ok(n) => at + n,
        Err(_) => at,
    }
}
