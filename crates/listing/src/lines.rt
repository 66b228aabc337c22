// The lines of a listing.
ghost use Rattle.std.specs.Prelude.{◌≡◌, ◌+◌, ◌*◌, ◌≤◌, ◌<◌, length, get_or};
ghost use mathlib.Core.List.{◌++◌, flat_map};
ghost use Rattle.numbers.specs.Ascii.{ascii};
ghost use Rattle.numbers.specs.Computed.{counting};
ghost use Rattle.image.specs.Image.{base_of, size_of};
ghost use Rattle.image.specs.Rules.{ImageRules};
ghost use Rattle.code.specs.Code.{instruction_in};
ghost use Rattle.notation.specs.Notation.{word_digits};
ghost use Rattle.listing.specs.Decimal.{decimal};
ghost use Rattle.listing.specs.Listing.{line_feed, verdict_line, text_at, line_at};
ghost use Rattle.listing.specs.Internal.{Wrote};

use crate::writing::{push, push_bytes, push_decimal, push_text, push_word};
use code::decode_at;
use image::{base_of, code_at, version_of};
use rules::Verdict;

// A word and two numbers.
fn write_figures(buffer: &mut [u8], word: &[u8], a: u16, b: u16) -> usize
    requires { length word.now + 12 ≤ length buffer.old }
    ensures { Wrote 0 buffer.old (word.now ++ decimal a ++ ascii " " ++ decimal b ++ line_feed) result buffer.new }
{
    let at = push_bytes(buffer, 0, word);
    let at = push_decimal(buffer, at, a);
    let at = push(buffer, at, b' ');
    let at = push_decimal(buffer, at, b);
    push(buffer, at, b'\n')
}

// Line one, at the buffer's start.
pub(crate) fn write_verdict(buffer: &mut [u8], v: Verdict) -> usize
    requires { 21 ≤ length buffer.old }
    ensures { Wrote 0 buffer.old (verdict_line v) result buffer.new }
{
    match v {
        Ok(accepted) => write_figures(buffer, b"accepted ", accepted.need, accepted.count),
        Err(refusal) => write_figures(
            buffer,
            b"refused ",
            u16::from(refusal.number),
            refusal.offset,
        ),
    }
}

// Address and depth of a start, each with a space after it.
fn push_front(buffer: &mut [u8], at: usize, address: u16, depth: u16) -> usize
    requires { at + 11 ≤ length buffer.old }
    ensures { Wrote at buffer.old (word_digits address ++ ascii " " ++ decimal depth ++ ascii " ") result buffer.new }
{
    let at = push_word(buffer, at, address);
    let at = push(buffer, at, b' ');
    let at = push_decimal(buffer, at, depth);
    push(buffer, at, b' ')
}

// The text of what stands at an offset.
fn push_decoded(
    buffer: &mut [u8],
    at: usize,
    image: &[u8],
    size: usize,
    offset: usize,
    address: u16,
) -> usize
    requires { ImageRules image.now × (size ≡ size_of image.now) × (at + 23 ≤ length buffer.old) }
    ensures { Wrote at buffer.old (text_at address (instruction_in image.now offset)) result buffer.new }
{
    let code = code_at(image);
    let version = version_of(image);
    match decode_at(version, &image[code..], offset, size) {
        Ok((i, _)) => push_text(buffer, at, address, i),
        Err(_) => at,
    }
}

// The mark at an offset, 0 past the end.
fn mark_at(marks: &[u16], offset: usize) -> u16
    ensures { result ≡ get_or marks.now offset 0 }
{
    marks.get(offset).copied().unwrap_or(0)
}

// The line of a code byte, where it is a start.
fn push_line(
    buffer: &mut [u8],
    at: usize,
    image: &[u8],
    size: usize,
    marks: &[u16],
    offset: usize,
) -> usize
    requires image_rules { ImageRules image.now × (size ≡ size_of image.now) }
    requires offset_bound { (base_of image.now + offset < 0x10000) × (at + 35 ≤ length buffer.old) }
    ensures { Wrote at buffer.old (line_at image.now marks.now offset) result buffer.new }
{
    let mark = mark_at(marks, offset);
    if mark == 0 {
        return at;
    }
    let address = base_of(image) + offset as u16;
    let at = push_front(buffer, at, address, mark - 1);
    let at = push_decoded(buffer, at, image, size, offset, address);
    push(buffer, at, b'\n')
}

// The lines of all starts, rising.
pub(crate) fn push_starts(buffer: &mut [u8], at: usize, image: &[u8], marks: &[u16]) -> usize
    requires { ImageRules image.now × (at + 35 * size_of image.now ≤ length buffer.old) }
    ensures { Wrote at buffer.old
        (flat_map (line_at image.now marks.now) (counting (size_of image.now) 0)) result buffer.new }
{
    let size = image.len() - code_at(image);
    let mut end = at;
    for offset in 0..size {
        end = push_line(buffer, end, image, size, marks, offset);
    }
    end
}
