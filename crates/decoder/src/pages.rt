// The bytes on the three op-code pages, by the length of their op-code. Whether the map has the op-code is not asked: where it has not, some
// instruction or other is found.
ghost use Rattle.std.specs.Prelude.{◌≡◌, ◌+◌, ◌*◌, ◌/◌, ◌%◌, ◌≤◌};
ghost use Rattle.numbers.specs.Words.{word_at};
ghost use Rattle.stm8.specs.OpcodeMap.{Plain, After72, After90};
ghost use Rattle.stm8.specs.declared.Instruction.{Instruction};
ghost use Rattle.decoder.specs.Parts.{decoded_or};

use numbers::words::{byte_at, high, word, word_at};
use opcodes::{after_72_instruction, after_90_instruction, plain_instruction};
use stm8::{DecodeError, Decoded};

// Two words as one number, and each of them.
fn joined(first: u16, second: u16) -> u32
    ensures { result ≡ first * 0x10000 + second }
{
    first as u32 * 0x10000 + second as u32
}

fn first_word(both: u32) -> u16
    ensures { result ≡ both / 0x10000 }
{
    (both / 0x10000) as u16
}

fn second_word(both: u32) -> u16
    ensures { result ≡ both % 0x10000 }
{
    (both % 0x10000) as u16
}

// The two words from an index on. Where all four bytes are there, one test tells; a byte past the end counts as 0.
fn two_words(bytes: &[u8], at: usize) -> u32
    requires { at ≤ 2 }
    ensures { result ≡ word_at bytes.now at * 0x10000 + word_at bytes.now (at + 2) }
{
    if at + 3 < bytes.len() {
        joined(
            word(bytes[at], bytes[at + 1]),
            word(bytes[at + 2], bytes[at + 3]),
        )
    } else {
        joined(word_at(bytes, at), word_at(bytes, at + 2))
    }
}

// The bytes on the page without pre-code, by the length of their op-code.
pub fn plain(bytes: &[u8], length: usize) -> Decoded
    ensures { (i : Instruction) × (result ≡ decoded_or i Plain length bytes.now) }
{
    if bytes.len() == 0 {
        return Err(DecodeError::Truncated);
    }
    if length == 0 {
        return Err(DecodeError::Outside);
    }
    if bytes.len() < length {
        return Err(DecodeError::Truncated);
    }
    let rest = two_words(bytes, 1);
    Ok((
        plain_instruction(byte_at(bytes, 0), first_word(rest), second_word(rest)),
        length,
    ))
}

// The same on the page after 72.
pub fn after_72(bytes: &[u8], length: usize) -> Decoded
    ensures { (i : Instruction) × (result ≡ decoded_or i After72 length bytes.now) }
{
    if bytes.len() <= 1 {
        return Err(DecodeError::Truncated);
    }
    if length == 0 {
        return Err(DecodeError::Outside);
    }
    if bytes.len() < length {
        return Err(DecodeError::Truncated);
    }
    let rest = two_words(bytes, 2);
    Ok((
        after_72_instruction(byte_at(bytes, 1), first_word(rest), high(second_word(rest))),
        length,
    ))
}

// The same on the page after 90.
pub fn after_90(bytes: &[u8], length: usize) -> Decoded
    ensures { (i : Instruction) × (result ≡ decoded_or i After90 length bytes.now) }
{
    if bytes.len() <= 1 {
        return Err(DecodeError::Truncated);
    }
    if length == 0 {
        return Err(DecodeError::Outside);
    }
    if bytes.len() < length {
        return Err(DecodeError::Truncated);
    }
    Ok((
        after_90_instruction(byte_at(bytes, 1), word_at(bytes, 2)),
        length,
    ))
}
