// Decoding: the instruction at the front of a slice, an op-code outside the set, or bytes that end too soon.
#![tactic(auto)]

ghost use Rattle.std.specs.Prelude.{◌≡◌};
ghost use Rattle.stm8.specs.Decoding.{decoded, decoded_by, decoding_number};
ghost use Rattle.stm8.specs.declared.Instruction.{Instruction};
ghost use Rattle.decoder.specs.Parts.{decoded_by_or};

mod lengths;
mod pages;

pub use lengths::opcode_length;
use lengths::{after_72_length, after_90_length, plain_length};
use numbers::words::byte_at;
use stm8::{DecodeError, Decoded};

// By the map's own lengths: no second test tells whether the map has the op-code.
pub fn decode(bytes: &[u8]) -> Decoded
    ensures { result ≡ decoded bytes.now }
{
    let first = byte_at(bytes, 0);
    if first == 0x72 {
        return pages::after_72(bytes, after_72_length(byte_at(bytes, 1)));
    }
    if first == 0x90 {
        return pages::after_90(bytes, after_90_length(byte_at(bytes, 1)));
    }
    pages::plain(bytes, plain_length(first))
}

// By three tables of lengths, one for each page. Where a table has a length and the map is blank, some instruction or other is found.
fn decode_any(bytes: &[u8], lengths: &[[u8; 256]; 3]) -> Decoded
    ensures { (i : Instruction) × (result ≡ decoded_by_or i lengths.now bytes.now) }
{
    let first = byte_at(bytes, 0);
    if first == 0x72 {
        return pages::after_72(bytes, opcode_length(byte_at(bytes, 1), &lengths[1]));
    }
    if first == 0x90 {
        return pages::after_90(bytes, opcode_length(byte_at(bytes, 1), &lengths[2]));
    }
    pages::plain(bytes, opcode_length(first, &lengths[0]))
}

// By any tables: an op-code that the map has not is outside the set, whatever length a table has for it.
pub fn decode_by(bytes: &[u8], lengths: &[[u8; 256]; 3]) -> Decoded
    ensures { result ≡ decoded_by lengths.now bytes.now }
{
    let found = decode_any(bytes, lengths)?;
    match decode(bytes) {
        Err(DecodeError::Outside) => Err(DecodeError::Outside),
        _ => Ok(found),
    }
}

// Document 01's number of an answer, 0 for an instruction.
pub fn decoding_number(decoded: Decoded) -> u8
    ensures { result ≡ decoding_number decoded }
{
    match decoded {
        Ok(_) => 0,
        Err(DecodeError::Outside) => 8,
        Err(DecodeError::Truncated) => 9,
    }
}
