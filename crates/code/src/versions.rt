// The set of an image's version: 0001 has all that the op-code map has, 0002 leaves out CALLR, the op-code AD without pre-code.
ghost use Rattle.std.specs.Prelude.{◌≡◌};
ghost use Rattle.code.specs.Set.{allowed as allowed_in, decoded_for, lengths_for};
ghost use Rattle.code.specs.Internal.{left_out};

use decoder::decode;
use numbers::words::byte_at;
use stm8::{DecodeError, Decoded, Instruction, map_lengths};

// Whether a version allows an instruction.
fn allowed(version: u16, i: Instruction) -> bool
    ensures { result ≡ allowed_in version i }
{
    !matches!(i, Instruction::Callr(_)) || version != 2
}

// Whether a version leaves out all that begins with a byte.
fn left_out(version: u16, first: u8) -> bool
    ensures { result ≡ left_out version first }
{
    first == 0xAD && !allowed(version, Instruction::Callr(0))
}

// What bytes are in an image of a version: what the whole map has, where the version allows it. What is left out has no length, so AD is outside the
// set even where its offset is missing.
pub fn decode_for(version: u16, bytes: &[u8]) -> Decoded
    ensures { result ≡ decoded_for version bytes.now }
{
    let found = decode(bytes);
    match found {
        Ok((i, _)) if allowed(version, i) => found,
        Err(_) if !left_out(version, byte_at(bytes, 0)) => found,
        _ => Err(DecodeError::Outside),
    }
}

// The lengths of a version's op-codes, a table for each page, to be lent to `decode_by`.
pub fn lengths_of(version: u16) -> [[u8; 256]; 3]
    ensures { result ≡ lengths_for version }
{
    let mut lengths = map_lengths();
    if left_out(version, 0xAD) {
        lengths[0][0xAD] = 0;
    }
    lengths
}
