// Decoding with cycles: each way of decoding, and what it finds with the cycles of the instruction.
#![tactic(auto)]

ghost use Rattle.std.specs.Prelude.{◌≡◌, List, ℕ};
ghost use Rattle.stm8.specs.Decoding.{decoded, decoded_by};
ghost use Rattle.image.specs.Image.{version_of, code_of};
ghost use Rattle.code.specs.Code.{decoded_at};
ghost use Rattle.code.specs.Set.{decoded_for};
ghost use Rattle.cycles.specs.Timed.{with_cycles};

use code::{decode_at, decode_for};
use cycles::{Timed, with_cycles};
use decoder::{decode, decode_by};

// Loose bytes, by the map's own lengths.
pub fn decode_timed(bytes: &[u8]) -> Timed
    ensures { result ≡ with_cycles (decoded bytes.now) }
{
    with_cycles(decode(bytes))
}

// By three tables of lengths, one for each page.
pub fn decode_timed_by(bytes: &[u8], lengths: &[[u8; 256]; 3]) -> Timed
    ensures { result ≡ with_cycles (decoded_by lengths.now bytes.now) }
{
    with_cycles(decode_by(bytes, lengths))
}

// By the set of a version.
pub fn decode_timed_for(version: u16, bytes: &[u8]) -> Timed
    ensures { result ≡ with_cycles (decoded_for version bytes.now) }
{
    with_cycles(decode_for(version, bytes))
}

// At an offset of an image's code, by the image's version, up to a bound.
pub fn decode_timed_at(version: u16, code: &[u8], at: usize, end: usize) -> Timed
    ensures { (image : List ℕ) → version ≡ version_of image → code.now ≡ code_of image → result ≡ with_cycles (decoded_at image end at) }
{
    with_cycles(decode_at(version, code, at, end))
}
