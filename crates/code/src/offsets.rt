// What stands at an offset of an image's code.
ghost use Rattle.std.specs.Prelude.{◌≡◌, List, ℕ, ◌+◌, ◌<◌, ◌≤◌};
ghost use Rattle.stm8.specs.declared.Instruction.{Instruction};
ghost use Rattle.image.specs.Image.{version_of, code_of};
ghost use Rattle.code.specs.Code.{decoded_at};

use crate::versions::decode_for;
use stm8::Decoded;

// What the bytes at an offset of an image's code are, by the image's version; they end at a bound, or with the code. What is found has bytes, and
// ends at the bound or before.
pub fn decode_at(version: u16, code: &[u8], at: usize, end: usize) -> Decoded
    ensures of_image { (image : List ℕ) → version ≡ version_of image → code.now ≡ code_of image → result ≡ decoded_at image end at }
    ensures ends_within { (i : Instruction) (n : ℕ) → result ≡ Ok (i, n) → (0 < n) × (at + n ≤ end) }
{
    let to = end.min(code.len());
    decode_for(version, &code[at.min(to)..to])
}
