// The text of an instruction in the manual's assembler column notation.
#![tactic(auto)]

mod instructions;

ghost use Rattle.std.specs.Prelude.{◌≡◌, ◌≤◌, length, IfOk};
ghost use Rattle.disassembly.specs.Text.{text as text_of, placed};

pub use instructions::{push_text, text_of};
pub use notation::LONGEST;
use notation::Text;
use stm8::Instruction;

/// A buffer has no room for what was to be written to it.
#[derive(Clone, Copy, Debug, PartialEq, Eq)]
pub struct TooShort;

/// Writes the text of the instruction at an address to the start of the buffer, and answers how many bytes that is.
#[tactic(auto, using(crate::proofs::Placing::text_whole), unfolding(crate::specs::Text::placed))]
pub fn disassemble(i: Instruction, address: u16, buffer: &mut [u8]) -> Result<usize, TooShort>
    ensures text { (result, buffer.new) ≡ placed (text_of address i) buffer.old }
    ensures within { IfOk result (λ n. n ≤ length buffer.new) }
{
    let mut text: Text<LONGEST> = Text::new();
    push_text(&mut text, i, address);
    let letters = text.as_bytes();
    if buffer.len() < letters.len() {
        return Err(TooShort);
    }
    buffer[..letters.len()].copy_from_slice(letters);
    Ok(letters.len())
}
