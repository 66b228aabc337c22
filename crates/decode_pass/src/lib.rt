// The decode pass over a routine of an image: 8, 9 and 15 at each start, rising. Every start is decoded once, and its cells are stored for the
// passes after it.
#![tactic(auto)]

mod cells;
mod decoding;

ghost use Rattle.std.specs.Prelude.{List, ℕ};
ghost use Rattle.control_flow.specs.Refusing.{number_of, at_of};
ghost use Rattle.decode_pass.specs.Pass.{Given, NoStarts, RoutineDecoded};

use crate::decoding::decode_starts;
pub use cells::callee;
use control_flow::{Refusal, Row};
use image::Limits;

// A routine: its place in the table, the offsets of its first byte and past its last, the image's version and base address, and the limits.
#[derive(Clone, Copy)]
pub struct Routine {
    pub index: usize,
    pub start: usize,
    pub end: usize,
    pub version: u16,
    pub base: u16,
    pub limits: Limits,
}

// The decode pass, to the routine's end or to the first refusal. Where `Given` or `NoStarts` does not hold, the answer and the cells are left free.
pub fn decode_routine(
    code: &[u8],
    begins: &[u16; 32],
    r: Routine,
    cells: &mut [Row; 4096],
) -> Result<(), Refusal>
    ensures { (image : List ℕ) → Given image code.now begins.now r → NoStarts r.start cells.old →
        RoutineDecoded image r cells.new (number_of result) (at_of result) }
{
    if 4096 < r.end || 32 < r.index {
        return Ok(());
    }
    decode_starts(code, begins, r, cells)
}
