// The manual's assembler column notation: names, operands, and the lines that they make, written in place.
#![tactic(auto)]

mod lines;
pub mod names;
mod spelling;
mod text;

pub use lines::{Shown, line};
pub use names::Named;
pub use spelling::{Accumulator, Address, Position, StackPointer};
pub use text::{Text, hex_digit};

// No line is longer.
pub const LONGEST: usize = 23;
