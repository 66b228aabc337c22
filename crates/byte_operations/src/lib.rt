// What the operations on bytes, bits and flags give: the manual's instruction pages, by operation.
#![tactic(auto)]

mod accumulator;
mod bits;
mod flags;
mod unary;

pub use accumulator::alu;
pub use bits::{bit, bit_holds, bit_tested};
pub use flags::{flag, holds};
pub use unary::modify;
