// Bits, flags, sums and differences as the manual's instruction pages have them, on numbers and CC.
#![tactic(auto)]

pub mod bits;
pub mod flags;
pub mod sums;
pub mod width;

// A number that an operation gives, and CC after it.
#[derive(Clone, Copy)]
pub struct Flagged<T> {
    pub value: T,
    pub cc: u8,
}
