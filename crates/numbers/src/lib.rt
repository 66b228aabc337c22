// Bytes and words, bits, and checks as numbers: what every crate above shares.
#![tactic(auto)]

pub mod bits;
pub mod checks;
pub mod words;
