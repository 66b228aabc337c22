// The check of a routine by its cells: definitions and laws, and the types of a row of cells and of a refusal.
#![tactic(auto)]

mod rows;

ghost use Rattle.std.specs.Prelude.{◌≤◌};

pub use rows::Row;

// A refusal of a routine: its number, which is never 0, and the offset that it names.
#[derive(Clone, Copy, Debug, PartialEq, Eq)]
pub struct Refusal {
    pub number: u8,
    pub at: usize,
    pub ghost some: { 1 ≤ number },
}
