// Records of Intel HEX, a line each: judged and taken apart where they stand in a text, and written.
#![tactic(auto)]

mod digits;
mod judging;
mod reading;
mod writing;

pub use judging::judge_line;
pub use reading::{address_in, copy_data, data_length, place_after};
pub use writing::put_line;

// Where reading stands at a line's first byte: no data record yet; the address that follows on, 10000 and more where none does; the end record
// was read.
#[derive(Clone, Copy)]
pub enum Place {
    First,
    Next(u32),
    Ended,
}

// What the bytes of a line add up to, modulo 256, and whether two digits spell each.
#[derive(Clone, Copy)]
pub struct Summed {
    pub sum: u16,
    pub good: bool,
}
