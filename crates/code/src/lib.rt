// The code of an image: the set of its version, what stands at an offset, and what an instruction does to its routine's depth.
#![tactic(auto)]

mod depth;
mod offsets;
mod versions;

pub use depth::{falls, popped, pushed};
pub use offsets::decode_at;
pub use versions::{decode_for, lengths_of};
