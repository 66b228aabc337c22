// What an instruction does to depth, and whether control falls through it.
ghost use Rattle.std.specs.Prelude.{◌≡◌};
ghost use Rattle.code.specs.Depth.{moves_depth, popped as popped_by, pushed as pushed_by, falls as falls_by};

use stm8::{Effect, Flow};

// Whether what an instruction pops and pushes is the routine's own: a return address is not.
fn moves_depth(flow: Flow) -> bool
    ensures { result ≡ moves_depth flow }
{
    matches!(flow, Flow::Next | Flow::Branch(_) | Flow::Jump(_))
}

// The bytes of the routine's own that an instruction pops.
#[tactic(auto, unfolding(crate::specs::Depth::popped))]
pub fn popped(e: Effect) -> u8
    ensures { result ≡ popped_by e }
{
    if moves_depth(e.flow) { e.pops } else { 0 }
}

// The bytes of the routine's own that an instruction pushes.
#[tactic(auto, unfolding(crate::specs::Depth::pushed))]
pub fn pushed(e: Effect) -> u8
    ensures { result ≡ pushed_by e }
{
    if moves_depth(e.flow) { e.pushes } else { 0 }
}

// Only JRA and RET do not fall through.
pub fn falls(flow: Flow) -> bool
    ensures { result ≡ falls_by flow }
{
    !matches!(flow, Flow::Jump(_) | Flow::Return)
}
