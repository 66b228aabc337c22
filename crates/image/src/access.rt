// Where a direct store may go.
ghost use Rattle.std.specs.Prelude.{◌≡◌};
ghost use Rattle.image.specs.Access.{wholly as wholly_in, granted as granted_to};

use crate::{Area, Limits};

// Whether `count` bytes from an address lie wholly in an area.
#[tactic(auto, unfolding(crate::specs::Access::wholly))]
fn wholly(area: Area, address: u16, count: u8) -> bool
    ensures { result ≡ wholly_in area address count }
{
    area.low <= address && address as usize + count as usize <= area.high as usize + 1
}

// Whether they lie wholly in one of the two grants.
#[tactic(auto, unfolding(crate::specs::Access::granted))]
pub fn granted(limits: Limits, address: u16, count: u8) -> bool
    ensures { result ≡ granted_to limits address count }
{
    wholly(limits.grant, address, count) || wholly(limits.second, address, count)
}
