// An image that its check found valid.
ghost use Rattle.std.specs.Prelude.{◌≡◌};
ghost use Rattle.image.specs.Lengths.{Begins};
ghost use Rattle.image.specs.Validation.{validated};
ghost use Rattle.image.specs.Validated.{Valid};

use image::{Layout, Limits};

// A valid image and its limits, its layout, and where its routines begin.
#[derive(Clone, Copy)]
pub struct ValidImage<'a> {
    pub image: &'a [u8],
    pub limits: Limits,
    pub layout: Layout,
    pub begins: &'a [u16; 32],
    pub ghost valid: { validated image.now limits ≡ Valid layout },
    pub ghost routines_begin: { Begins image.now begins.now layout.count },
}
