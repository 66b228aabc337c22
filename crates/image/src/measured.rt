// An image that follows its rules, measured: what others go by that index into it.
use crate::Layout;

// The layout of an image, and where its routines begin. It does not hold the image: whoever has it may write there.
#[derive(Clone, Copy)]
pub struct Measured {
    pub layout: Layout,
    pub begins: [u16; 32],
}
