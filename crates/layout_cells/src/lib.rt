// The layout of an image as the 16-bit cells that a caller in C gets.
#![tactic(auto)]

ghost use Rattle.std.specs.Prelude.{◌≡◌, ◌∷◌, ◌≤◌, replicate};
ghost use Rattle.image.specs.Lengths.{Begins};
ghost use Rattle.image.specs.Validated.{Valid};
ghost use Rattle.image.specs.Validation.{laid_out, validation_number};
ghost use Rattle.layout_cells.specs.Cells.{filled_cells, layout_cells};

use image::{Layout, Measured, measure_alone};

// What stands in the header, and 0 for where the routines begin.
fn header_cells(layout: Layout) -> [u16; 37]
    requires { (layout.count ≤ 32) × (layout.code ≤ 72) × (layout.size ≤ 4096) }
    ensures { result ≡ layout.version ∷ layout.base ∷ layout.count ∷ layout.code ∷ layout.size ∷ replicate 32 0 }
{
    let mut cells = [0u16; 37];
    cells[0] = layout.version;
    cells[1] = layout.base;
    cells[2] = layout.count as u16;
    cells[3] = layout.code as u16;
    cells[4] = layout.size as u16;
    cells
}

// The cells of an image that follows the rules.
#[tactic(auto, using(image::proofs::Alone::laid_bounds))]
fn filled_cells(image: &[u8], measured: &Measured) -> [u16; 37]
    requires alone { laid_out image.now ≡ Valid measured.now.layout }
    requires begins { Begins image.now measured.now.begins measured.now.layout.count }
    ensures { result ≡ filled_cells image.now measured.now.layout }
{
    let layout = measured.layout;
    let end = 5 + layout.count;
    let mut cells = header_cells(layout);
    cells[5..end].copy_from_slice(&measured.begins[..layout.count]);
    cells
}

// The number that an image is refused with by itself, 2 to 4, or 0; and its cells, all 0 where it is refused.
pub fn layout_of(image: &[u8], cells: &mut [u16; 37]) -> u8
    ensures value { result ≡ validation_number (laid_out image.now) }
    ensures cells_after { cells.new ≡ layout_cells image.now (laid_out image.now) }
{
    match measure_alone(image) {
        Ok(measured) => {
            *cells = filled_cells(image, &measured);
            0
        }
        Err(error) => {
            *cells = [0u16; 37];
            error.number()
        }
    }
}
