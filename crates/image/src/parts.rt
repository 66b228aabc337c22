// The parts of an image that comes in another form: a base, lengths, and so many code bytes.
ghost use Rattle.std.specs.Prelude.{◌≡◌, ◌≤◌, length};
ghost use Rattle.image.specs.Lengths.{after_all};
ghost use Rattle.image.specs.Validated.{number_of};
ghost use Rattle.image.specs.Validation.{layout_check};

use crate::header::header_check;
use crate::{ImageError, LengthState};

// The state after a list of lengths.
fn feed_all(lengths: &[u16]) -> LengthState
    requires { length lengths.now ≤ 32 }
    ensures { result ≡ after_all lengths.now }
{
    let mut state = LengthState::new();
    for length in lengths {
        state = state.feed(*length);
    }
    state
}

// Whether the parts make an image. Of more than 32 lengths none is read.
#[tactic(auto, using(crate::proofs::Feeding::sum_all, crate::proofs::PartRules::too_many), unfolding(crate::specs::Validation::layout_check, numbers::specs::Checks::first, numbers::specs::Checks::differ))]
pub fn parts_check(base: u16, lengths: &[u16], given: usize) -> Result<(), ImageError>
    ensures { number_of result ≡ layout_check base lengths.now given }
{
    if 32 < lengths.len() {
        return Err(ImageError::Layout);
    }
    let state = feed_all(lengths);
    header_check(base, lengths.len(), state)?;
    if given != state.sum as usize {
        return Err(ImageError::Layout);
    }
    Ok(())
}
