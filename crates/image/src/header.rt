// The header of an image: its mark, its version, its length list and the rules of its layout.
ghost use Rattle.std.specs.Prelude.{◌≡◌, ℕ, ◌+◌, ◌*◌, ◌≤◌, List, length};
ghost use Rattle.image.specs.Image.{version_of, base_of, count_of, code_at, lengths_of, code_of, layout_of};
ghost use Rattle.image.specs.Lengths.{after_all, BeginsTo16};
ghost use Rattle.image.specs.Validated.{number_of, answer_of};
ghost use Rattle.image.specs.Validation.{answer, mark_check, known as is_known, version_check, header_check, layout_check};

use crate::{ImageError, Layout, LengthState};
use numbers::words::{byte_at, word_at};

// The image has 8 bytes or more, and begins with SLU.
pub(crate) fn mark_check(image: &[u8]) -> Result<(), ImageError>
    ensures { number_of result ≡ mark_check image.now }
{
    if image.len() < 8 || !image.starts_with(b"SLU") {
        return Err(ImageError::Mark);
    }
    Ok(())
}

// The version.
#[tactic(auto, unfolding(crate::specs::Image::version_of))]
pub fn version_of(image: &[u8]) -> u16
    ensures { result ≡ version_of image.now }
{
    word_at(image, 3)
}

// Whether there is such a version.
fn known(version: u16) -> bool
    ensures { result ≡ is_known version }
{
    matches!(version, 1 | 2)
}

// The version is 0001 or 0002.
#[tactic(auto, unfolding(crate::specs::Validation::version_check, numbers::specs::Checks::unless))]
pub(crate) fn version_check(image: &[u8]) -> Result<(), ImageError>
    ensures { number_of result ≡ version_check image.now }
{
    if !known(version_of(image)) {
        return Err(ImageError::Version);
    }
    Ok(())
}

// The address of the first code byte.
#[tactic(auto, unfolding(crate::specs::Image::base_of))]
pub fn base_of(image: &[u8]) -> u16
    ensures { result ≡ base_of image.now }
{
    word_at(image, 5)
}

// The number of routines.
#[tactic(auto, unfolding(crate::specs::Image::count_of))]
pub fn count_of(image: &[u8]) -> u8
    ensures { result ≡ count_of image.now }
{
    byte_at(image, 7)
}

// The index of the first code byte.
#[tactic(auto, unfolding(crate::specs::Image::code_at))]
pub fn code_at(image: &[u8]) -> usize
    ensures value { result ≡ code_at image.now }
    ensures upper_bound { result ≤ 8 + 2 * 255 }
{
    8 + 2 * count_of(image) as usize
}

// What one look at the length list tells, each length read once and in its order: the state after it, and where the routines begin, to 16 bits,
// which no valid image passes, and none past the 32 that an image may have.
pub(crate) fn read_lengths(image: &[u8]) -> (LengthState, [u16; 32])
    ensures after_lengths { result.0 ≡ after_all (lengths_of image.now) }
    ensures begins_to_16_bits { BeginsTo16 image.now result.1 (count_of image.now) }
{
    let mut begins = [0u16; 32];
    let mut state = LengthState::new();
    let count = count_of(image) as usize;
    for k in 0..count {
        if k < 32 {
            begins[k] = (state.sum % 0x10000) as u16;
        }
        state = state.feed(word_at(image, 8 + 2 * k));
    }
    (state, begins)
}

// A base, a number of routines and their lengths keep the rules, by the state after the lengths.
#[tactic(auto, using(crate::proofs::Feeding::header_by_state), unfolding(numbers::specs::Checks::first, numbers::specs::Checks::under, numbers::specs::Checks::unless))]
pub(crate) fn header_check(base: u16, count: usize, lengths: LengthState) -> Result<(), ImageError>
    ensures { (listed : List ℕ) → count ≡ length listed → lengths ≡ after_all listed → number_of result ≡ header_check base listed }
{
    let size = lengths.sum as usize;
    if count < 1
        || 32 < count
        || lengths.empty
        || 4096 < size
        || base < 0x8000
        || 0x10000 < base as usize + size
    {
        return Err(ImageError::Layout);
    }
    Ok(())
}

// The layout that the header says, by the state after the length list.
#[tactic(auto, using(crate::proofs::Feeding::sum_all, crate::proofs::Validity::layout_tested, crate::proofs::Measuring::lengths_count), unfolding(crate::specs::Validation::layout_check, numbers::specs::Checks::first, numbers::specs::Checks::differ, crate::specs::Image::layout_of, crate::specs::Image::size_of))]
pub(crate) fn layout_check(image: &[u8], lengths: LengthState) -> Result<Layout, ImageError>
    requires { lengths ≡ after_all (lengths_of image.now) }
    ensures { answer_of result ≡ answer (layout_check (base_of image.now) (lengths_of image.now) (length (code_of image.now))) (layout_of image.now) }
{
    let layout = Layout {
        version: version_of(image),
        base: base_of(image),
        count: count_of(image) as usize,
        code: code_at(image),
        size: lengths.sum as usize,
    };
    header_check(layout.base, layout.count, lengths)?;
    if image.len() != layout.code + layout.size {
        return Err(ImageError::Layout);
    }
    Ok(layout)
}
