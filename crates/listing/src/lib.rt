// The lines of a verdict, as document 01's verdict program prints them: what the check says, then address, depth and text of each start.
#![tactic(auto)]

mod lines;
mod writing;

ghost use Rattle.std.specs.Prelude.{◌≡◌, ◌≤◌, length, IfOk};
ghost use Rattle.acceptance.specs.Check.{checked};
ghost use Rattle.listing.specs.Listing.{listed, image_in, checked_input};

use checker::check;
use disassembly::TooShort;
use image::{Limits, limits_of};
use lines::{push_starts, write_verdict};
use rules::Refusal;

// No listing is longer: 21 bytes for line one, and at most 35 for each of at most 4,096 code bytes.
pub const LONGEST: usize = 143381;

// Checks an image under limits and writes the listing to the start of the buffer, which has room for any: a buffer shorter than LONGEST is refused.
pub fn list(
    image: &[u8],
    limits: Limits,
    marks: &mut [u16],
    buffer: &mut [u8],
) -> Result<usize, TooShort>
    ensures listing { (result, marks.new, buffer.new) ≡
        listed image.now marks.old buffer.old (checked image.now limits marks.old) }
    ensures within { IfOk result (λ n. n ≤ length buffer.new) }
{
    if buffer.len() < LONGEST {
        return Err(TooShort);
    }
    let verdict = check(image, limits, marks);
    let end = write_verdict(buffer, verdict);
    match verdict {
        Ok(_) => Ok(push_starts(buffer, end, image, marks)),
        Err(_) => Ok(end),
    }
}

// The same for an input that has the limits in its first twelve bytes, then the image; fewer bytes are refused with 1.
pub fn list_input(input: &[u8], marks: &mut [u16], buffer: &mut [u8]) -> Result<usize, TooShort>
    ensures listing { (result, marks.new, buffer.new) ≡
        listed (image_in input.now) marks.old buffer.old (checked_input input.now marks.old) }
    ensures within { IfOk result (λ n. n ≤ length buffer.new) }
{
    if buffer.len() < LONGEST {
        return Err(TooShort);
    }
    if input.len() < 12 {
        return Ok(write_verdict(buffer, Err(Refusal::of_rule(1))));
    }
    list(&input[12..], limits_of(input), marks, buffer)
}
