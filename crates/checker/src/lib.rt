// The check of an image under limits: refusals 1 to 16, the marks, the need and the count.
#![tactic(auto)]

mod sweep;
mod valid;

ghost use Rattle.std.specs.Prelude.{◌≡◌, ℕ, ◌≤◌, length};
ghost use Rattle.image.specs.Image.{count_of};
ghost use Rattle.image.specs.Lengths.{Begins};
ghost use Rattle.image.specs.Validation.{validated};
ghost use Rattle.image.specs.Validated.{Valid};
ghost use Rattle.rules.specs.Outcome.{Outcome, VerdictNumbered};
ghost use Rattle.rules.specs.Verdict.{Accepted};
ghost use Rattle.acceptance.specs.Check.{checked};
ghost use Rattle.checker.specs.Internal.{Small, VerdictOf, code_marks, CodeOutcome};

use crate::sweep::{Sweep, sweep_routines};
use image::{Layout, Limits, measure};
pub use rules::{Acceptance, Refusal, Verdict};
pub use sweep::routine_at;
pub use valid::ValidImage;

// What is said of what the sweep found; 16 comes last.
fn verdict_of(
    limits: Limits,
    layout: Layout,
    swept: Result<Sweep, control_flow::Refusal>,
) -> Verdict
    requires { (1 ≤ layout.count) × (layout.count ≤ 32) × Small swept }
    ensures { VerdictOf limits layout.count swept result }
{
    match swept {
        Err(refusal) => Err(Refusal {
            number: refusal.number,
            offset: refusal.at as u16,
        }),
        Ok(sweep) => {
            let stack = limits.stack;
            let need = sweep.needs[layout.count - 1] + 2;
            if stack.high as usize + 1 < stack.low as usize + need as usize {
                return Err(Refusal::of_rule(16));
            }
            Ok(Acceptance {
                need,
                count: sweep.count as u16,
            })
        }
    }
}

// Where the verdict refuses, all code marks are 0.
fn clear_refused(v: Verdict, marks: &mut [u16])
    ensures { marks.new ≡ code_marks v marks.old }
{
    match v {
        Ok(_) => (),
        Err(_) => marks.fill(0),
    }
}

// The sweep of a valid image's code, over as many marks as it has bytes.
fn check_code(valid: ValidImage, marks: &mut [u16]) -> Verdict
    requires { length marks.old ≡ valid.layout.size }
    ensures { CodeOutcome valid.entry.image.now valid.entry.limits result marks.new }
{
    marks.fill(0);
    let swept = sweep_routines(valid, marks);
    let v = verdict_of(valid.limits, valid.layout, swept);
    clear_refused(v, marks);
    v
}

// A valid image: 5 where there are too few marks, else its code. Cells past the code never change.
fn check_valid(
    image: &[u8],
    limits: Limits,
    layout: Layout,
    begins: &[u16; 32],
    marks: &mut [u16],
) -> Verdict
    requires { (validated image.now limits ≡ Valid layout) × Begins image.now begins.now layout.count }
    ensures { Outcome image.now limits marks.old result marks.new }
{
    let size = layout.size;
    if marks.len() < size {
        return Err(Refusal::of_rule(5));
    }
    let valid = ValidImage {
        image,
        limits,
        layout,
        begins,
    };
    check_code(valid, &mut marks[..size])
}

// A verdict, and where the routines of an accepted image begin.
#[derive(Clone, Copy)]
pub struct CheckedImage {
    pub verdict: Verdict,
    pub begins: [u16; 32],
}

// Checks an image under limits, and tells where the routines begin of one that is accepted.
pub fn check_begins(image: &[u8], limits: Limits, marks: &mut [u16]) -> CheckedImage
    ensures marks_value { checked image.now limits marks.old ≡ (result.verdict, marks.new) }
    ensures verdict_numbered { VerdictNumbered 16 result.verdict }
    ensures by_index { (need count : ℕ) → result.verdict ≡ Accepted need count → Begins image.now result.begins (count_of image.now) }
{
    match measure(image, limits) {
        Ok(measured) => {
            let begins = measured.begins;
            let verdict = check_valid(image, limits, measured.layout, &begins, marks);
            CheckedImage { verdict, begins }
        }
        Err(error) => {
            let begins = [0u16; 32];
            let verdict = Err(Refusal::of_rule(error.number()));
            CheckedImage { verdict, begins }
        }
    }
}

// Checks an image under limits.
pub fn check(image: &[u8], limits: Limits, marks: &mut [u16]) -> Verdict
    ensures marks_value { checked image.now limits marks.old ≡ (result, marks.new) }
    ensures verdict_numbered { VerdictNumbered 16 result }
{
    let checked = check_begins(image, limits, marks);
    checked.verdict
}
