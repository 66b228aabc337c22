// The rules of limits: refusal 1.
ghost use Rattle.std.specs.Prelude.{◌≡◌, ◌≤◌};
ghost use Rattle.image.specs.Image.{area_at, limits_of};
ghost use Rattle.image.specs.Validated.{number_of};
ghost use Rattle.image.specs.Validation.{area_check, apart as apart_of, second_check, limits_check};

use crate::{Area, ImageError, Limits};
use numbers::words::word_at;

// The low and high end that stand at an index.
fn area_at(bytes: &[u8], at: usize) -> Area
    requires { at ≤ 8 }
    ensures { result ≡ area_at bytes.now at }
{
    Area {
        low: word_at(bytes, at),
        high: word_at(bytes, at + 2),
    }
}

// The limits in the first twelve bytes, high byte first; a byte past the end counts as 0, so eight bytes have the second grant 0000-0000.
#[tactic(auto, unfolding(crate::specs::Image::limits_of))]
pub fn limits_of(bytes: &[u8]) -> Limits
    ensures { result ≡ limits_of bytes.now }
{
    Limits {
        grant: area_at(bytes, 0),
        stack: area_at(bytes, 4),
        second: area_at(bytes, 8),
    }
}

// An area's low is not above its high, and neither is above 7FFF.
#[tactic(auto, unfolding(crate::specs::Validation::area_check, numbers::specs::Folds::first_in, numbers::specs::Checks::first, numbers::specs::Checks::under))]
fn area_check(area: Area) -> Result<(), ImageError>
    ensures { number_of result ≡ area_check area }
{
    if area.high < area.low || 0x7FFF < area.low || 0x7FFF < area.high {
        return Err(ImageError::Limits);
    }
    Ok(())
}

// Whether two areas don't meet: one ends before the other begins.
#[tactic(auto, unfolding(crate::specs::Validation::apart))]
pub fn apart(a: Area, b: Area) -> bool
    ensures { result ≡ apart_of a b }
{
    a.high < b.low || b.high < a.low
}

// A second grant that is there is an area, and meets neither the grant nor the stack.
#[tactic(auto, unfolding(crate::specs::Validation::second_check, numbers::specs::Folds::first_in, numbers::specs::Checks::first, numbers::specs::Checks::unless))]
fn second_check(limits: Limits) -> Result<(), ImageError>
    ensures { number_of result ≡ second_check limits }
{
    let second = limits.second;
    if second.high < second.low {
        return Ok(());
    }
    area_check(second)?;
    if !apart(limits.grant, second) || !apart(limits.stack, second) {
        return Err(ImageError::Limits);
    }
    Ok(())
}

// Grant and stack are areas that don't meet, stack low is at least 1, and a second grant keeps its rules.
#[tactic(auto, unfolding(crate::specs::Validation::limits_check, numbers::specs::Folds::first_in, numbers::specs::Checks::first, numbers::specs::Checks::under, numbers::specs::Checks::unless))]
pub(crate) fn limits_check(limits: Limits) -> Result<(), ImageError>
    ensures { number_of result ≡ limits_check limits }
{
    let grant = limits.grant;
    let stack = limits.stack;
    area_check(grant)?;
    area_check(stack)?;
    if stack.low < 1 || !apart(grant, stack) {
        return Err(ImageError::Limits);
    }
    second_check(limits)
}
