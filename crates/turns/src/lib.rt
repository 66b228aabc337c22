// The turn of an image: how many steps a run of it takes at most.
#![tactic(auto)]

mod summing;

ghost use Rattle.std.specs.Prelude.{◌≡◌};
ghost use Rattle.image.specs.Image.{count_of, layout_of};
ghost use Rattle.image.specs.Lengths.{Begins};
ghost use Rattle.image.specs.Rules.{ImageRules};
ghost use Rattle.image.specs.Validation.{validated};
ghost use Rattle.image.specs.Validated.{Valid};
ghost use Rattle.turns.specs.Turn.{over_or_within, answer_of, turned};
ghost use Rattle.turns.specs.Values.{values_of as values_in, TurnNumbered};

use crate::summing::sum_main;
use checker::{ValidImage, check_begins};
use image::{Layout, Limits, base_of, code_at, count_of, version_of};

// What is worked out for an image: refused as the check refuses it, with number and offset; no turn, where some jump goes to its own or a lower
// address; over, where main's turn is above 4,294,967,295; else main's turn. These are four answers of the definitions and of the theorems, and none of
// them is an error of another.
#[derive(Clone, Copy, Debug, PartialEq, Eq)]
pub enum TurnAnswer {
    Refused(u8, u16),
    NoTurn,
    Over,
    Within(u32),
}

// An answer in the numbers that C gets: 0 for a turn, 66 for none, 67 for over, else the refusal's; the refusal's offset, and the turn, 0 where there is none.
#[derive(Clone, Copy, Debug, PartialEq, Eq)]
pub struct TurnValues {
    pub number: u8,
    pub offset: u16,
    pub turn: u32,
}

// By main's turn, which may be held at 4,294,967,296.
fn over_or_within(turn: u64) -> TurnAnswer
    ensures { result ≡ over_or_within turn }
{
    match u32::try_from(turn) {
        Ok(turn) => TurnAnswer::Within(turn),
        Err(_) => TurnAnswer::Over,
    }
}

// The layout of an image that follows the rules: it ends with its code.
fn layout_of(image: &[u8]) -> Layout
    requires { ImageRules image.now }
    ensures { result ≡ layout_of image.now }
{
    let code = code_at(image);
    Layout {
        version: version_of(image),
        base: base_of(image),
        count: count_of(image) as usize,
        code,
        size: image.len() - code,
    }
}

// The answer for an accepted image.
fn answer(image: &[u8], limits: Limits, begins: &[u16; 32]) -> TurnAnswer
    requires { ImageRules image.now × (validated image.now limits ≡ Valid (layout_of image.now)) × Begins image.now begins.now (count_of image.now) }
    ensures { result ≡ answer_of image.now }
{
    let layout = layout_of(image);
    let valid = ValidImage {
        image,
        limits,
        layout,
        begins,
    };
    match sum_main(valid) {
        Some(turn) => over_or_within(turn),
        None => TurnAnswer::NoTurn,
    }
}

// The turn of an image under limits. It refuses as the check does.
pub fn turn(image: &[u8], limits: Limits, marks: &mut [u16]) -> TurnAnswer
    ensures marks_value { turned image.now limits marks.old ≡ (result, marks.new) }
    ensures turn_numbered { TurnNumbered result }
{
    let checked = check_begins(image, limits, marks);
    let verdict = checked.verdict;
    let begins = checked.begins;
    match verdict {
        Err(refusal) => TurnAnswer::Refused(refusal.number, refusal.offset),
        Ok(_) => answer(image, limits, &begins),
    }
}

// The numbers of an answer. It is a function with this contract, which the documents name, and no `From`.
pub fn values_of(answer: TurnAnswer) -> TurnValues
    ensures { result ≡ values_in answer }
{
    match answer {
        TurnAnswer::Refused(number, offset) => TurnValues {
            number,
            offset,
            turn: 0,
        },
        TurnAnswer::NoTurn => TurnValues {
            number: 66,
            offset: 0,
            turn: 0,
        },
        TurnAnswer::Over => TurnValues {
            number: 67,
            offset: 0,
            turn: 0,
        },
        TurnAnswer::Within(turn) => TurnValues {
            number: 0,
            offset: 0,
            turn,
        },
    }
}
