// The verdict of a check. What it means is in specs/: document 01's rules, and which refusal an image gets.
#![tactic(auto)]

ghost use Rattle.std.specs.Prelude.{◌≡◌};
ghost use Rattle.rules.specs.Outcome.{values_of};

// What an accepted image needs: the stack bytes, and how many starts it has.
#[derive(Clone, Copy)]
pub struct Acceptance {
    pub need: u16,
    pub count: u16,
}

// Document 01's number of the rule that is broken, and the offset where.
#[derive(Clone, Copy)]
pub struct Refusal {
    pub number: u8,
    pub offset: u16,
}

impl Refusal {
    // Of a rule that names no offset.
    pub fn of_rule(number: u8) -> Refusal
        ensures { result ≡ record { number = number; offset = 0 } }
    {
        Refusal { number, offset: 0 }
    }
}

pub type Verdict = Result<Acceptance, Refusal>;

// Document 01's number of a verdict, 0 where it accepts.
pub fn verdict_number(v: Verdict) -> u8
    ensures { result ≡ (values_of v).number }
{
    match v {
        Ok(_) => 0,
        Err(refusal) => refusal.number,
    }
}
