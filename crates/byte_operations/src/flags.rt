// The operations on a flag alone, and the conditions of the relative jumps.
ghost use Rattle.std.specs.Prelude.{◌≡◌};
ghost use Rattle.byte_operations.specs.FlagOperations.{flag_result};
ghost use Rattle.byte_operations.specs.Conditions.{holds as holds_of};

use arithmetic::flags::{carry, negative, overflow, with_c, with_v, zero};
use stm8::{Condition, FlagOp};

// CC after an operation on a flag.
pub fn flag(o: FlagOp, cc: u8) -> u8
    ensures { result ≡ flag_result o cc }
{
    match o {
        FlagOp::Ccf => with_c(!carry(cc), cc),
        FlagOp::Rcf => with_c(false, cc),
        FlagOp::Rvf => with_v(false, cc),
        FlagOp::Scf => with_c(true, cc),
    }
}

// Whether a condition holds.
#[tactic(auto, using(arithmetic::proofs::SumLaws::differ))]
pub fn holds(o: Condition, cc: u8) -> bool
    ensures { result ≡ holds_of o cc }
{
    let v = overflow(cc);
    let n = negative(cc);
    let z = zero(cc);
    let c = carry(cc);
    match o {
        Condition::Jra => true,
        Condition::Jrf => false,
        Condition::Jrugt => !c & !z,
        Condition::Jrule => c | z,
        Condition::Jrnc => !c,
        Condition::Jrc => c,
        Condition::Jrne => !z,
        Condition::Jreq => z,
        Condition::Jrnv => !v,
        Condition::Jrv => v,
        Condition::Jrpl => !n,
        Condition::Jrmi => n,
        Condition::Jrsgt => !(z | (n != v)),
        Condition::Jrsle => z | (n != v),
        Condition::Jrsge => !(n != v),
        Condition::Jrslt => n != v,
    }
}
