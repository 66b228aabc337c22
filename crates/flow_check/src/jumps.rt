// Where a routine's jumps go, by its cells: 13 and 10.
ghost use Rattle.std.specs.Prelude.{◌≡◌, ◌<◌, ◌≤◌, OnOk, IfErr};
ghost use Rattle.control_flow.specs.Graph.{column};
ghost use Rattle.control_flow.specs.Routine.{routine, jump_number, jump_check};
ghost use Rattle.control_flow.specs.Exploring.{Tested};
ghost use Rattle.control_flow.specs.Refusing.{number_of, at_of};
ghost use Rattle.flow_check.specs.Internal.{Lands};

use crate::spans::Span;
use control_flow::{Refusal, Row};

// 13 where the jump of the start at an offset goes to no offset of the routine, 10 where it goes to no start. The jump is looked at first, since few
// offsets have one.
fn check_jump(cells: &[Row; 4096], at: usize) -> Result<(), Refusal>
    requires { at < 4096 }
    ensures passes { OnOk result (1 ≤ column 0 cells.now at → Lands cells.now at) }
    ensures fails { IfErr result (λ r. (r.at ≡ at) × (1 ≤ column 0 cells.now at)
        × (r.number ≡ jump_number (column 0 cells.now) (column 2 cells.now at))) }
{
    let row = cells[at];
    if row.jump == 0 || row.start == 0 {
        return Ok(());
    }
    if 4096 < row.jump {
        return Err(Refusal { number: 13, at });
    }
    let target = cells[row.jump as usize - 1];
    if target.start == 0 {
        return Err(Refusal { number: 10, at });
    }
    Ok(())
}

// The first start, rising, whose jump goes to no start of the routine.
pub(crate) fn check_jumps(span: Span, cells: &[Row; 4096]) -> Result<(), Refusal>
    ensures { let x = routine span.entry span.end cells.now in Tested x (jump_check x) (number_of result) (at_of result) }
{
    for at in span.entry..span.end {
        check_jump(cells, at)?;
    }
    Ok(())
}
