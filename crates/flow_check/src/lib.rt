// The check of one routine by its cells, and of nothing that is STM8's: 13 and 10; 6; 7; 11, 12 and 14; its need, its count and its marks.
#![tactic(auto)]

mod exploring;
mod jumps;
mod measuring;
mod spans;
mod uses;

ghost use Rattle.std.specs.Prelude.{◌≡◌, ◌<◌, ◌≤◌, true, false, length};
ghost use Rattle.control_flow.specs.Graph.{cells as held_in};
ghost use Rattle.control_flow.specs.Routine.{routine};
ghost use Rattle.control_flow.specs.Refusing.{number_of, at_of};
ghost use Rattle.control_flow.specs.Outcome.{FlowOutcome, Checkable, Left};
ghost use Rattle.control_flow.specs.Exploring.{middle};
ghost use Rattle.control_flow.specs.Measuring.{Measurable};
ghost use Rattle.flow_check.specs.Results.{need_of, count_of};
ghost use Rattle.flow_check.specs.Internal.{DepthsTested};

use crate::exploring::{explore, lowest_unknown};
use crate::jumps::check_jumps;
use crate::measuring::check_depths;
use crate::spans::Span;
use control_flow::{Refusal, Row};

// What the check of a routine finds where it passes: the greatest number of stack bytes that its instructions use, and how many instructions there are
// with those counted before it.
#[derive(Clone, Copy, Debug, PartialEq, Eq)]
pub struct Measured {
    pub need: usize,
    pub count: usize,
}

// What routines are explored with, one after the other: the depth that is held at each code offset, 0 where none is known, and the offsets that are
// still to be visited.
#[derive(Drop)]
pub struct Trail {
    pub depths: [u32; 4096],
    pub stack: [u16; 4096],
}

// 7 where the depths disagree, else 11, 12 and 14.
fn check_agreed(
    agree: bool,
    span: Span,
    cells: &[Row; 4096],
    needs: &[u16; 32],
    counted: usize,
    depths: &[u32; 4096],
    marks: &mut [u16],
) -> Result<Measured, Refusal>
    requires { (span.end ≤ length marks.old) × (counted ≤ span.entry) }
    ensures depths_tested { let x = routine span.entry span.end cells.now in agree ≡ true →
        Measurable x middle (held_in depths.now) marks.old counted →
        DepthsTested x needs.now middle (held_in depths.now) marks.old counted
        (number_of result) (at_of result) marks.new (need_of result) (count_of result) }
    ensures disagrees { agree ≡ false → (number_of result ≡ 7) × (at_of result ≡ span.entry) }
{
    if agree {
        check_depths(span, cells, needs, counted, depths, marks)
    } else {
        Err(Refusal {
            number: 7,
            at: span.entry,
        })
    }
}

// Its passes, one after the other. Where 11, 12 and 14 pass everywhere, every start has a depth and is reached; only where one of them fails, or 7,
// a start that is not reached is looked for, since 6 comes first.
fn check_passes(
    span: Span,
    cells: &[Row; 4096],
    needs: &[u16; 32],
    counted: usize,
    trail: &mut Trail,
    marks: &mut [u16],
) -> Result<Measured, Refusal>
    requires { (span.entry < span.end) × (span.end ≤ length marks.old) × (counted ≤ span.entry) }
    ensures { let x = routine span.entry span.end cells.now in Checkable x trail.old.depths trail.old.stack →
        FlowOutcome x needs.now marks.old counted (number_of result) (at_of result) marks.new (need_of result) (count_of result)
        × Left x trail.old.depths trail.new.depths trail.new.stack }
{
    check_jumps(span, cells)?;
    let agree = explore(span.entry, cells, trail);
    let measured = check_agreed(agree, span, cells, needs, counted, &trail.depths, marks);
    let Err(later) = measured else {
        return measured;
    };
    match lowest_unknown(span, cells, &trail.depths) {
        Some(at) => Err(Refusal { number: 6, at }),
        None => Err(later),
    }
}

// 13 and 10; 6 at the lowest unreached start; 7 at the first byte where two paths disagree on a depth; 11, 12 and 14. Where it passes the marks hold
// depth + 1 at each of its starts. Of a routine that is not decoded, or whose depths are not clear, the answer and what is written are left free; so
// they are where there are fewer marks than its end, or more is counted than its first offset.
pub fn check_flow(
    entry: usize,
    end: usize,
    cells: &[Row; 4096],
    needs: &[u16; 32],
    counted: usize,
    trail: &mut Trail,
    marks: &mut [u16],
) -> Result<Measured, Refusal>
    ensures { let x = routine entry end cells.now in Checkable x trail.old.depths trail.old.stack →
        end ≤ length marks.old → counted ≤ entry →
        FlowOutcome x needs.now marks.old counted (number_of result) (at_of result) marks.new (need_of result) (count_of result)
        × Left x trail.old.depths trail.new.depths trail.new.stack }
{
    if end <= entry || 4096 < end || marks.len() < end || entry < counted {
        return Ok(Measured {
            need: 0,
            count: counted,
        });
    }
    check_passes(Span { entry, end }, cells, needs, counted, trail, marks)
}
