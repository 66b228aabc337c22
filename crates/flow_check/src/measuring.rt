// Depths by the cells of a routine: 11, 12 and 14, the need, the count and the marks.
ghost use Rattle.std.specs.Prelude.{◌≡◌, ℕ, ◌+◌, ◌<◌, ◌≤◌, length, IfErr, MatchResult};
ghost use Rattle.control_flow.specs.Graph.{cells as held_in};
ghost use Rattle.control_flow.specs.Routine.{routine};
ghost use Rattle.control_flow.specs.Refusing.{number_of, at_of};
ghost use Rattle.control_flow.specs.Exploring.{middle};
ghost use Rattle.control_flow.specs.Measuring.{DepthStep, Measurable};
ghost use Rattle.flow_check.specs.Results.{need_of, count_of};
ghost use Rattle.flow_check.specs.Internal.{row_number, DepthsTested};

use crate::Measured;
use crate::exploring::MIDDLE;
use crate::spans::Span;
use crate::uses::used;
use control_flow::{Refusal, Row};

// 11, 12 or 14 for the instruction at an offset, where its depth is held as `held`.
fn check_depth(at: usize, held: usize, row: Row) -> Result<(), Refusal>
    requires { held ≤ 4294967295 }
    ensures number { number_of result ≡ row_number middle held row }
    ensures offset { IfErr result (λ r. r.at ≡ at) }
{
    let pops = usize::from(row.pops);
    let raised = held + usize::from(row.pushes);
    if held < MIDDLE
        || MIDDLE + 255 < held
        || raised < MIDDLE + pops
        || MIDDLE + 255 + pops < raised
    {
        return Err(Refusal { number: 11, at });
    }
    if row.fall == 0 && row.jump == 0 && held != MIDDLE {
        return Err(Refusal { number: 11, at });
    }
    if held < MIDDLE + usize::from(row.store) {
        return Err(Refusal { number: 12, at });
    }
    if 32 < row.call {
        return Err(Refusal { number: 14, at });
    }
    Ok(())
}

// One offset: nothing where it is no start, else 11, 12 and 14, its mark, its use and the count.
fn measure_at(
    at: usize,
    cells: &[Row; 4096],
    needs: &[u16; 32],
    depths: &[u32; 4096],
    marks: &mut [u16],
    m: Measured,
) -> Result<Measured, Refusal>
    requires { (at < 4096) × (at < length marks.old) × (m.count ≤ 4096) }
    ensures { (entry end : ℕ) → MatchResult result
        (λ n. DepthStep (routine entry end cells.now) needs.now middle (held_in depths.now) marks.old at m.need m.count
        0 (at + 1) marks.new n.need n.count)
        (λ r. DepthStep (routine entry end cells.now) needs.now middle (held_in depths.now) marks.old at m.need m.count
        r.number r.at marks.new m.need m.count) }
{
    let row = cells[at];
    if row.start == 0 {
        return Ok(m);
    }
    let held = depths[at] as usize;
    check_depth(at, held, row)?;
    let depth = held - MIDDLE;
    let need = m.need.max(used(depth, row, needs));
    marks[at] = (depth + 1) as u16;
    Ok(Measured {
        need,
        count: m.count + 1,
    })
}

// Every start, rising, to the end or to the first refusal.
pub(crate) fn check_depths(
    span: Span,
    cells: &[Row; 4096],
    needs: &[u16; 32],
    counted: usize,
    depths: &[u32; 4096],
    marks: &mut [u16],
) -> Result<Measured, Refusal>
    requires { (span.end ≤ length marks.old) × (counted ≤ span.entry) }
    ensures { let x = routine span.entry span.end cells.now in
        Measurable x middle (held_in depths.now) marks.old counted →
        DepthsTested x needs.now middle (held_in depths.now) marks.old counted
        (number_of result) (at_of result) marks.new (need_of result) (count_of result) }
{
    let mut m = Measured {
        need: 0,
        count: counted,
    };
    for at in span.entry..span.end {
        m = measure_at(at, cells, needs, depths, marks, m)?;
    }
    Ok(m)
}
