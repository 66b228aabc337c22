// The sweep over the routines: 6 to 15.
ghost use Rattle.std.specs.Prelude.{◌≡◌, List, ℕ, ◌<◌, OnOk, replicate};
ghost use Rattle.image.specs.Image.{size_of, start_of, end_of};
ghost use Rattle.image.specs.Lengths.{Begins};
ghost use Rattle.image.specs.Validation.{validated};
ghost use Rattle.image.specs.declared.Limits.{Limits};
ghost use Rattle.image.specs.Validated.{Valid};
ghost use Rattle.control_flow.specs.Refusing.{number_of, at_of};
ghost use Rattle.flow_check.specs.Results.{need_of, count_of};
ghost use Rattle.acceptance.specs.Passed.{RoutineChecked, RoutinesPassed};
ghost use Rattle.decode_pass.specs.Pass.{RoutineOf};
ghost use Rattle.checker.specs.Internal.{Clean, Swept, Small};

use crate::valid::ValidImage;
use control_flow::{Refusal, Row};
use decode_pass::{Routine, decode_routine};
use flow_check::{Measured, Trail, check_flow};
use image::{Layout, Limits, begin_at, code_at};

// What is known of the routines that are done: the number of their starts, and their needs.
#[derive(Clone, Copy)]
pub(crate) struct Sweep {
    pub count: usize,
    pub needs: [u16; 32],
}

// What the routines are checked with, one after the other: the cells of each code offset, and what their exploration goes by.
#[derive(Drop)]
struct Workspace {
    cells: [Row; 4096],
    trail: Trail,
}

// Where a routine ends: where the next one begins, or with the code.
fn end_of(layout: Layout, begins: &[u16; 32], index: usize) -> usize
    ensures { (image : List ℕ) (limits : Limits) → validated image limits ≡ Valid layout →
        Begins image begins.now layout.count → index < layout.count → result ≡ end_of image index }
{
    if index < 31 && index + 1 < layout.count {
        begin_at(begins, index + 1)
    } else {
        layout.size
    }
}

// The routine at an index, by where it begins. Past the last one its end is left free.
pub fn routine_at(
    limits: Limits,
    layout: Layout,
    begins: &[u16; 32],
    index: usize,
    start: usize,
) -> Routine
    ensures routine { (image : List ℕ) → validated image limits ≡ Valid layout → Begins image begins.now layout.count →
        index < layout.count → start ≡ start_of image index → RoutineOf image result }
    ensures place { (result.index ≡ index) × (result.start ≡ start) × (result.limits ≡ limits) }
{
    let end = end_of(layout, begins, index);
    Routine {
        index,
        start,
        end,
        version: layout.version,
        base: layout.base,
        limits,
    }
}

// The next routine: 8, 9 and 15 over all its starts, then by its cells.
fn check_routine(
    image: &[u8],
    begins: &[u16; 32],
    r: Routine,
    done: &Sweep,
    work: &mut Workspace,
    marks: &mut [u16],
) -> Result<Measured, Refusal>
    requires { RoutineOf image.now r × Begins image.now begins.now r.index × Clean r.start work.old
        × RoutinesPassed image.now r.limits r.index done.now.needs marks.old done.now.count }
    ensures routine_checked { RoutineChecked image.now r.limits done.now.needs r.index
        marks.old (number_of result) (at_of result) marks.new (need_of result) (count_of result) }
    ensures clean { OnOk result (Clean r.end work.new) }
{
    let code = code_at(image);
    decode_routine(&image[code..], begins, r, &mut work.cells)?;
    check_flow(
        r.start,
        r.end,
        &work.cells,
        &done.needs,
        done.count,
        &mut work.trail,
        marks,
    )
}

// Every routine in table order, so that a callee's need is there before its callers', to the first refusal. The arrays by code offset are cleared
// once for the whole code.
pub(crate) fn sweep_routines(valid: ValidImage, marks: &mut [u16]) -> Result<Sweep, Refusal>
    requires { marks.old ≡ replicate (size_of valid.image.now) 0 }
    ensures swept { Swept valid.entry.image.now valid.entry.limits marks.new result }
    ensures small { Small result }
{
    let mut work = Workspace {
        cells: [Row::NONE; 4096],
        trail: Trail {
            depths: [0; 4096],
            stack: [0; 4096],
        },
    };
    let mut done = Sweep {
        count: 0,
        needs: [0; 32],
    };
    let mut start = 0;
    for index in 0..valid.layout.count {
        let r = routine_at(valid.limits, valid.layout, valid.begins, index, start);
        let measured = check_routine(valid.image, valid.begins, r, &done, &mut work, marks)?;
        done.needs[index] = measured.need as u16;
        done.count = measured.count;
        start = r.end;
    }
    Ok(done)
}
