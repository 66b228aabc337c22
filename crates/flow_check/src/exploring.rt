// Exploring the control flow of one routine: every reached start once, with the depth of a path to it.
ghost use Rattle.std.specs.Prelude.{◌≡◌, ℕ, ◌+◌, ◌-◌, ◌<◌, ◌≤◌, ◌↔◌, IsTrue, MatchOption, length, slice_index};
ghost use Rattle.control_flow.specs.Graph.{column, graph};
ghost use Rattle.control_flow.specs.Routine.{routine};
ghost use Rattle.control_flow.specs.Exploring.{middle, Followed, DepthAfter, Ready, Visited, Explorable, Explored, LowestUnknown};
ghost use Rattle.flow_check.specs.Internal.{Followable, Noted, OnTop};

use crate::Trail;
use crate::spans::{Exploration, Span, Stop};
use control_flow::Row;

// What is held for depth 0: `middle` of the definitions.
pub(crate) const MIDDLE: usize = 536870912;

// One edge, to offset `to` - 1, where the depth is `depth`; there is none where `to` is 0.
fn follow(to: u16, depth: u32, trail: &mut Trail, e: Exploration) -> Exploration
    requires { e.height ≤ 4096 }
    ensures height_bound { result.height ≤ e.height + 1 }
    ensures followed { Followable to depth trail.old.depths trail.old.stack e.height →
        Followed to depth trail.old.depths trail.old.stack e.height e.agree trail.new.depths trail.new.stack result.height result.agree
        × (Noted trail.old.depths trail.old.stack e → Noted trail.new.depths trail.new.stack result) }
{
    if to == 0 {
        return e;
    }
    let at = (to - 1) as usize % 4096;
    let old = trail.depths[at];
    if old == 0 {
        trail.depths[at] = depth;
        trail.stack[e.height % 4096] = at as u16;
        return Exploration {
            height: e.height + 1,
            newest: Some(Stop { at, depth }),
            agree: e.agree,
        };
    }
    if old == depth {
        return e;
    }
    Exploration { agree: false, ..e }
}

// The depth after an instruction that pushes and pops so many bytes.
fn depth_after(depth: u32, pushed: u16, popped: u16) -> u32
    ensures { 65536 ≤ depth → depth ≤ 4000000000 → DepthAfter 65535 depth pushed popped result }
{
    depth
        .wrapping_add(u32::from(pushed))
        .wrapping_sub(u32::from(popped))
}

// A stop, which has left the stack, is visited: each of its edges is followed.
fn visit(cells: &[Row; 4096], trail: &mut Trail, stop: Stop, e: Exploration) -> Exploration
    requires { e.height < 4096 }
    ensures height_bound { result.height ≤ e.height + 2 }
    ensures visited { Ready (graph stop.at cells.now) trail.old.depths e.height stop.at → length trail.old.stack ≡ 4096 →
        stop.depth ≡ slice_index trail.old.depths stop.at →
        ((entry : ℕ) → Visited 65535 (graph entry cells.now) stop.at
        trail.old.depths trail.old.stack e.height e.agree trail.new.depths trail.new.stack result.height result.agree)
        × (Noted trail.old.depths trail.old.stack e → Noted trail.new.depths trail.new.stack result) }
{
    let row = cells[stop.at];
    let after = depth_after(stop.depth, row.pushes, row.pops);
    let fallen = follow(row.fall, after, trail, e);
    follow(row.jump, after, trail, fallen)
}

// The offset on top of the stack, and its depth.
fn top(trail: &Trail, e: Exploration) -> Stop
    requires { (1 ≤ e.height) × (e.height ≤ 4096) }
    ensures { Noted trail.now.depths trail.now.stack e → slice_index trail.now.stack (e.height - 1) < 4096 →
        OnTop trail.now.depths trail.now.stack e.height result }
{
    match e.newest {
        Some(stop) => stop,
        None => {
            let at = usize::from(trail.stack[e.height - 1]) % 4096;
            let depth = trail.depths[at];
            Stop { at, depth }
        }
    }
}

// At every offset that is reached from the entry the depth of a path to it is noted. Says whether all paths agree on every depth. Each visit is of
// another offset, so there are 4,096 at most.
pub(crate) fn explore(entry: usize, cells: &[Row; 4096], trail: &mut Trail) -> bool
    requires { entry < 4096 }
    ensures { Explorable (graph entry cells.now) trail.old.depths trail.old.stack →
        Explored middle (graph entry cells.now) trail.old.depths trail.new.depths result × (length trail.new.stack ≡ 4096) }
{
    trail.depths[entry] = MIDDLE as u32;
    trail.stack[0] = entry as u16;
    let mut e = Exploration {
        height: 1,
        newest: None,
        agree: true,
    };
    for _ in 0..4096usize {
        if e.height == 0 {
            return e.agree;
        }
        let stop = top(&*trail, e);
        let rest = Exploration {
            height: e.height - 1,
            newest: None,
            agree: e.agree,
        };
        e = visit(cells, trail, stop, rest);
    }
    e.agree
}

// The lowest start of a routine whose depth is not known.
pub(crate) fn lowest_unknown(span: Span, cells: &[Row; 4096], depths: &[u32; 4096]) -> Option<usize>
    ensures { MatchOption result (LowestUnknown (routine span.entry span.end cells.now) depths.now span.end)
        (λ at. (at < span.end) × LowestUnknown (routine span.entry span.end cells.now) depths.now at) }
{
    (span.entry..span.end).find(
        |at| -> bool
            requires { at.now < 4096 }
            ensures { IsTrue result ↔ (1 ≤ column 0 cells.entry.now at.now) × (slice_index depths.entry.now at.now ≡ 0) }
        {
            let row = cells[*at];
            row.start != 0 && depths[*at] == 0
        },
    )
}
