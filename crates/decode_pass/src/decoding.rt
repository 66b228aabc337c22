// The starts of a routine, one after the other.
ghost use Rattle.std.specs.Prelude.{◌≡◌, List, ℕ, [], ◌≤◌, ◌<◌, IfOk, MatchResult};
ghost use Rattle.code.specs.Code.{Start};
ghost use Rattle.control_flow.specs.Refusing.{number_of, at_of};
ghost use Rattle.decode_pass.specs.Pass.{Given, NoStarts, RoutineDecoded};
ghost use Rattle.decode_pass.specs.Internal.{OffEnd, Small, StartDecoded};

use crate::Routine;
use crate::cells::row_of;
use code::{decode_at, falls};
use control_flow::{Refusal, Row};
use decoder::decoding_number;
use effects::effect_of;
use stm8::Flow;

// What one start gives: the offset after its instruction, and its cells.
#[derive(Clone, Copy)]
struct Decoding {
    next: usize,
    row: Row,
}

// Whether control falls off the routine.
fn off_end(end: usize, next: usize, flow: Flow) -> bool
    ensures { OffEnd end next flow result }
{
    falls(flow) && end <= next
}

// One start: 8 or 9, then 15, else its cells, and where the next start is.
fn decode_start(code: &[u8], begins: &[u16; 32], r: Routine, at: usize) -> Result<Decoding, Refusal>
    requires { Small r at }
    ensures ahead { IfOk result (λ d. (at < d.next) × (d.next ≤ r.end)) }
    ensures decoded { (image : List ℕ) → Given image code.now begins.now r → Start image r.index at →
        MatchResult result (λ d. StartDecoded image r at 0 d.next d.row) (λ e. (e.at ≡ at) × StartDecoded image r at e.number 0 []) }
{
    let d = decode_at(r.version, code, at, r.end);
    let Ok((i, n)) = d else {
        return Err(Refusal {
            number: decoding_number(d),
            at,
        });
    };
    let e = effect_of(i);
    let next = at + n;
    if off_end(r.end, next, e.flow) {
        return Err(Refusal { number: 15, at });
    }
    let row = row_of(r, begins, next, e);
    Ok(Decoding { next, row })
}

// Every start, rising, to the routine's end or to the first refusal.
pub(crate) fn decode_starts(
    code: &[u8],
    begins: &[u16; 32],
    r: Routine,
    cells: &mut [Row; 4096],
) -> Result<(), Refusal>
    requires { (r.end ≤ 4096) × (r.index ≤ 32) }
    ensures { (image : List ℕ) → Given image code.now begins.now r → NoStarts r.start cells.old →
        RoutineDecoded image r cells.new (number_of result) (at_of result) }
{
    let mut at = r.start;
    // A step is as long as its instruction, which is known once it is decoded: no range has these offsets.
    while at < r.end {
        let d = decode_start(code, begins, r, at)?;
        cells[at] = d.row;
        at = d.next;
    }
    Ok(())
}
