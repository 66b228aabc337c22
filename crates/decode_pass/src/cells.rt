// The cells of a start: what the check has to know of its instruction once it is decoded, as a row of numbers. The numbers 255, 256 and 65535 for no
// routine, no depth and no offset are those of the definitions of acceptance, which the check by cells compares as numbers.
ghost use Rattle.std.specs.Prelude.{◌≡◌, List, ℕ, ◌+◌, ◌<◌, ◌≤◌, IfSome, unwrap_or};
ghost use Rattle.stm8.specs.Effects.{relative as relative_to};
ghost use Rattle.image.specs.Image.{base_of, start_of, end_of};
ghost use Rattle.image.specs.Lengths.{Begins};
ghost use Rattle.rules.specs.Paths.{callee as callee_of};
ghost use Rattle.acceptance.specs.Cells.{fall_cell, target_cell, jump_cell, store_cell, callee_cell, call_cell};
ghost use Rattle.decode_pass.specs.Pass.{RoutineOf};
ghost use Rattle.decode_pass.specs.Internal.{Room, row_of};

use crate::Routine;
use code::{popped, pushed};
use control_flow::Row;
use effects::{bytes_wide, relative};
use image::{Limits, granted};
use stm8::{Effect, Flow, Place};

// The address that a relative jump or call goes to; `next` is the offset after it.
fn target(base: u16, next: usize, offset: u8) -> usize
    requires { next ≤ 4096 }
    ensures { result ≡ relative_to (base + next) offset }
{
    relative((base as usize + next) as u32, offset)
}

// 1 + the offset of an address of the routine, 65535 for any other.
fn target_cell(base: u16, start: usize, end: usize, address: usize) -> u16
    requires { (start ≤ 4096) × (end ≤ 4096) }
    ensures { result ≡ target_cell base start end address }
{
    let base = usize::from(base);
    if address < base + start || base + end <= address {
        65535
    } else {
        (address - base + 1) as u16
    }
}

// The least depth at which a store is allowed, 256 where it is at none.
fn store_cell(limits: Limits, place: Place) -> u16
    ensures { result ≡ store_cell limits place }
{
    match place {
        Place::Nowhere => 0,
        Place::Direct(a, w) => {
            if granted(limits, a, bytes_wide(w) as u8) {
                0
            } else {
                256
            }
        }
        Place::OnStack(f, w) => {
            if f == 0 {
                256
            } else {
                u16::from(f) + (bytes_wide(w) - 1) as u16
            }
        }
        Place::Pushed(_) => 0,
    }
}

// The callee of a call from routine r, where the call goes to an earlier routine's first byte. Where r is above 32 the answer is left free.
pub fn callee(begins: &[u16; 32], base: u16, r: usize, address: usize) -> Option<usize>
    ensures found { (image : List ℕ) → r ≤ 32 → base ≡ base_of image → Begins image begins.now r →
        unwrap_or result r ≡ callee_of image r address }
    ensures earlier { IfSome result (λ k. k < r) }
{
    let base = usize::from(base);
    if 32 < r || address < base {
        return None;
    }
    let offset = address - base;
    begins[..r]
        .iter()
        .position(|begin| usize::from(*begin) == offset)
}

// 1 + the callee's place in the table, 255 where it is no earlier routine.
fn callee_cell(begins: &[u16; 32], base: u16, r: usize, address: usize) -> u16
    requires { r ≤ 32 }
    ensures { (image : List ℕ) → base ≡ base_of image → Begins image begins.now r → result ≡ callee_cell image r address }
{
    match callee(begins, base, r, address) {
        Some(k) => (k + 1) as u16,
        None => 255,
    }
}

// The ways on from an instruction, as cells: by falling, by a jump and by a call, 0 for each that it has not.
#[derive(Clone, Copy)]
struct Ways {
    fall: u16,
    jump: u16,
    call: u16,
}

// The ways on from an instruction of a routine that ends at `next`.
#[tactic(auto, unfolding(stm8::specs::Effects::jump_target, stm8::specs::Effects::call_target))]
fn ways_on(r: Routine, begins: &[u16; 32], next: usize, flow: Flow) -> Ways
    requires { Room r next }
    ensures fall { result.fall ≡ fall_cell flow next }
    ensures jump { (image : List ℕ) → RoutineOf image r →
        result.jump ≡ jump_cell (base_of image) (start_of image r.index) (end_of image r.index) next flow }
    ensures call { (image : List ℕ) → RoutineOf image r → Begins image begins.now r.index → result.call ≡ call_cell image r.index next flow }
{
    let fall = (next + 1) as u16;
    match flow {
        Flow::Next => Ways {
            fall,
            jump: 0,
            call: 0,
        },
        Flow::Branch(n) => {
            let jump = target_cell(r.base, r.start, r.end, target(r.base, next, n));
            Ways {
                fall,
                jump,
                call: 0,
            }
        }
        Flow::Jump(n) => {
            let jump = target_cell(r.base, r.start, r.end, target(r.base, next, n));
            Ways {
                fall: 0,
                jump,
                call: 0,
            }
        }
        Flow::Call(a) => {
            let call = callee_cell(begins, r.base, r.index, usize::from(a));
            Ways {
                fall,
                jump: 0,
                call,
            }
        }
        Flow::CallRelative(n) => {
            let call = callee_cell(begins, r.base, r.index, target(r.base, next, n));
            Ways {
                fall,
                jump: 0,
                call,
            }
        }
        Flow::Return => Ways {
            fall: 0,
            jump: 0,
            call: 0,
        },
    }
}

// The row of a start whose instruction has this effect and ends at `next`.
pub(crate) fn row_of(r: Routine, begins: &[u16; 32], next: usize, e: Effect) -> Row
    requires { Room r next }
    ensures { (image : List ℕ) → RoutineOf image r → Begins image begins.now r.index →
        result ≡ row_of image r.limits r.index next e }
{
    let ways = ways_on(r, begins, next, e.flow);
    let pops = popped(e) as u16;
    let pushes = pushed(e) as u16;
    let store = store_cell(r.limits, e.place);
    Row {
        start: 1,
        fall: ways.fall,
        jump: ways.jump,
        pops,
        pushes,
        store,
        call: ways.call,
    }
}
