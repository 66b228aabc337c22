// Compares steps with data/steps.bin: a record for each step that a simulator made, with the code, the registers and the memory cells
// before it, and the registers and the cells written after it.
#![tactic(auto)]

ghost use Rattle.std.specs.Prelude.{◌≡◌, true, ◌≤◌, IfOk};
ghost use Rattle.recorded_steps.specs.Record.{longest_image, cells_before, cells_after, Goes, AsRecorded};

use console::read_full;
use image::limits_of;
use machine::{Registers, StepAnswer};
use std::io::Read;
use std::{fs, io};
use vectors::{put_cells, registers_of};

// The bytes of a record.
const RECORD: usize = 46;

// The most records that are read.
const MOST: u64 = 10000;

#[derive(Clone, Copy)]
struct Totals {
    steps: u64,
    differences: u64,
}

// An image with one routine at the record's PC, and room for five bytes of code.
fn longest_image(recorded: &[u8; RECORD]) -> [u8; 15]
    ensures { result ≡ longest_image recorded.now }
{
    let [length, a, b, c, d, e, ..] = *recorded;
    let (page, offset) = (recorded[15], recorded[16]);
    [
        b'S', b'L', b'U', 0, 1, page, offset, 1, 0, length, a, b, c, d, e,
    ]
}

fn same_registers(r: Registers, s: Registers) -> bool
    ensures { result ≡ true → r ≡ s }
{
    (r.a, r.x, r.y, r.cc, r.sp, r.pc) == (s.a, s.x, s.y, s.cc, s.sp, s.pc)
}

// Whether two memories are the same. Every cell is looked at, whatever those before it hold: so the compiler takes many at once, and a record takes a
// ninth of the time that it takes where the first difference ends it.
fn same_memory(a: &[u8], b: &[u8]) -> bool
    ensures { result ≡ true → a.now ≡ b.now }
{
    if a.len() != b.len() {
        return false;
    }
    let mut same = true;
    for k in 0..a.len() {
        same &= a[k] == b[k];
    }
    same
}

// Whether a step is made and leaves the registers and the memory expected, under grant 0000-14FF, stack 1600-17FF and no second grant: under
// these every record is a step made.
fn goes(
    image: &[u8],
    before: Registers,
    memory: &mut [u8],
    after: Registers,
    expected: &[u8],
) -> bool
    ensures { result ≡ true → Goes image.now before memory.old after expected.now }
{
    let limits = limits_of(b"\x00\x00\x14\xFF\x16\x00\x17\xFF\xFF\xFF\x00\x00");
    let stepped = machine::step(image, limits, before, memory).stepped;
    match stepped.answer {
        StepAnswer::Made => same_registers(stepped.registers, after)
            && same_memory(memory, expected),
        _ => false,
    }
}

// Puts a record's cells into two blank memories: those before the step into the first, and those before and after it into the second.
fn lay_out(recorded: &[u8; RECORD], memory: &mut [u8], expected: &mut [u8])
    ensures memory_after { memory.new ≡ cells_before recorded.now memory.old }
    ensures expected_after { expected.new ≡ cells_after recorded.now expected.old }
{
    put_cells(memory, &recorded[17..29]);
    put_cells(expected, &recorded[17..29]);
    put_cells(expected, &recorded[40..46]);
}

// Whether the step goes as its record says, from memory that is blank but for the record's cells.
fn as_recorded(recorded: &[u8; RECORD], memory: &mut [u8], expected: &mut [u8]) -> bool
    ensures { result ≡ true → AsRecorded recorded.now memory.old expected.old }
{
    let end = 10 + recorded[0] as usize;
    if 15 < end {
        return false;
    }
    lay_out(recorded, memory, expected);
    let image = longest_image(recorded);
    goes(
        &image[..end],
        registers_of(&recorded[6..17]),
        memory,
        registers_of(&recorded[29..40]),
        expected,
    )
}

// Whether the step of the next record goes as recorded, from zeros; none at the end of the file.
fn compare_next(file: &mut impl Read) -> io::Result<Option<bool>> {
    let mut bytes = [0u8; RECORD];
    if read_full(file, &mut bytes)? < RECORD {
        return Ok(None);
    }
    let mut memory = [0u8; 32768];
    let mut expected = [0u8; 32768];
    Ok(Some(as_recorded(&bytes, &mut memory, &mut expected)))
}

fn compare(file: &mut impl Read) -> io::Result<Totals>
    ensures { IfOk result (λ totals. totals.differences ≤ totals.steps) }
{
    let mut differences = 0;
    for steps in 0..MOST {
        match compare_next(file)? {
            None => return Ok(Totals { steps, differences }),
            Some(same) => differences += u64::from(!same),
        }
    }
    Ok(Totals {
        steps: MOST,
        differences,
    })
}

fn main(rt: HostRuntime) -> io::Result<()> {
    let totals = compare(&mut fs::open(&rt, "steps.bin")?)?;
    println!(rt;
        "{} steps, {} differences",
        totals.steps, totals.differences
    )
}
