// The gate for callers in C: numbers, slices and fixed arrays alone, one by one, so that lists of parameters are long and a number stands for each answer.
// include/gate.h has the declarations.
#![tactic(auto)]

ghost use Rattle.std.specs.Prelude.{◌≡◌, ◌<◌, [], ◌∷◌};
ghost use Rattle.rules.specs.Outcome.{values_of};
ghost use Rattle.acceptance.specs.Check.{checked};
ghost use Rattle.machine.specs.Step.{stepped};
ghost use Rattle.machine.specs.Run.{ran};
ghost use Rattle.records.specs.Recording.{two_cells, recorded};
ghost use Rattle.stm8.specs.Decoding.{decoded, decoding_number};
ghost use Rattle.image.specs.Validation.{laid_out, validation_number};
ghost use Rattle.turns.specs.Turn.{turned};
ghost use Rattle.turns.specs.Values.{values_of as turn_values};
ghost use Rattle.saved_state.specs.Sls.{saved as saved_of};
ghost use Rattle.layout_cells.specs.Cells.{layout_cells};
ghost use Rattle.gate_c.specs.Cells.{limits_in, registers_in, register_cells, report_cells, record_in, record_cells, back_cells};
ghost use Rattle.gate_c.specs.Cells.{decoded_length, text_cells, cycle_cells, started_by, started_cells, stepped_cells, ran_cells, ResumedInto};

use decoder::decoding_number;
use disassembly::disassemble;
use gate::{
    Area, Limits, Record, Registers, Verdict, check, run, run_number, start, step, step_back,
    step_number, turn,
};
use layout_cells::layout_of;
use resuming::{resume, resume_number, resume_offset};
use rules::verdict_number;
use saved_state::save;
use stm8::Decoded;
use timing::decode_timed_for;
use turns::values_of;

fn limits_in(cells: &[u16; 6]) -> Limits
    ensures { result ≡ limits_in cells.now }
{
    Limits {
        grant: Area {
            low: cells[0],
            high: cells[1],
        },
        stack: Area {
            low: cells[2],
            high: cells[3],
        },
        second: Area {
            low: cells[4],
            high: cells[5],
        },
    }
}

// What a report has.
fn offset_need_count(verdict: Verdict) -> [u16; 3]
    ensures { result ≡ report_cells verdict }
{
    match verdict {
        Ok(accepted) => [0, accepted.need, accepted.count],
        Err(refused) => [refused.offset, 0, 0],
    }
}

fn registers_in(cells: &[u32; 6]) -> Registers
    ensures { result ≡ registers_in cells.now }
{
    Registers {
        a: (cells[0] % 256) as u8,
        x: (cells[1] % 65536) as u16,
        y: (cells[2] % 65536) as u16,
        cc: (cells[3] % 256) as u8,
        sp: (cells[4] % 65536) as u16,
        pc: cells[5],
    }
}

// They are read back as they were.
fn register_cells(r: Registers) -> [u32; 6]
    ensures value { result ≡ register_cells r }
    ensures result_value { registers_in result ≡ r }
{
    [
        r.a as u32,
        r.x as u32,
        r.y as u32,
        r.cc as u32,
        r.sp as u32,
        r.pc,
    ]
}

// The registers' cells, then count, and each byte's address and value. A value is read by its low 8 bits, count and addresses whole.
fn record_in(cells: &[u32; 11]) -> Record
    ensures { result ≡ record_in cells.now }
{
    let registers = [cells[0], cells[1], cells[2], cells[3], cells[4], cells[5]];
    Record {
        registers: registers_in(&registers),
        count: cells[6],
        addresses: [cells[7], cells[9]],
        values: [(cells[8] % 256) as u8, (cells[10] % 256) as u8],
    }
}

// A byte in its cell.
fn byte_cell(n: u8) -> u32
    ensures { (result ≡ n) × (result < 256) }
{
    n as u32
}

// It is read back as it was.
fn record_cells(r: Record) -> [u32; 11]
    ensures value { result ≡ record_cells r }
    ensures result_value { record_in result ≡
        record { registers = r.registers; count = r.count; addresses = two_cells r.addresses; values = two_cells r.values } }
{
    let registers = register_cells(r.registers);
    let addresses = r.addresses;
    let values = r.values;
    let lower = byte_cell(values[0]);
    let upper = byte_cell(values[1]);
    [
        registers[0],
        registers[1],
        registers[2],
        registers[3],
        registers[4],
        registers[5],
        r.count,
        addresses[0],
        lower,
        addresses[1],
        upper,
    ]
}

// Checks an image under limits.
#[unsafe(no_mangle)]
pub extern "C" fn gate_check(
    image: &[u8],
    limits: &[u16; 6],
    marks: &mut [u16],
    report: &mut [u16; 3],
) -> u8
    ensures value { result ≡
        (values_of (checked image.now (limits_in limits.now) marks.old).0).number }
    ensures report_after { report.new ≡
        report_cells (checked image.now (limits_in limits.now) marks.old).0 }
    ensures marks_after { marks.new ≡
        (checked image.now (limits_in limits.now) marks.old).1 }
{
    let verdict = check(image, limits_in(limits), marks);
    *report = offset_need_count(verdict);
    verdict_number(verdict)
}

// Starts a routine: 17, then the whole check. Registers come in with A, X, Y and CC, and go out as those to go on from.
#[unsafe(no_mangle)]
pub extern "C" fn gate_start(
    image: &[u8],
    limits: &[u16; 6],
    marks: &mut [u16],
    memory: &mut [u8],
    registers: &mut [u32; 6],
    report: &mut [u16; 3],
) -> u8
    ensures registers_value { started_cells image.now (limits_in limits.now)
        marks.old memory.old registers.old ≡
        record { number = result; report = report.new; registers = registers.new; marks = marks.new; memory = memory.new } }
    ensures registers_after { registers_in registers.new ≡
        (started_by image.now (limits_in limits.now)
        marks.old memory.old (registers_in registers.old)).started.registers }
{
    let given = registers_in(registers);
    let s = start(
        image,
        limits_in(limits),
        marks,
        memory,
        given.a,
        given.x,
        given.y,
        given.cc,
    );
    let verdict = s.verdict;
    *registers = register_cells(s.registers);
    *report = offset_need_count(verdict);
    verdict_number(verdict)
}

// Makes one step, and hands out its record.
#[unsafe(no_mangle)]
pub extern "C" fn gate_step(
    image: &[u8],
    limits: &[u16; 6],
    memory: &mut [u8],
    registers: &mut [u32; 6],
    cycles: &mut [u64; 1],
    before: &mut [u32; 11],
) -> u8
    ensures memory_value { stepped_cells image.now (limits_in limits.now) registers.old memory.old ≡
        record {
          number = result;
          registers = registers.new;
          cycles = cycles.new;
          before = before.new;
          memory = memory.new;
        } }
    ensures registers_after { registers_in registers.new ≡
        (stepped image.now (limits_in limits.now)
        (registers_in registers.old) memory.old).0.registers }
    ensures before_after { record_in before.new ≡
        recorded image.now (limits_in limits.now) (registers_in registers.old) memory.old }
{
    let s = step(image, limits_in(limits), registers_in(registers), memory);
    let stepped = s.stepped;
    let answer = stepped.answer;
    *registers = register_cells(stepped.registers);
    *cycles = [s.cycles];
    *before = record_cells(s.record);
    step_number(answer)
}

// Steps back by a record.
#[unsafe(no_mangle)]
pub extern "C" fn gate_step_back(
    before: &[u32; 11],
    memory: &mut [u8],
    registers: &mut [u32; 6],
) -> u8
    ensures memory_value { back_cells before.now memory.old ≡
        record { number = result; registers = registers.new; memory = memory.new } }
    ensures registers_after { registers_in registers.new ≡ registers_in before.now }
{
    let back = step_back(record_in(before), memory);
    *registers = register_cells(back.registers);
    back.number
}

// Makes steps until the routine finishes, traps or the budget is used up.
#[unsafe(no_mangle)]
pub extern "C" fn gate_run(
    image: &[u8],
    limits: &[u16; 6],
    memory: &mut [u8],
    registers: &mut [u32; 6],
    budget: u32,
    steps: &mut [u32; 1],
    cycles: &mut [u64; 1],
) -> u8
    ensures memory_value { ran_cells budget image.now (limits_in limits.now) registers.old memory.old ≡
        record {
          number = result;
          registers = registers.new;
          steps = steps.new;
          cycles = cycles.new;
          memory = memory.new;
        } }
    ensures registers_after { registers_in registers.new ≡
        (ran budget image.now (limits_in limits.now)
        (registers_in registers.old) memory.old).0.registers }
{
    let timed = run(
        image,
        limits_in(limits),
        registers_in(registers),
        memory,
        budget,
    );
    let ran = timed.ran;
    let answer = ran.answer;
    *registers = register_cells(ran.registers);
    *steps = [ran.steps];
    *cycles = [timed.cycles];
    run_number(answer)
}

// Saves registers and steps as a record.
#[unsafe(no_mangle)]
pub extern "C" fn gate_save(registers: &[u32; 6], steps: u64, saved: &mut [u8; 23]) -> u8
    ensures value { result ≡ (saved_of (registers_in registers.now) steps).number }
    ensures saved_after { saved.new ≡ (saved_of (registers_in registers.now) steps).bytes }
{
    let record = save(registers_in(registers), steps);
    let bytes = record.bytes;
    *saved = bytes;
    record.number
}

// Resumes from a record: 17, then the whole check, then 34 and 35; else the run goes on.
#[unsafe(no_mangle)]
pub extern "C" fn gate_resume(
    image: &[u8],
    limits: &[u16; 6],
    marks: &mut [u16],
    memory: &mut [u8],
    saved: &[u8],
    budget: u32,
    registers: &mut [u32; 6],
    steps: &mut [u64; 1],
    cycles: &mut [u64; 1],
    offset: &mut [u16; 1],
) -> u8
    ensures { ResumedInto image.now (limits_in limits.now) marks.old memory.old saved.now budget
        marks.new memory.new
        (record {
          number = result;
          registers = registers.new;
          steps = steps.new;
          cycles = cycles.new;
          offset = offset.new;
        }) }
{
    let resumed = resume(image, limits_in(limits), marks, memory, saved, budget);
    let answer = resumed.answer;
    *registers = register_cells(resumed.registers);
    *steps = [resumed.steps];
    *cycles = [resumed.cycles];
    *offset = [resume_offset(answer)];
    resume_number(answer)
}

// The text of what was decoded, written where the caller wants it, with 0 after it: no text is longer than 23 letters.
fn put_text(found: Decoded, address: u16, text: &mut [u8; 24])
    ensures { text.new ≡ text_cells address found }
{
    *text = [0u8; 24];
    if let Ok((i, _)) = found {
        let _ = disassemble(i, address, &mut text[..]);
    }
}

fn decoded_length(found: Decoded) -> usize
    ensures { result ≡ decoded_length found }
{
    found.map_or(0, |(_, n)| n)
}

// Decodes the instruction at the front of bytes, with its text as it stands at an address, and its cycles.
#[unsafe(no_mangle)]
pub extern "C" fn gate_decode(
    bytes: &[u8],
    address: u16,
    text: &mut [u8; 24],
    length: &mut [usize; 1],
    cycles: &mut [u8; 2],
) -> u8
    ensures value { result ≡ decoding_number (decoded bytes.now) }
    ensures text_after { text.new ≡ text_cells address (decoded bytes.now) }
    ensures length_after { length.new ≡ decoded_length (decoded bytes.now) ∷ [] }
    ensures cycles_after { cycles.new ≡ cycle_cells (decoded bytes.now) }
{
    // By version 0001, whose set is the whole one: then there is one caller of the decoder, and a run is the faster for it.
    let timed = decode_timed_for(1, bytes);
    let found = timed.decoded;
    let figures = timed.cycles;
    // Number and length are taken before the text is written, so that what was found need not be kept till then: nine instructions less, in the mean over
    // the op-codes.
    let number = decoding_number(found);
    let size = decoded_length(found);
    put_text(found, address, text);
    *length = [size];
    *cycles = [figures.untaken, figures.taken];
    number
}

// The layout of an image by itself: version, base, how many routines, the index of the first code byte, how many code bytes, and where each of 32
// routines begins. All cells are 0 where it is refused.
#[unsafe(no_mangle)]
pub extern "C" fn gate_layout(image: &[u8], cells: &mut [u16; 37]) -> u8
    ensures value { result ≡ validation_number (laid_out image.now) }
    ensures cells_after { cells.new ≡ layout_cells image.now (laid_out image.now) }
{
    layout_of(image, cells)
}

// The turn of an image under limits, in numbers: what kind of answer it is, the refusal's offset, and the turn.
#[unsafe(no_mangle)]
pub extern "C" fn gate_turn(
    image: &[u8],
    limits: &[u16; 6],
    marks: &mut [u16],
    offset: &mut [u16; 1],
    most: &mut [u32; 1],
) -> u8
    ensures value { result ≡ (turn_values (turned image.now (limits_in limits.now) marks.old).0).number }
    ensures offset_after { offset.new ≡
        (turn_values (turned image.now (limits_in limits.now) marks.old).0).offset ∷ [] }
    ensures most_after { most.new ≡
        (turn_values (turned image.now (limits_in limits.now) marks.old).0).turn ∷ [] }
    ensures marks_after { marks.new ≡
        (turned image.now (limits_in limits.now) marks.old).1 }
{
    let answer = turn(image, limits_in(limits), marks);
    let values = values_of(answer);
    *offset = [values.offset];
    *most = [values.turn];
    values.number
}

// The version of this library, 0.5.0: major, minor and patch, a byte each.
#[unsafe(no_mangle)]
pub extern "C" fn gate_library_version() -> u32
    ensures { result ≡ 0x000500 }
{
    0x000500
}
