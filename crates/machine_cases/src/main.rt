// Replays the steps and runs of the conformance corpus (conformance/README.md has the fields of a line and the forms of an answer): prints each line
// of standard input anew, with the answer that the machine gives. No contract speaks of what is printed.
#![tactic(auto)]

ghost use Rattle.std.specs.Prelude.{◌≡◌, ◌≤◌, length, IfOk};
ghost use Rattle.machine_cases.specs.Case.{step_of, run_of};

use console::read_full;
use hexadecimal::parse;
use image::limits_of;
use machine::{Registers, RunAnswer, StepAnswer};
use numbers::words::{byte_at, word_at};
use slices::find;
use std::io;
use std::io::Write;
use vectors::{byte_text, long_at, put_cells, registers_of, registers_text, word_text};

fn print(out: &mut impl Write, text: &[u8]) -> io::Result<()> {
    out.write_all(text)
}

fn print_number(out: &mut impl Write, name: &[u8], number: u64) -> io::Result<()> {
    print(out, name)?;
    write!(out, "{number}")
}

fn print_registers(out: &mut impl Write, r: Registers) -> io::Result<()> {
    print(out, b": ")?;
    print(out, &registers_text(r))
}

fn print_cell(out: &mut impl Write, address: u16, byte: u8) -> io::Result<()> {
    print(out, b", ")?;
    print(out, &word_text(address))?;
    print(out, b" ")?;
    print(out, &byte_text(byte))
}

// The bytes of memory at the addresses of cells.
fn print_cells(out: &mut impl Write, memory: &[u8], cells: &[u8]) -> io::Result<()> {
    let mut at = 0;
    while at + 2 < cells.len() {
        let address = word_at(cells, at);
        print_cell(out, address, byte_at(memory, address as usize))?;
        at += 3;
    }
    Ok(())
}

fn print_step_answer(out: &mut impl Write, answer: StepAnswer) -> io::Result<()> {
    match answer {
        StepAnswer::Made => print(out, b"made"),
        StepAnswer::Finished => print(out, b"finished"),
        StepAnswer::Trap(number) => print_number(out, b"trap ", number as u64),
        StepAnswer::Refused(number) => print_number(out, b"refused ", number as u64),
    }
}

fn print_run_answer(out: &mut impl Write, answer: RunAnswer) -> io::Result<()> {
    match answer {
        RunAnswer::Finished => print(out, b"finished"),
        RunAnswer::Spent => print(out, b"spent"),
        RunAnswer::Trap(number) => print_number(out, b"trap ", number as u64),
        RunAnswer::Refused(number) => print_number(out, b"refused ", number as u64),
    }
}

// A step from the case's registers: its answer and its cycles are printed.
fn step_case(
    out: &mut impl Write,
    case: &[u8],
    image: &[u8],
    memory: &mut [u8],
) -> io::Result<Registers>
    requires { 25 ≤ length case.now }
    ensures value { IfOk result (λ r. r ≡ (step_of case.now image.now memory.old).0.registers) }
    ensures memory_after { memory.new ≡ (step_of case.now image.now memory.old).1 }
{
    let timed = machine::step(image, limits_of(case), registers_of(&case[14..25]), memory);
    let stepped = timed.stepped;
    let answer = stepped.answer;
    print_step_answer(out, answer)?;
    print_number(out, b", cycles ", timed.cycles)?;
    Ok(stepped.registers)
}

// A run from them: its answer, the steps made and their cycles are printed.
fn run_case(
    out: &mut impl Write,
    case: &[u8],
    image: &[u8],
    memory: &mut [u8],
) -> io::Result<Registers>
    requires { 25 ≤ length case.now }
    ensures value { IfOk result (λ r. r ≡ (run_of case.now image.now memory.old).0.registers) }
    ensures memory_after { memory.new ≡ (run_of case.now image.now memory.old).1 }
{
    let timed = machine::run(
        image,
        limits_of(case),
        registers_of(&case[14..25]),
        memory,
        long_at(case, 25),
    );
    let ran = timed.ran;
    let answer = ran.answer;
    print_run_answer(out, answer)?;
    print_number(out, b" after ", ran.steps as u64)?;
    print_number(out, b", cycles ", timed.cycles)?;
    Ok(ran.registers)
}

// Where the image begins, after its length: a run has a budget before that.
fn image_at(run: bool) -> usize
    ensures { (26 ≤ result) × (result ≤ 30) }
{
    if run { 30 } else { 26 }
}

// The answer of a case. One that is cut short has none.
fn print_answer(out: &mut impl Write, run: bool, case: &[u8], memory: &mut [u8]) -> io::Result<()> {
    let from = image_at(run);
    let end = from + byte_at(case, from - 1) as usize;
    if case.len() < end {
        return Ok(());
    }
    let image = &case[from..end];
    let cells = &case[end..];
    put_cells(memory, cells);
    let registers = if run {
        run_case(out, case, image, memory)?
    } else {
        step_case(out, case, image, memory)?
    };
    print_registers(out, registers)?;
    print_cells(out, memory, cells)
}

// The case of a line's kind and digits, from the colon on, on a memory of zeros of its size.
fn case(out: &mut impl Write, text: &[u8]) -> io::Result<()> {
    let mut bytes = [0u8; 128];
    let mut memory = [0u8; 32769];
    let run = byte_at(text, 2) == b'r';
    let n = parse(text, &mut bytes);
    let size = word_at(&bytes, 12) as usize;
    if size <= 32769 {
        print_answer(out, run, &bytes[..n], &mut memory[..size])?;
    }
    Ok(())
}

// The line of a case anew: up to its answer as it stands, then the answer that it gets here.
fn print_case(out: &mut impl Write, line: &[u8]) -> io::Result<()> {
    let colon = find(line, 0, line.len(), b':');
    let equals = find(line, colon, line.len(), b'=');
    print(out, &line[..equals])?;
    print(out, b"= ")?;
    case(out, &line[colon..equals])?;
    print(out, b"\n")
}

// Each line of a text.
fn print_cases(out: &mut impl Write, text: &[u8]) -> io::Result<()> {
    let mut at = 0;
    while at < text.len() {
        let end = find(text, at, text.len(), b'\n');
        print_case(out, &text[at..end])?;
        at = end + 1;
    }
    Ok(())
}

fn main(rt: HostRuntime) -> io::Result<()> {
    let mut text = [0u8; 65536];
    let n = read_full(&mut rt.stdin(), &mut text)?;
    print_cases(&mut rt.stdout(), &text[..n])
}
