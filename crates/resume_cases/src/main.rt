// Replays the saves and resumes of the conformance corpus (conformance/README.md has the fields of a line and the forms of an answer): prints each line
// of standard input anew, with what saving gives, or resuming from a saved state comes to. No contract speaks of what is printed.
#![tactic(auto)]

ghost use Rattle.std.specs.Prelude.{◌≡◌, ◌+◌, ◌≤◌, length, get_or};
ghost use Rattle.resume_cases.specs.Case.{steps_in, saved_of, ResumesCase};

use console::read_full;
use hexadecimal::parse;
use image::limits_of;
use numbers::words::{byte_at, word_at};
use resuming::{ResumeAnswer, Resumed, resume};
use saved_state::{Saved, save};
use slices::find;
use std::io;
use std::io::Write;
use vectors::{byte_text, long_at, put_cells, registers_of, registers_text, word_text};

fn print(out: &mut impl Write, text: &[u8]) -> io::Result<()> {
    out.write_all(text)
}

fn print_number(out: &mut impl Write, name: &[u8], number: u64) -> io::Result<()> {
    print(out, name)?;
    write!(out, "{number}")
}

fn print_cell(out: &mut impl Write, address: u16, byte: u8) -> io::Result<()> {
    print(out, b", ")?;
    print(out, &word_text(address))?;
    print(out, b" ")?;
    print(out, &byte_text(byte))
}

// The bytes of memory at the addresses of cells.
fn print_cells(out: &mut impl Write, memory: &[u8], cells: &[u8]) -> io::Result<()> {
    let mut at = 0;
    while at + 2 < cells.len() {
        let address = word_at(cells, at);
        print_cell(out, address, byte_at(memory, address as usize))?;
        at += 3;
    }
    Ok(())
}

fn print_marks(out: &mut impl Write, marks: &[u16]) -> io::Result<()> {
    print(out, b", marks")?;
    for &mark in marks {
        print_number(out, b" ", mark as u64)?;
    }
    Ok(())
}

// The bytes of a saved state.
fn print_bytes(out: &mut impl Write, bytes: &[u8]) -> io::Result<()> {
    for &byte in bytes {
        print(out, &byte_text(byte))?;
    }
    Ok(())
}

// The steps of a case that saves: 64 bits, high byte first.
fn steps_of(case: &[u8]) -> u64
    ensures { result ≡ steps_in case.now }
{
    long_at(case, 11) as u64 * 4294967296 + long_at(case, 15) as u64
}

// What saving the registers and steps of a case gives.
fn saved_of(case: &[u8]) -> Saved
    requires { 11 ≤ length case.now }
    ensures { result ≡ saved_of case.now }
{
    save(registers_of(&case[..11]), steps_of(case))
}

// A case that saves. One that is cut short has no answer.
fn save_case(out: &mut impl Write, case: &[u8]) -> io::Result<()> {
    if case.len() < 19 {
        return Ok(());
    }
    let saved = saved_of(case);
    let bytes = saved.bytes;
    if saved.number == 0 {
        print(out, b"saved ")?;
    } else {
        print_number(out, b"refused ", saved.number as u64)?;
        print(out, b", ")?;
    }
    print_bytes(out, &bytes)
}

fn print_resume_answer(out: &mut impl Write, answer: ResumeAnswer) -> io::Result<()> {
    match answer {
        ResumeAnswer::Finished => print(out, b"finished"),
        ResumeAnswer::Spent => print(out, b"spent"),
        ResumeAnswer::Refused(number, offset) => {
            print_number(out, b"refused ", number as u64)?;
            print_number(out, b" ", offset as u64)
        }
    }
}

// Resumes from the saved state of a case, with its limits and its budget, which stands at `end`, after the saved state.
fn resumed_of(
    case: &[u8],
    end: usize,
    image: &[u8],
    marks: &mut [u16],
    memory: &mut [u8],
) -> Resumed
    requires { (end ≡ 16 + get_or case.now 15 0) × (end ≤ length case.now) }
    ensures { ResumesCase case.now image.now marks.old memory.old
        result marks.new memory.new }
{
    resume(
        image,
        limits_of(case),
        marks,
        memory,
        &case[16..end],
        long_at(case, end),
    )
}

// A case that resumes. One that is cut short has no answer.
fn resume_case(
    out: &mut impl Write,
    case: &[u8],
    marks: &mut [u16],
    memory: &mut [u8],
) -> io::Result<()> {
    let budget = 16 + byte_at(case, 15) as usize;
    let from = budget + 5;
    let end = from + byte_at(case, budget + 4) as usize;
    if case.len() < end {
        return Ok(());
    }
    let cells = &case[end..];
    put_cells(memory, cells);
    let resumed = resumed_of(case, budget, &case[from..end], marks, memory);
    let answer = resumed.answer;
    print_resume_answer(out, answer)?;
    print_number(out, b" after ", resumed.steps)?;
    print_number(out, b", cycles ", resumed.cycles)?;
    print(out, b": ")?;
    print(out, &registers_text(resumed.registers))?;
    print_cells(out, memory, cells)?;
    print_marks(out, marks)
}

// The case of a line's kind and digits, from the colon on. One that resumes has a memory of zeros of its size, and marks of nines.
fn case(out: &mut impl Write, text: &[u8]) -> io::Result<()> {
    let mut bytes = [0u8; 512];
    let mut marks = [9u16; 256];
    let mut memory = [0u8; 32769];
    let n = parse(text, &mut bytes);
    if byte_at(text, 2) == b's' {
        return save_case(out, &bytes[..n]);
    }
    let lent = byte_at(&bytes, 12) as usize;
    let size = word_at(&bytes, 13) as usize;
    if size <= 32769 {
        return resume_case(out, &bytes[..n], &mut marks[..lent], &mut memory[..size]);
    }
    Ok(())
}

// The line of a case anew: up to its answer as it stands, then the answer that it gets here.
fn print_case(out: &mut impl Write, line: &[u8]) -> io::Result<()> {
    let colon = find(line, 0, line.len(), b':');
    let equals = find(line, colon, line.len(), b'=');
    print(out, &line[..equals])?;
    print(out, b"= ")?;
    case(out, &line[colon..equals])?;
    print(out, b"\n")
}

// Each line of a text.
fn print_cases(out: &mut impl Write, text: &[u8]) -> io::Result<()> {
    let mut at = 0;
    while at < text.len() {
        let end = find(text, at, text.len(), b'\n');
        print_case(out, &text[at..end])?;
        at = end + 1;
    }
    Ok(())
}

fn main(rt: HostRuntime) -> io::Result<()> {
    let mut text = [0u8; 65536];
    let n = read_full(&mut rt.stdin(), &mut text)?;
    print_cases(&mut rt.stdout(), &text[..n])
}
