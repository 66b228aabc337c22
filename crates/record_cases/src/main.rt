// Replays the records of the conformance corpus (conformance/README.md has the fields of a line and the forms of an answer): prints each line of
// standard input anew, with what a step with its record and giving it back come to. No contract speaks of what is printed.
#![tactic(auto)]

ghost use Rattle.std.specs.Prelude.{◌≡◌, cond, ◌≤◌, length};
ghost use Rattle.records.specs.Back.{stepped_back};
ghost use Rattle.record_cases.specs.Case.{record_in};

use console::read_full;
use hexadecimal::parse;
use image::limits_of;
use machine::{Registers, step_number};
use numbers::words::{byte_at, word_at};
use records::{Record, step, step_back};
use slices::find;
use std::io;
use std::io::Write;
use vectors::{byte_text, long_at, put_cells, registers_of, registers_text, word_text};

fn print(out: &mut impl Write, text: &[u8]) -> io::Result<()> {
    out.write_all(text)
}

fn print_number(out: &mut impl Write, name: &[u8], number: u64) -> io::Result<()> {
    print(out, name)?;
    write!(out, "{number}")
}

fn print_registers(out: &mut impl Write, r: Registers) -> io::Result<()> {
    print(out, b": ")?;
    print(out, &registers_text(r))
}

fn print_cell(out: &mut impl Write, address: u16, byte: u8) -> io::Result<()> {
    print(out, b", ")?;
    print(out, &word_text(address))?;
    print(out, b" ")?;
    print(out, &byte_text(byte))
}

// The bytes of memory at the addresses of cells.
fn print_cells(out: &mut impl Write, memory: &[u8], cells: &[u8]) -> io::Result<()> {
    let mut at = 0;
    while at + 2 < cells.len() {
        let address = word_at(cells, at);
        print_cell(out, address, byte_at(memory, address as usize))?;
        at += 3;
    }
    Ok(())
}

// The bytes of a step's record, whose addresses have 16 bits.
fn print_bytes(out: &mut impl Write, r: Record) -> io::Result<()> {
    let addresses = r.addresses;
    let values = r.values;
    print_number(out, b", bytes ", r.count as u64)?;
    if r.count > 0 {
        print_cell(out, (addresses[0] % 65536) as u16, values[0])?;
    }
    if r.count > 1 {
        print_cell(out, (addresses[1] % 65536) as u16, values[1])?;
    }
    Ok(())
}

// The record of a case.
fn record_of(case: &[u8]) -> Record
    requires { 27 ≤ length case.now }
    ensures { result ≡ record_in case.now }
{
    Record {
        registers: registers_of(&case[2..13]),
        count: long_at(case, 13),
        addresses: [long_at(case, 17), long_at(case, 22)],
        values: [byte_at(case, 21), byte_at(case, 26)],
    }
}

// A record is given back: the number, the registers, the cells, and whether memory is what it was at first.
fn give_back(
    out: &mut impl Write,
    given: Record,
    memory: &mut [u8],
    first: &[u8],
    cells: &[u8],
) -> io::Result<()>
    ensures { memory.new ≡ (stepped_back given memory.old).1 }
{
    let back = step_back(given, memory);
    print_number(out, b"back ", back.number as u64)?;
    print_registers(out, back.registers)?;
    print_cells(out, memory, cells)?;
    if check::same(memory, first) {
        print(out, b", as at first")?;
    }
    Ok(())
}

// A step with its record, which is then given back.
fn step_case(
    out: &mut impl Write,
    case: &[u8],
    memory: &mut [u8],
    first: &mut [u8],
) -> io::Result<()> {
    let end = 26 + byte_at(case, 25) as usize;
    if case.len() < end {
        return Ok(());
    }
    let image = &case[26..end];
    let cells = &case[end..];
    put_cells(memory, cells);
    put_cells(first, cells);
    let s = step(image, limits_of(case), registers_of(&case[14..25]), memory);
    let stepped = s.stepped;
    let answer = stepped.answer;
    print_number(out, b"step ", step_number(answer) as u64)?;
    print_bytes(out, s.record)?;
    print_registers(out, stepped.registers)?;
    print_cells(out, memory, cells)?;
    print(out, b"; ")?;
    give_back(out, s.record, memory, first, cells)
}

// A record made by hand.
fn hand_case(
    out: &mut impl Write,
    case: &[u8],
    memory: &mut [u8],
    first: &mut [u8],
) -> io::Result<()> {
    if case.len() < 27 {
        return Ok(());
    }
    let cells = &case[27..];
    put_cells(memory, cells);
    put_cells(first, cells);
    give_back(out, record_of(case), memory, first, cells)
}

// The answer of a case. One that is cut short has none.
fn print_answer(
    out: &mut impl Write,
    recorded: bool,
    case: &[u8],
    memory: &mut [u8],
    first: &mut [u8],
) -> io::Result<()> {
    if recorded {
        step_case(out, case, memory, first)
    } else {
        hand_case(out, case, memory, first)
    }
}

// Where the size of memory stands: a step has its limits before that.
fn size_at(recorded: bool) -> usize
    ensures { result ≡ cond recorded 12 0 }
{
    if recorded { 12 } else { 0 }
}

// The case of a line's kind and digits, from the colon on, on a memory of zeros of its size.
fn case(out: &mut impl Write, text: &[u8]) -> io::Result<()> {
    let mut bytes = [0u8; 128];
    let mut memory = [0u8; 32769];
    let mut first = [0u8; 32769];
    let recorded = byte_at(text, 2) == b'r';
    let n = parse(text, &mut bytes);
    let size = word_at(&bytes, size_at(recorded)) as usize;
    if size <= 32769 {
        print_answer(
            out,
            recorded,
            &bytes[..n],
            &mut memory[..size],
            &mut first[..size],
        )?;
    }
    Ok(())
}

// The line of a case anew: up to its answer as it stands, then the answer that it gets here.
fn print_case(out: &mut impl Write, line: &[u8]) -> io::Result<()> {
    let colon = find(line, 0, line.len(), b':');
    let equals = find(line, colon, line.len(), b'=');
    print(out, &line[..equals])?;
    print(out, b"= ")?;
    case(out, &line[colon..equals])?;
    print(out, b"\n")
}

// Each line of a text.
fn print_cases(out: &mut impl Write, text: &[u8]) -> io::Result<()> {
    let mut at = 0;
    while at < text.len() {
        let end = find(text, at, text.len(), b'\n');
        print_case(out, &text[at..end])?;
        at = end + 1;
    }
    Ok(())
}

fn main(rt: HostRuntime) -> io::Result<()> {
    let mut text = [0u8; 65536];
    let n = read_full(&mut rt.stdin(), &mut text)?;
    print_cases(&mut rt.stdout(), &text[..n])
}
