// Replays the checks, starts and turns of the conformance corpus (conformance/README.md has the fields of a line and the forms of an answer): prints
// each line of standard input anew, with what checking, starting and running to the end, or the turn comes to. No contract speaks of what is printed.
#![tactic(auto)]

ghost use Rattle.std.specs.Prelude.{◌≡◌, ◌/◌, ◌%◌, ◌<◌, ◌≤◌, false, length, if◌then◌else◌, nat_le, nat_lt};

use console::read_full;
use gate::{Area, Limits, Registers, RunAnswer, Started, StepAnswer, TurnAnswer, Verdict};
use hexadecimal::parse;
use image::limits_of;
use numbers::words::{byte_at, word_at};
use slices::find;
use std::io;
use std::io::Write;
use std::num::{wrapping_add_u16, wrapping_add_u64, wrapping_sub_u16};
use vectors::{byte_text, registers_text, word_text};

// How far a run in pieces came.
#[derive(Clone, Copy)]
struct Progress {
    registers: Registers,
    steps: u64,
    cycles: u64,
}

fn print(out: &mut impl Write, text: &[u8]) -> io::Result<()> {
    out.write_all(text)
}

fn print_number(out: &mut impl Write, name: &[u8], number: u64) -> io::Result<()> {
    print(out, name)?;
    write!(out, "{number}")
}

fn print_byte(out: &mut impl Write, byte: u8) -> io::Result<()> {
    print(out, b" ")?;
    print(out, &byte_text(byte))
}

fn print_digest(out: &mut impl Write, name: &[u8], digest: u32) -> io::Result<()> {
    print(out, name)?;
    print(out, &word_text((digest / 65536) as u16))?;
    print(out, &word_text((digest % 65536) as u16))
}

fn print_figures(out: &mut impl Write, word: &[u8], a: u16, b: u16) -> io::Result<()> {
    print_number(out, word, a as u64)?;
    print_number(out, b" ", b as u64)
}

fn print_verdict(out: &mut impl Write, v: Verdict) -> io::Result<()> {
    match v {
        Ok(accepted) => print_figures(out, b"accepted ", accepted.need, accepted.count),
        Err(refused) => print_figures(out, b"refused ", refused.number as u16, refused.offset),
    }
}

fn print_marks(out: &mut impl Write, marks: &[u16]) -> io::Result<()> {
    print(out, b", marks")?;
    for &mark in marks {
        print_number(out, b" ", mark as u64)?;
    }
    Ok(())
}

// The top three stack bytes.
fn print_top(out: &mut impl Write, memory: &[u8], high: u16) -> io::Result<()> {
    let at = wrapping_sub_u16(high, 2);
    print(out, b", ")?;
    print(out, &word_text(at))?;
    print_byte(out, byte_at(memory, at as usize))?;
    print_byte(out, byte_at(memory, at as usize + 1))?;
    print_byte(out, byte_at(memory, at as usize + 2))
}

// Fills memory with bytes that differ from their neighbours.
fn fill(memory: &mut [u8])
    ensures { length memory.new ≡ length memory.old }
{
    for at in 0..memory.len() {
        memory[at] = (at % 251) as u8;
    }
}

fn within(area: Area, at: usize) -> bool
    ensures { result ≡ (if nat_lt at area.low then false else nat_le at area.high) }
{
    if at < area.low as usize {
        return false;
    }
    at <= area.high as usize
}

// A byte for a digest, 0 where it lies within an area that does not count.
fn counted(byte: u8, at: usize, grant: Area, second: Area, used: Area) -> u32
    ensures { result < 256 }
{
    if within(grant, at) {
        return 0;
    }
    if within(second, at) {
        return 0;
    }
    if within(used, at) {
        return 0;
    }
    byte as u32
}

// The Adler-32 sum of memory, with 0 for the bytes within three areas.
fn digest(memory: &[u8], grant: Area, second: Area, used: Area) -> u32
    ensures { (result / 65536 < 65521) × (result % 65536 < 65521) }
{
    let mut a: u32 = 1;
    let mut b: u32 = 0;
    for (at, &byte) in memory.iter().enumerate() {
        a = (a + counted(byte, at, grant, second, used)) % 65521;
        b = (b + a) % 65521;
    }
    b * 65536 + a
}

// The `need` bytes that end at the top of a stack.
fn used_bytes(stack: Area, need: u16) -> Area
    ensures { result.high ≡ stack.high }
{
    let below = wrapping_sub_u16(stack.high, need);
    Area {
        low: wrapping_add_u16(below, 1),
        high: stack.high,
    }
}

// Registers, the top of the stack, and the digests of all memory and of what lies outside the grants and the stack bytes used.
fn print_state(
    out: &mut impl Write,
    registers: Registers,
    memory: &[u8],
    limits: Limits,
    need: u16,
) -> io::Result<()> {
    let stack = limits.stack;
    let nowhere = Area { low: 1, high: 0 };
    print(out, b": ")?;
    print(out, &registers_text(registers))?;
    print_top(out, memory, stack.high)?;
    print_digest(out, b", memory ", digest(memory, nowhere, nowhere, nowhere))?;
    print_digest(
        out,
        b", outside ",
        digest(memory, limits.grant, limits.second, used_bytes(stack, need)),
    )
}

// How many steps the k-th piece has.
fn budget(k: u32) -> u32
    ensures { result ≤ 7 }
{
    match k % 4 {
        0 => 1,
        1 => 2,
        2 => 3,
        _ => 7,
    }
}

// The steps that a single step counts for.
fn steps_of(answer: StepAnswer) -> u64
    ensures { result ≤ 1 }
{
    match answer {
        StepAnswer::Made => 1,
        StepAnswer::Finished => 0,
        StepAnswer::Trap(_) => 0,
        StepAnswer::Refused(_) => 0,
    }
}

// A piece and a single step after it.
fn piece(image: &[u8], limits: Limits, from: Registers, memory: &mut [u8], k: u32) -> Progress
    ensures { length memory.new ≡ length memory.old }
{
    let first = gate::run(image, limits, from, memory, budget(k));
    let ran = first.ran;
    let between = ran.registers;
    let last = gate::step(image, limits, between, memory);
    let stepped = last.stepped;
    let answer = stepped.answer;
    let registers = stepped.registers;
    Progress {
        registers,
        steps: ran.steps as u64 + steps_of(answer),
        cycles: wrapping_add_u64(first.cycles, last.cycles),
    }
}

// The whole in pieces, 1,000 at most.
fn pieces(image: &[u8], limits: Limits, from: Registers, memory: &mut [u8]) -> Progress
    ensures { length memory.new ≡ length memory.old }
{
    let mut registers = from;
    let mut steps = 0;
    let mut cycles = 0;
    for k in 0..1000 {
        let next = piece(image, limits, registers, memory, k);
        registers = next.registers;
        steps = wrapping_add_u64(steps, next.steps);
        cycles = wrapping_add_u64(cycles, next.cycles);
        if registers.pc == 0 {
            break;
        }
    }
    Progress {
        registers,
        steps,
        cycles,
    }
}

// One run to the end, and a run in pieces on a memory like the first.
fn print_runs(
    out: &mut impl Write,
    image: &[u8],
    limits: Limits,
    need: u16,
    start: Registers,
    memory: &mut [u8],
    other: &mut [u8],
) -> io::Result<()> {
    let timed = gate::run(image, limits, start, memory, 4294967295);
    let ran = timed.ran;
    print_number(out, b"; whole, steps ", ran.steps as u64)?;
    print_number(out, b", cycles ", timed.cycles)?;
    print_state(out, ran.registers, memory, limits, need)?;
    let cut = pieces(image, limits, start, other);
    print_number(out, b"; pieces, steps ", cut.steps)?;
    print_number(out, b", cycles ", cut.cycles)?;
    print_state(out, cut.registers, other, limits, need)
}

// Starts a case's image with its registers, on memory that is filled first.
fn start(case: &[u8], image: &[u8], marks: &mut [u16], memory: &mut [u8]) -> Started
    ensures { length memory.new ≡ length memory.old }
{
    fill(memory);
    gate::start(
        image,
        limits_of(case),
        marks,
        memory,
        byte_at(case, 15),
        word_at(case, 16),
        word_at(case, 18),
        byte_at(case, 20),
    )
}

// What comes of a start, and of the runs where it is accepted.
fn start_case(
    out: &mut impl Write,
    case: &[u8],
    image: &[u8],
    marks: &mut [u16],
    memory: &mut [u8],
    other: &mut [u8],
) -> io::Result<()> {
    let limits = limits_of(case);
    let started = start(case, image, marks, memory);
    let verdict = started.verdict;
    let registers = started.registers;
    print_verdict(out, verdict)?;
    print_marks(out, marks)?;
    print(out, b"; start")?;
    match verdict {
        Err(_) => print_state(out, registers, memory, limits, 0),
        Ok(accepted) => {
            print_state(out, registers, memory, limits, accepted.need)?;
            let _again = start(case, image, marks, other);
            print_runs(out, image, limits, accepted.need, registers, memory, other)
        }
    }
}

fn check_case(
    out: &mut impl Write,
    image: &[u8],
    limits: Limits,
    marks: &mut [u16],
) -> io::Result<()> {
    print_verdict(out, gate::check(image, limits, marks))?;
    print_marks(out, marks)
}

fn print_turn(out: &mut impl Write, answer: TurnAnswer) -> io::Result<()> {
    match answer {
        TurnAnswer::Refused(number, offset) => print_figures(
            out,
            b"refused ",
            number as u16,
            offset,
        ),
        TurnAnswer::NoTurn => print(out, b"none"),
        TurnAnswer::Over => print(out, b"over"),
        TurnAnswer::Within(most) => print_number(out, b"within ", most as u64),
    }
}

fn print_ran(out: &mut impl Write, answer: RunAnswer, steps: u32) -> io::Result<()> {
    match answer {
        RunAnswer::Finished => print(out, b"finished")?,
        RunAnswer::Spent => print(out, b"spent")?,
        RunAnswer::Trap(number) => print_number(out, b"trap ", number as u64)?,
        RunAnswer::Refused(number) => print_number(out, b"refused ", number as u64)?,
    }
    print_number(out, b" after ", steps as u64)
}

// A start with zeros on a memory of zeros, and a run with so many steps.
fn print_run_within(
    out: &mut impl Write,
    image: &[u8],
    limits: Limits,
    marks: &mut [u16],
    most: u32,
) -> io::Result<()> {
    let mut memory = [0u8; 32768];
    let started = gate::start(image, limits, marks, &mut memory, 0, 0, 0, 0);
    let timed = gate::run(image, limits, started.registers, &mut memory, most);
    let ran = timed.ran;
    let answer = ran.answer;
    print(out, b"; ")?;
    print_ran(out, answer, ran.steps)
}

// What a turn is, and a run within it.
fn turn_case(
    out: &mut impl Write,
    image: &[u8],
    limits: Limits,
    marks: &mut [u16],
) -> io::Result<()> {
    let answer = gate::turn(image, limits, marks);
    print_turn(out, answer)?;
    print_marks(out, marks)?;
    match answer {
        TurnAnswer::Refused(_, _) => Ok(()),
        TurnAnswer::NoTurn => Ok(()),
        TurnAnswer::Over => Ok(()),
        TurnAnswer::Within(most) => print_run_within(out, image, limits, marks, most),
    }
}

// The answer of a case by its kind's first letter. One that is cut short has none.
fn print_answer(out: &mut impl Write, kind: u8, case: &[u8], marks: &mut [u16]) -> io::Result<()> {
    if case.len() < 13 {
        return Ok(());
    }
    if kind == b'c' {
        return check_case(out, &case[13..], limits_of(case), marks);
    }
    if kind == b't' {
        return turn_case(out, &case[13..], limits_of(case), marks);
    }
    if case.len() < 21 {
        return Ok(());
    }
    let mut memory = [0u8; 32769];
    let mut other = [0u8; 32769];
    let size = word_at(case, 13) as usize;
    if size <= 32769 {
        start_case(
            out,
            case,
            &case[21..],
            marks,
            &mut memory[..size],
            &mut other[..size],
        )?;
    }
    Ok(())
}

// The case of a line's kind and digits, from the colon on.
fn case(out: &mut impl Write, text: &[u8]) -> io::Result<()> {
    let mut bytes = [0u8; 512];
    let mut marks = [9u16; 256];
    let kind = byte_at(text, 2);
    let n = parse(text, &mut bytes);
    let cells = byte_at(&bytes, 12) as usize;
    print_answer(out, kind, &bytes[..n], &mut marks[..cells])
}

// The line of a case anew: up to its answer as it stands, then the answer that it gets here.
fn print_case(out: &mut impl Write, line: &[u8]) -> io::Result<()> {
    let colon = find(line, 0, line.len(), b':');
    let equals = find(line, colon, line.len(), b'=');
    print(out, &line[..equals])?;
    print(out, b"= ")?;
    case(out, &line[colon..equals])?;
    print(out, b"\n")
}

// Each line of a text.
fn print_cases(out: &mut impl Write, text: &[u8]) -> io::Result<()> {
    let mut at = 0;
    while at < text.len() {
        let end = find(text, at, text.len(), b'\n');
        print_case(out, &text[at..end])?;
        at = end + 1;
    }
    Ok(())
}

fn main(rt: HostRuntime) -> io::Result<()> {
    let mut text = [0u8; 65536];
    let n = read_full(&mut rt.stdin(), &mut text)?;
    print_cases(&mut rt.stdout(), &text[..n])
}
