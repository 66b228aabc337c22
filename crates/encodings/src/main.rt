// Compares decoding, text and encoding with data/encodings.txt: a line for each encoding that an assembler made, its text, a tab and
// its bytes in hexadecimal, with the instruction at 8000.
#![tactic(auto)]

use console::read_full;
use disassembly::LONGEST;
use hexadecimal::parse;
use slices::find;
use std::num::wrapping_add_u64;
use std::{fs, io};
use stm8::Instruction;

const ADDRESS: u16 = 0x8000;

// The bytes that a line gives, at most five, 0 past the length.
#[derive(Clone, Copy)]
struct Code {
    bytes: [u8; 5],
    length: usize,
}

#[derive(Clone, Copy)]
struct Totals {
    lines: u64,
    differences: u64,
}

fn text_differs(i: Instruction, text: &[u8]) -> bool {
    let mut buffer = [0u8; LONGEST];
    let Ok(n) = disassembly::disassemble(i, ADDRESS, &mut buffer) else {
        return true;
    };
    !check::same(&buffer[..n], text)
}

fn bytes_differ(i: Instruction, code: Code) -> bool {
    let encoded = encoder::encode(i);
    let made = encoded.bytes;
    let given = code.bytes;
    encoded.number != 0 || encoded.length != code.length || !check::same(&made, &given)
}

// How many of the three, length, text and bytes, are not as a line says.
fn differences(text: &[u8], code: Code) -> u64 {
    let bytes = code.bytes;
    let Ok((i, n)) = decoder::decode(&bytes) else {
        return 3;
    };
    let sizes = wrapping_add_u64((n != code.length) as u64, text_differs(i, text) as u64);
    wrapping_add_u64(sizes, bytes_differ(i, code) as u64)
}

// The same of a line, without its end.
fn line_differences(line: &[u8]) -> u64 {
    let tab = find(line, 0, line.len(), b'\t');
    if line.len() <= tab {
        return 3;
    }
    let mut bytes = [0u8; 5];
    let length = parse(&line[tab + 1..], &mut bytes);
    differences(&line[..tab], Code { bytes, length })
}

fn compare(file: &[u8]) -> Totals {
    let mut lines = 0;
    let mut differences = 0;
    let mut at = 0;
    while at < file.len() {
        let end = find(file, at, file.len(), b'\n');
        differences = wrapping_add_u64(differences, line_differences(&file[at..end]));
        lines = wrapping_add_u64(lines, 1);
        at = end + 1;
    }
    Totals { lines, differences }
}

fn main(rt: HostRuntime) -> io::Result<()> {
    let mut file = fs::open(&rt, "encodings.txt")?;
    let mut buffer = [0u8; 65536];
    let n = read_full(&mut file, &mut buffer)?;
    let totals = compare(&buffer[..n]);
    let lines = totals.lines;
    let differences = totals.differences;
    println!(rt; "{lines} lines, {differences} differences")
}
