// The verdict program: reads limits and an image from standard input, checks the image, and prints the verdict and a line for each start.
#![tactic(auto)]

use console::read_full;
use std::io;
use std::io::Write;

// One byte more than the largest input that is not refused: 12 bytes of limits, a header of 8, 32 lengths of 2 and 4,096 code bytes. A longer
// input is refused with 1, 2 or 3, which its first 17 bytes decide, or else with 4, since the file does not end with the code: its first 4,181
// bytes print the same (`long_input` in the crate `listing`).
const INPUT: usize = 4181;

// One for each code byte of any image, so that 5 is never given.
const MARKS: usize = 4096;

// Prints the listing of an input. The buffer has room for any, so it is not refused.
fn print_listing(out: &mut impl Write, input: &[u8]) -> io::Result<()> {
    let mut marks = [0u16; MARKS];
    let mut buffer = [0u8; listing::LONGEST];
    match listing::list_input(input, &mut marks, &mut buffer) {
        Ok(n) => out.write_all(&buffer[..n]),
        Err(_) => Ok(()),
    }
}

// What failed is said on standard error, and nothing more can be done where that fails too. The exit status is 0 all the same: whoever calls goes by
// the first line of what is printed.
fn main(rt: HostRuntime) {
    let mut buffer = [0u8; INPUT];
    let _ = match read_full(&mut rt.stdin(), &mut buffer) {
        Ok(n) => match print_listing(&mut rt.stdout(), &buffer[..n]) {
            Ok(()) => Ok(()),
            Err(error) => eprintln!(rt; "standard output: {error}"),
        },
        Err(error) => eprintln!(rt; "standard input: {error}"),
    };
}
