// Saved states: registers and steps as SLS records, written as version 0002, of 23 bytes, and read as that or as version 0001, of 19.
#![tactic(auto)]

ghost use Rattle.std.specs.Prelude.{◌≡◌, ◌≤◌};
ghost use Rattle.saved_state.specs.Sls.{known as is_known, step_bytes, number_bytes, number_at, state_bytes, saving_number, saved, saved_check, state_in};

use execution::Registers;
use numbers::checks::{differ, first, under, unless};
use numbers::words::{byte_at, word_at};

// The version that is written.
const WRITTEN: u8 = 2;

// Registers, and the steps made so far.
#[derive(Clone, Copy)]
pub struct SavedState {
    pub registers: Registers,
    pub steps: u64,
}

// What saving answers: 0 and a record, or 35 and bytes all 00.
#[derive(Clone, Copy)]
pub struct Saved {
    pub number: u8,
    pub bytes: [u8; 23],
}

// Whether there is such a version.
fn known(version: u16) -> bool
    ensures { result ≡ is_known version }
{
    if version == 1 { true } else { version == 2 }
}

// How many bytes a record of a version has for the steps.
fn step_bytes(version: u16) -> usize
    ensures { result ≡ step_bytes version }
{
    if version == 1 { 4 } else { 8 }
}

// A number as eight bytes, high bytes first.
fn number_bytes(number: u64) -> [u8; 8]
    ensures { result ≡ number_bytes 8 number }
{
    let mut bytes = [0u8; 8];
    let mut left = number;
    let mut at = 8usize;
    while 0 < at {
        at -= 1;
        bytes[at] = (left % 256) as u8;
        left /= 256;
    }
    bytes
}

// The steps that a record says in so many bytes, high bytes first; a byte past its end counts as 0.
fn steps_of(bytes: &[u8], width: usize) -> u64
    requires { width ≤ 8 }
    ensures { result ≡ number_at bytes.now 15 width }
{
    let mut steps = 0u64;
    let mut read = 0;
    while read < width {
        steps = steps * 256 + byte_at(bytes, 15 + read) as u64;
        read += 1;
    }
    steps
}

// 35 where PC has more bits than a record has for it.
fn saving_number(registers: Registers) -> u8
    ensures { result ≡ saving_number registers }
{
    under(0xFFFF, registers.pc as usize, 35)
}

// The bytes of a record of the version that is written.
fn state_bytes(r: Registers, steps: u64) -> [u8; 23]
    requires { r.pc ≤ 0xFFFF }
    ensures { result ≡ state_bytes 0x0002 r steps }
{
    let s = number_bytes(steps);
    [
        83,
        76,
        83,
        0,
        WRITTEN,
        (r.pc / 256) as u8,
        (r.pc % 256) as u8,
        (r.sp / 256) as u8,
        (r.sp % 256) as u8,
        r.a,
        (r.x / 256) as u8,
        (r.x % 256) as u8,
        (r.y / 256) as u8,
        (r.y % 256) as u8,
        r.cc,
        s[0],
        s[1],
        s[2],
        s[3],
        s[4],
        s[5],
        s[6],
        s[7],
    ]
}

// Saves registers and steps.
pub fn save(registers: Registers, steps: u64) -> Saved
    ensures { result ≡ saved registers steps }
{
    let number = saving_number(registers);
    if number != 0 {
        return Saved {
            number,
            bytes: [0u8; 23],
        };
    }
    let bytes = state_bytes(registers, steps);
    Saved { number, bytes }
}

// 34 where bytes are no record: a wrong length, mark or version.
pub fn saved_check(bytes: &[u8]) -> u8
    ensures { result ≡ saved_check bytes.now }
{
    let version = word_at(bytes, 3);
    if bytes.len() != 15 + step_bytes(version) {
        return 34;
    }
    first(
        unless(check::same(&bytes[..3], b"SLS"), 34),
        unless(known(version), 34),
    )
}

// The state that a record says; a byte past its end counts as 0.
pub fn state_in(bytes: &[u8]) -> SavedState
    ensures { result ≡ state_in bytes.now }
{
    let registers = Registers {
        a: byte_at(bytes, 9),
        x: word_at(bytes, 10),
        y: word_at(bytes, 12),
        cc: byte_at(bytes, 14),
        sp: word_at(bytes, 7),
        pc: word_at(bytes, 5) as u32,
    };
    let width = step_bytes(word_at(bytes, 3));
    SavedState {
        registers,
        steps: steps_of(bytes, width),
    }
}
