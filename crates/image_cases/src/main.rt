// Runs refusals 1 to 4 and acceptance at the borders that gate_cases has no case of, a line a case: what the case is about, and the
// refusal's number, 0 where nothing is refused.
#![tactic(auto)]

ghost use Rattle.std.specs.Prelude.{◌+◌, ◌≤◌, length, ◌≡◌};

use image::{Area, Limits, limits_of, validate, validation_number};
use std::io;
use std::io::Write;

// grant 0000-00FF, stack 0300-03FF, and a second grant
fn usual_limits(low: u16, high: u16) -> Limits
    ensures { result.second ≡ record { low = low; high = high } }
{
    Limits {
        grant: Area {
            low: 0x0000,
            high: 0x00FF,
        },
        stack: Area {
            low: 0x0300,
            high: 0x03FF,
        },
        second: Area { low, high },
    }
}

// One case: an image of a header and of that many code bytes, all 00.
fn case(
    out: &mut impl Write,
    label: &[u8],
    limits: Limits,
    header: &[u8],
    code: usize,
) -> io::Result<()>
    requires { length header.now + code ≤ 4200 }
{
    let mut cells = [0u8; 4200];
    slices::copy(header, &mut cells);
    let end = header.len() + code;
    let validated = validate(&cells[..end], limits);
    out.write_all(label)?;
    out.write_all(b": ")?;
    write!(out, "{}", validation_number(validated) as u64)?;
    out.write_all(b"\n")
}

fn with_limits(out: &mut impl Write, label: &[u8], limits: Limits) -> io::Result<()> {
    case(out, label, limits, b"SLU\x00\x01\x80\x00\x01\x00\x01", 1)
}

fn with_areas(out: &mut impl Write, label: &[u8], limits: &[u8]) -> io::Result<()> {
    with_limits(out, label, limits_of(limits))
}

fn with_second(out: &mut impl Write, label: &[u8], low: u16, high: u16) -> io::Result<()> {
    with_limits(out, label, usual_limits(low, high))
}

// The usual limits without a second grant.
fn with_image(out: &mut impl Write, label: &[u8], header: &[u8], code: usize) -> io::Result<()>
    requires { length header.now + code ≤ 4200 }
{
    case(out, label, usual_limits(0xFFFF, 0x0000), header, code)
}

fn limits_cases(out: &mut impl Write) -> io::Result<()> {
    with_areas(
        out,
        b"grant low above high",
        b"\x01\x00\x00\xFF\x03\x00\x03\xFF\xFF\xFF\x00\x00",
    )?;
    with_areas(
        out,
        b"stack low above high",
        b"\x00\x00\x00\xFF\x04\x00\x03\xFF\xFF\xFF\x00\x00",
    )?;
    with_areas(
        out,
        b"grant high 8000",
        b"\x04\x00\x80\x00\x03\x00\x03\xFF\xFF\xFF\x00\x00",
    )?;
    with_areas(
        out,
        b"stack high 8000",
        b"\x00\x00\x00\xFF\x03\x00\x80\x00\xFF\xFF\x00\x00",
    )?;
    with_areas(
        out,
        b"areas share 03FF",
        b"\x03\xFF\x04\xFF\x03\x00\x03\xFF\xFF\xFF\x00\x00",
    )?;
    with_areas(
        out,
        b"grant inside stack",
        b"\x03\x10\x03\x20\x03\x00\x03\xFF\xFF\xFF\x00\x00",
    )?;
    with_areas(out, b"no limits", b"")?;
    with_areas(
        out,
        b"grant above stack, to 7FFF",
        b"\x04\x00\x7F\xFF\x00\x01\x03\xFF\xFF\xFF\x00\x00",
    )?;
    with_areas(
        out,
        b"one address each",
        b"\x00\x00\x00\x00\x00\x01\x00\x01\xFF\xFF\x00\x00",
    )?;
    with_areas(
        out,
        b"one address each, the second grant's 0000",
        b"\x00\x01\x00\x01\x00\x02\x00\x02\x00\x00\x00\x00",
    )
}

// None is one whose low is above its high, whatever the two are.
fn second_grant_cases(out: &mut impl Write) -> io::Result<()> {
    with_second(out, b"second grant FFFF-0000", 0xFFFF, 0x0000)?;
    with_second(out, b"second grant 0005-0004", 0x0005, 0x0004)?;
    with_second(out, b"second grant 9000-8FFF", 0x9000, 0x8FFF)?;
    with_second(
        out,
        b"second grant 0100-02FF, touching both",
        0x0100,
        0x02FF,
    )?;
    with_second(out, b"second grant 0400-7FFF", 0x0400, 0x7FFF)?;
    with_second(out, b"second grant 0400-8000", 0x0400, 0x8000)?;
    with_second(out, b"second grant 8000-8000", 0x8000, 0x8000)?;
    with_second(
        out,
        b"second grant 00FF-02FF, meeting the grant",
        0x00FF,
        0x02FF,
    )?;
    with_second(
        out,
        b"second grant 0005-0005, inside the grant",
        0x0005,
        0x0005,
    )?;
    with_second(
        out,
        b"second grant 0100-0300, meeting the stack",
        0x0100,
        0x0300,
    )?;
    with_second(
        out,
        b"second grant 03FF-7FFF, meeting the stack",
        0x03FF,
        0x7FFF,
    )?;
    with_second(
        out,
        b"second grant 0100-7FFF, around the stack",
        0x0100,
        0x7FFF,
    )
}

fn mark_and_version_cases(out: &mut impl Write) -> io::Result<()> {
    with_image(out, b"empty", b"", 0)?;
    with_image(out, b"SLV", b"SLV\x00\x01\x80\x00\x01\x00\x01", 1)?;
    with_image(out, b"version 0000", b"SLU\x00\x00\x80\x00\x01\x00\x01", 1)?;
    with_image(out, b"version 0001", b"SLU\x00\x01\x80\x00\x01\x00\x01", 1)?;
    with_image(out, b"version 0002", b"SLU\x00\x02\x80\x00\x01\x00\x01", 1)?;
    with_image(out, b"version 0003", b"SLU\x00\x03\x80\x00\x01\x00\x01", 1)?;
    with_image(out, b"version 0101", b"SLU\x01\x01\x80\x00\x01\x00\x01", 1)?;
    with_image(out, b"version 0102", b"SLU\x01\x02\x80\x00\x01\x00\x01", 1)?;
    with_image(out, b"version 0200", b"SLU\x02\x00\x80\x00\x01\x00\x01", 1)
}

fn length_list_cases(out: &mut impl Write) -> io::Result<()> {
    with_image(
        out,
        b"count 32",
        b"SLU\x00\x01\x80\x00\x20\x00\x01\x00\x01\x00\x01\x00\x01\x00\x01\x00\x01\x00\x01\x00\x01\x00\x01\x00\x01\x00\x01\x00\x01\x00\x01\x00\x01\x00\x01\x00\x01\x00\x01\x00\x01\x00\x01\x00\x01\x00\x01\x00\x01\x00\x01\x00\x01\x00\x01\x00\x01\x00\x01\x00\x01\x00\x01\x00\x01\x00\x01\x00\x01",
        32,
    )?;
    with_image(
        out,
        b"count 33",
        b"SLU\x00\x01\x80\x00\x21\x00\x01\x00\x01\x00\x01\x00\x01\x00\x01\x00\x01\x00\x01\x00\x01\x00\x01\x00\x01\x00\x01\x00\x01\x00\x01\x00\x01\x00\x01\x00\x01\x00\x01\x00\x01\x00\x01\x00\x01\x00\x01\x00\x01\x00\x01\x00\x01\x00\x01\x00\x01\x00\x01\x00\x01\x00\x01\x00\x01\x00\x01\x00\x01\x00\x01",
        33,
    )?;
    with_image(
        out,
        b"a length 0",
        b"SLU\x00\x01\x80\x00\x02\x00\x00\x00\x01",
        1,
    )?;
    with_image(
        out,
        b"the last length 0",
        b"SLU\x00\x01\x80\x00\x02\x00\x01\x00\x00",
        1,
    )?;
    with_image(
        out,
        b"length list cut",
        b"SLU\x00\x01\x80\x00\x02\x00\x01\x00",
        0,
    )
}

fn code_cases(out: &mut impl Write) -> io::Result<()> {
    with_image(
        out,
        b"4097 code bytes",
        b"SLU\x00\x01\x80\x00\x01\x10\x01",
        4097,
    )?;
    with_image(
        out,
        b"base F000, 4096 bytes",
        b"SLU\x00\x01\xF0\x00\x01\x10\x00",
        4096,
    )?;
    with_image(
        out,
        b"base F001, 4096 bytes",
        b"SLU\x00\x01\xF0\x01\x01\x10\x00",
        4096,
    )?;
    with_image(
        out,
        b"a byte after the code",
        b"SLU\x00\x01\x80\x00\x01\x00\x01",
        2,
    )?;
    with_image(
        out,
        b"a code byte missing",
        b"SLU\x00\x01\x80\x00\x01\x00\x02",
        1,
    )
}

fn main(rt: HostRuntime) -> io::Result<()> {
    let mut out = rt.stdout();
    limits_cases(&mut out)?;
    second_grant_cases(&mut out)?;
    mark_and_version_cases(&mut out)?;
    length_list_cases(&mut out)?;
    code_cases(&mut out)
}
