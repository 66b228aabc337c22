// Runs the codec at the borders of the gate set, a line a case: instructions to encode, with the number, the length and the five bytes; loose bytes to
// decode, by the map's own lengths and by lent tables, with the number and the length, and in each way of decoding with the cycles not taken and
// taken. A number is 0 where there is an instruction.
#![tactic(auto)]

use code::lengths_of;
use cycles::Timed;
use std::io;
use std::io::Write;
use stm8::{
    AluOp, BitOp, BitTest, DecodeError, Decoded, Instruction, ModifyOp, Offset, Operand, Register,
};
use timing::{decode_timed, decode_timed_at, decode_timed_by, decode_timed_for};

fn print_number(out: &mut impl Write, label: &[u8], number: u64) -> io::Result<()> {
    out.write_all(label)?;
    write!(out, "{number}")
}

fn print_byte(out: &mut impl Write, byte: u8) -> io::Result<()> {
    out.write_all(b" ")?;
    write!(out, "{byte:02x}")
}

fn print_bytes(out: &mut impl Write, bytes: [u8; 5]) -> io::Result<()> {
    print_byte(out, bytes[0])?;
    print_byte(out, bytes[1])?;
    print_byte(out, bytes[2])?;
    print_byte(out, bytes[3])?;
    print_byte(out, bytes[4])
}

fn encode(out: &mut impl Write, label: &[u8], i: Instruction) -> io::Result<()> {
    let encoded = encoder::encode(i);
    let bytes = encoded.bytes;
    out.write_all(label)?;
    print_number(out, b": ", encoded.number as u64)?;
    print_number(out, b", length ", encoded.length as u64)?;
    out.write_all(b",")?;
    print_bytes(out, bytes)?;
    out.write_all(b"\n")
}

fn print_decoded(out: &mut impl Write, d: Decoded) -> io::Result<()> {
    match d {
        Ok((_, n)) => print_number(out, b"0, length ", n as u64),
        Err(DecodeError::Outside) => print_number(out, b"", 8),
        Err(DecodeError::Truncated) => print_number(out, b"", 9),
    }
}

fn decode(out: &mut impl Write, label: &[u8], bytes: &[u8]) -> io::Result<()> {
    out.write_all(label)?;
    out.write_all(b": ")?;
    print_decoded(out, decoder::decode(bytes))?;
    out.write_all(b"\n")
}

fn decode_by(
    out: &mut impl Write,
    label: &[u8],
    bytes: &[u8],
    lengths: &[[u8; 256]; 3],
) -> io::Result<()> {
    out.write_all(label)?;
    out.write_all(b": ")?;
    print_decoded(out, decoder::decode_by(bytes, lengths))?;
    out.write_all(b"\n")
}

fn print_timed(out: &mut impl Write, label: &[u8], timed: Timed) -> io::Result<()> {
    let decoded = timed.decoded;
    let cycles = timed.cycles;
    out.write_all(label)?;
    out.write_all(b": ")?;
    print_decoded(out, decoded)?;
    print_number(out, b", cycles ", cycles.untaken as u64)?;
    print_number(out, b" ", cycles.taken as u64)?;
    out.write_all(b"\n")
}

fn bit_positions(out: &mut impl Write) -> io::Result<()> {
    encode(
        out,
        b"BSET of bit 8",
        Instruction::Bit(BitOp::Bset, 8, 0x0010),
    )?;
    encode(
        out,
        b"BSET of bit 7",
        Instruction::Bit(BitOp::Bset, 7, 0x0010),
    )?;
    encode(
        out,
        b"BCCM of bit 255",
        Instruction::Bit(BitOp::Bccm, 255, 0x0010),
    )?;
    encode(
        out,
        b"BTJF of bit 8",
        Instruction::BitJump(BitTest::Btjf, 8, 0x0010, 0xFB),
    )?;
    encode(
        out,
        b"BTJF of bit 0",
        Instruction::BitJump(BitTest::Btjf, 0, 0x0010, 0xFB),
    )
}

fn forms(out: &mut impl Write) -> io::Result<()> {
    encode(
        out,
        b"LD A,A",
        Instruction::Alu(AluOp::Ld, Operand::Accumulator),
    )?;
    encode(
        out,
        b"LD A,#word",
        Instruction::Alu(AluOp::Ld, Operand::ImmediateWord(0x1234)),
    )?;
    encode(
        out,
        b"LD (X),A",
        Instruction::Store(Operand::Indexed(Register::X, Offset::Zero)),
    )?;
    encode(
        out,
        b"INC #byte",
        Instruction::Modify(ModifyOp::Inc, Operand::Immediate(1)),
    )?;
    encode(
        out,
        b"INC (shortoff,SP)",
        Instruction::Modify(ModifyOp::Inc, Operand::Sp(1)),
    )?;
    encode(
        out,
        b"LDW X,shortmem",
        Instruction::LoadWord(Register::X, Operand::Short(0x10)),
    )?;
    encode(
        out,
        b"MOV A,#byte",
        Instruction::Mov(Operand::Accumulator, Operand::Immediate(1)),
    )?;
    encode(
        out,
        b"PUSH shortmem",
        Instruction::Push(Operand::Short(0x10)),
    )?;
    encode(out, b"POP shortmem", Instruction::Pop(Operand::Short(0x10)))
}

fn too_few_bytes(out: &mut impl Write) -> io::Result<()> {
    decode(out, b"nothing", b"")?;
    decode(out, b"72", b"\x72")?;
    decode(out, b"90", b"\x90")?;
    decode(out, b"A6", b"\xA6")?;
    decode(out, b"C7 01", b"\xC7\x01")?;
    decode(out, b"72 01 00 10", b"\x72\x01\x00\x10")?;
    decode(out, b"72 01 00 10 FB", b"\x72\x01\x00\x10\xFB")?;
    decode(out, b"A6 05 81", b"\xA6\x05\x81")
}

fn outside_the_set(out: &mut impl Write) -> io::Result<()> {
    decode(out, b"8E", b"\x8E")?;
    decode(out, b"72 72", b"\x72\x72")?;
    decode(out, b"72 90", b"\x72\x90")?;
    decode(out, b"90 72", b"\x90\x72")?;
    decode(out, b"90 20", b"\x90\x20")?;
    decode(out, b"91", b"\x91")?;
    decode(out, b"92", b"\x92")?;
    decode(out, b"72 BB", b"\x72\xBB")
}

// Of the versions, 0002 leaves CALLR out.
fn by_version(out: &mut impl Write) -> io::Result<()> {
    let first = lengths_of(1);
    decode_by(
        out,
        b"AD 05 by the tables of version 0001",
        b"\xAD\x05",
        &first,
    )?;
    decode_by(out, b"AD by the tables of version 0001", b"\xAD", &first)?;
    let second = lengths_of(2);
    decode_by(
        out,
        b"AD 05 by the tables of version 0002",
        b"\xAD\x05",
        &second,
    )?;
    decode_by(out, b"AD by the tables of version 0002", b"\xAD", &second)?;
    decode_by(
        out,
        b"CD 80 00 by the tables of version 0002",
        b"\xCD\x80\x00",
        &second,
    )?;
    decode_by(
        out,
        b"A6 AD by the tables of version 0002",
        b"\xA6\xAD",
        &second,
    )
}

// A table has the last word on a length, and can leave an op-code out; one that the map has not it cannot put in.
fn by_tables(out: &mut impl Write) -> io::Result<()> {
    let mut lengths = stm8::map_lengths();
    let mut plain = lengths[0];
    plain[0x9D] = 0;
    plain[0xA6] = 3;
    plain[0x8E] = 1;
    lengths[0] = plain;
    decode_by(out, b"9D by a table without it", b"\x9D", &lengths)?;
    decode_by(
        out,
        b"A6 05 by a table with 3 for it",
        b"\xA6\x05",
        &lengths,
    )?;
    decode_by(out, b"8E by a table with it", b"\x8E", &lengths)
}

// Both figures are 0 where there is no instruction.
fn with_cycles(out: &mut impl Write) -> io::Result<()> {
    let second = lengths_of(2);
    print_timed(out, b"8E", decode_timed(b"\x8E"))?;
    print_timed(out, b"A6", decode_timed(b"\xA6"))?;
    print_timed(
        out,
        b"72 01 00 10 FB",
        decode_timed(b"\x72\x01\x00\x10\xFB"),
    )?;
    print_timed(
        out,
        b"CD 80 00 by the tables of version 0002",
        decode_timed_by(b"\xCD\x80\x00", &second),
    )?;
    print_timed(
        out,
        b"AD 05 by the tables of version 0002",
        decode_timed_by(b"\xAD\x05", &second),
    )?;
    print_timed(
        out,
        b"AD 05 in version 0001",
        decode_timed_for(1, b"\xAD\x05"),
    )?;
    print_timed(
        out,
        b"AD 05 in version 0002",
        decode_timed_for(2, b"\xAD\x05"),
    )?;
    print_timed(
        out,
        b"9D 26 FE from 1 to 3",
        decode_timed_at(2, b"\x9D\x26\xFE", 1, 3),
    )?;
    print_timed(
        out,
        b"9D 26 FE from 1 to 2",
        decode_timed_at(2, b"\x9D\x26\xFE", 1, 2),
    )
}

fn main(rt: HostRuntime) -> io::Result<()> {
    let mut out = rt.stdout();
    bit_positions(&mut out)?;
    forms(&mut out)?;
    too_few_bytes(&mut out)?;
    outside_the_set(&mut out)?;
    by_version(&mut out)?;
    by_tables(&mut out)?;
    with_cycles(&mut out)
}
