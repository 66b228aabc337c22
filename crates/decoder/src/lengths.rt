// The lengths of op-codes: by a table that is lent, and the map's own. Those stand sixteen to a number, a digit for each column, column 0
// on the right, since an array would be built at every use. All sixteen rows are spelled, so that the compiler makes a table; the default,
// never reached, is no row's value, since the compiler drops arms that are as the default.
ghost use Rattle.std.specs.Prelude.{◌≡◌, ◌*◌, ◌/◌, ◌%◌, ◌^◌, get_or};
ghost use Rattle.stm8.specs.OpcodeMap.{Plain, After72, After90};
ghost use Rattle.stm8.specs.Decoding.{lengths as lengths_of};
ghost use Rattle.decoder.specs.Parts.{row_lengths};

fn plain_row(op: u8) -> u64
    ensures { result ≡ row_lengths Plain (op / 16) }
{
    let row = op / 16;
    match row {
        0 => 0x0000_0000_0000_0000,
        1 => 0x2233_2222_2222_0222,
        2 => 0x2222_2222_2222_2222,
        3 => 0x2222_3222_2242_2302,
        4 => 0x1111_2111_1131_1101,
        5 => 0x1001_2100_0050_0210,
        6 => 0x0000_2000_0000_0000,
        7 => 0x0000_2000_0000_0000,
        8 => 0x0001_0011_0011_0010,
        9 => 0x1111_0011_1010_1000,
        10 => 0x0320_2222_0222_3222,
        11 => 0x0000_2222_2222_0222,
        12 => 0x3330_3333_3333_0333,
        13 => 0x0000_3333_0333_0333,
        14 => 0x0000_2222_0222_0222,
        15 => 0x0000_1111_0111_0111,
        _ => 1,
    }
}

// The pages after 72 and 90 have few rows.
fn after_72_row(op: u8) -> u64
    ensures { result ≡ row_lengths After72 (op / 16) }
{
    let row = op / 16;
    match row {
        0 => 0x5555_5555_5555_5555,
        1 => 0x4444_4444_4444_4444,
        5 => 0x4444_0444_4404_4004,
        10 => 0x0000_0040_0000_0400,
        _ => 0,
    }
}

fn after_90_row(op: u8) -> u64
    ensures { result ≡ row_lengths After90 (op / 16) }
{
    let row = op / 16;
    match row {
        1 => 0x4444_4444_4444_4444,
        4 => 0x0000_0000_0000_0200,
        5 => 0x2002_0200_0000_0000,
        8 => 0x0000_0020_0020_0000,
        9 => 0x2200_0000_2020_2000,
        10 => 0x0400_0000_0000_4000,
        12 => 0x4400_0000_0000_0000,
        13 => 0x0000_4444_0444_0444,
        14 => 0x0000_3333_0333_0333,
        15 => 0x0000_2222_0222_0222,
        _ => 0,
    }
}

// The digit of the op-code's column.
fn digit(row: u64, op: u8) -> usize
    ensures { result ≡ row / 2 ^ (4 * (op % 16)) % 16 }
{
    ((row >> (4 * (op % 16))) % 16) as usize
}

pub fn plain_length(op: u8) -> usize
    ensures { result ≡ get_or (lengths_of Plain) op 0 }
{
    digit(plain_row(op), op)
}

pub fn after_72_length(op: u8) -> usize
    ensures { result ≡ get_or (lengths_of After72) op 0 }
{
    digit(after_72_row(op), op)
}

pub fn after_90_length(op: u8) -> usize
    ensures { result ≡ get_or (lengths_of After90) op 0 }
{
    digit(after_90_row(op), op)
}

// A length of a table. The cast has a function of its own, since an argument is known to be a byte, and an element of a lent array is not.
fn wide(length: u8) -> usize
    ensures { result ≡ length }
{
    length as usize
}

// The length of an op-code with its operands, by its page's table: whoever has an op-code without its operands asks for it too.
pub fn opcode_length(op: u8, lengths: &[u8; 256]) -> usize
    ensures { result ≡ get_or lengths.now op 0 }
{
    wide(lengths[op as usize])
}
