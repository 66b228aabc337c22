// Data reads.
ghost use Rattle.std.specs.Prelude.{◌≡◌, ◌≤◌};
ghost use Rattle.storage.specs.Reading.{read_byte, read_word};

use image::{base_of, code_at};
use numbers::words::{byte_at, word};

// 0000 to 7FFF from memory, the image's own addresses from its code, any other address gives 00.
fn byte_from(image: &[u8], memory: &[u8], address: usize) -> u8
    requires { address ≤ 0x100000000 }
    ensures { result ≡ read_byte image.now memory.now address }
{
    if address < 0x8000 {
        return byte_at(memory, address);
    }
    let base = base_of(image) as usize;
    if address < base {
        return 0;
    }
    byte_at(image, code_at(image) + (address - base))
}

pub fn read_byte(image: &[u8], memory: &[u8], address: u32) -> u8
    ensures { result ≡ read_byte image.now memory.now address }
{
    byte_from(image, memory, address as usize)
}

// A word's high byte lies at the lower address.
pub fn read_word(image: &[u8], memory: &[u8], address: u32) -> u16
    ensures { result ≡ read_word image.now memory.now address }
{
    let high = byte_from(image, memory, address as usize);
    let low = byte_from(image, memory, address as usize + 1);
    word(high, low)
}
