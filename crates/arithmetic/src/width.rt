// Bytes and words: the numbers that the operations compute with, each by its width and its value.
ghost use Rattle.std.specs.Prelude.{◌≡◌, ℕ, ◌<◌, ◌≤◌, ◌%◌, ◌^◌};
ghost use Rattle.std.proofs.Common.{rules};

pub trait Unsigned: Copy {
    const BITS: u32;

    ghost BITS: { ℕ };

    ghost value: { Self → ℕ };

    // The number where its sums and differences have room.
    fn wide(self) -> u32
        ensures same { result ≡ value self }
        ensures fits { result < 2 ^ BITS };

    // What the low bits of a number make.
    fn low_bits(n: u32) -> Self
        ensures { value result ≡ n % 2 ^ BITS };

    // What `u32` has room for.
    ghost has_room: { (2 ≤ BITS) × (BITS ≤ 16) };
}

impl Unsigned for u8 {
    const BITS: u32 = u8::BITS;

    ghost BITS = { 8 };

    ghost value = { λ n. n };

    fn wide(self) -> u32 {
        self.into()
    }

    fn low_bits(n: u32) -> u8 {
        (n % 256) as u8
    }

    ghost has_room = { Prim.search rules };
}

impl Unsigned for u16 {
    const BITS: u32 = u16::BITS;

    ghost BITS = { 16 };

    ghost value = { λ n. n };

    fn wide(self) -> u32 {
        self.into()
    }

    fn low_bits(n: u32) -> u16 {
        (n % 65536) as u16
    }

    ghost has_room = { Prim.search rules };
}
