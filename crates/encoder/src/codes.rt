// Op-codes, their columns and pre-codes, where a name or a register alone decides them.
ghost use Rattle.std.specs.Prelude.{◌≡◌, ◌<◌};
ghost use Rattle.stm8.specs.Encoding.{alu_column, modify_column, condition_column, alu_sp, load_half_code, store_half_code, load_word_sp, store_word_sp, word_modify_code, bit_precode, bit_code, test_code, flag_code};
ghost use Rattle.encoder.specs.Forms.{register_precode};

use stm8::{AluOp, BitOp, BitTest, Condition, FlagOp, Half, ModifyOp, Register, WordModifyOp};

pub fn alu_column(o: AluOp) -> u8
    ensures { (result ≡ alu_column o) × (result < 16) }
{
    match o {
        AluOp::Sub => 0,
        AluOp::Cp => 1,
        AluOp::Sbc => 2,
        AluOp::And => 4,
        AluOp::Bcp => 5,
        AluOp::Ld => 6,
        AluOp::Xor => 8,
        AluOp::Adc => 9,
        AluOp::Or => 10,
        AluOp::Add => 11,
    }
}

pub fn alu_sp(o: AluOp) -> u8
    ensures { result ≡ alu_sp o }
{
    match o {
        AluOp::Sub => 0x10,
        AluOp::Cp => 0x11,
        AluOp::Sbc => 0x12,
        AluOp::And => 0x14,
        AluOp::Bcp => 0x15,
        AluOp::Ld => 0x7b,
        AluOp::Xor => 0x18,
        AluOp::Adc => 0x19,
        AluOp::Or => 0x1a,
        AluOp::Add => 0x1b,
    }
}

pub fn modify_column(o: ModifyOp) -> u8
    ensures { (result ≡ modify_column o) × (result < 16) }
{
    match o {
        ModifyOp::Neg => 0,
        ModifyOp::Cpl => 3,
        ModifyOp::Srl => 4,
        ModifyOp::Rrc => 6,
        ModifyOp::Sra => 7,
        ModifyOp::Sll => 8,
        ModifyOp::Rlc => 9,
        ModifyOp::Dec => 10,
        ModifyOp::Inc => 12,
        ModifyOp::Tnz => 13,
        ModifyOp::Swap => 14,
        ModifyOp::Clr => 15,
    }
}

pub fn condition_column(o: Condition) -> u8
    ensures { (result ≡ condition_column o) × (result < 16) }
{
    match o {
        Condition::Jra => 0,
        Condition::Jrf => 1,
        Condition::Jrugt => 2,
        Condition::Jrule => 3,
        Condition::Jrnc => 4,
        Condition::Jrc => 5,
        Condition::Jrne => 6,
        Condition::Jreq => 7,
        Condition::Jrnv => 8,
        Condition::Jrv => 9,
        Condition::Jrpl => 10,
        Condition::Jrmi => 11,
        Condition::Jrsgt => 12,
        Condition::Jrsle => 13,
        Condition::Jrsge => 14,
        Condition::Jrslt => 15,
    }
}

pub fn load_half_code(h: Half) -> u8
    ensures { result ≡ load_half_code h }
{
    match h {
        Half::Low => 0x9f,
        Half::High => 0x9e,
    }
}

pub fn store_half_code(h: Half) -> u8
    ensures { result ≡ store_half_code h }
{
    match h {
        Half::Low => 0x97,
        Half::High => 0x95,
    }
}

pub fn load_word_sp(r: Register) -> u8
    ensures { result ≡ load_word_sp r }
{
    match r {
        Register::X => 0x1e,
        Register::Y => 0x16,
    }
}

pub fn store_word_sp(r: Register) -> u8
    ensures { result ≡ store_word_sp r }
{
    match r {
        Register::X => 0x1f,
        Register::Y => 0x17,
    }
}

pub fn word_modify_code(o: WordModifyOp) -> u8
    ensures { result ≡ word_modify_code o }
{
    match o {
        WordModifyOp::Decw => 0x5a,
        WordModifyOp::Incw => 0x5c,
        WordModifyOp::Clrw => 0x5f,
    }
}

pub fn bit_precode(o: BitOp) -> u8
    ensures { result ≡ bit_precode o }
{
    match o {
        BitOp::Bset => 0x72,
        BitOp::Bres => 0x72,
        BitOp::Bcpl => 0x90,
        BitOp::Bccm => 0x90,
    }
}

pub fn bit_code(o: BitOp) -> u8
    ensures { (result ≡ bit_code o) × (result < 32) }
{
    match o {
        BitOp::Bset => 0x10,
        BitOp::Bres => 0x11,
        BitOp::Bcpl => 0x10,
        BitOp::Bccm => 0x11,
    }
}

pub fn test_code(o: BitTest) -> u8
    ensures { (result ≡ test_code o) × (result < 32) }
{
    match o {
        BitTest::Btjt => 0x00,
        BitTest::Btjf => 0x01,
    }
}

pub fn flag_code(o: FlagOp) -> u8
    ensures { result ≡ flag_code o }
{
    match o {
        FlagOp::Ccf => 0x8c,
        FlagOp::Rcf => 0x98,
        FlagOp::Scf => 0x99,
        FlagOp::Rvf => 0x9c,
    }
}

// The pre-code that tells Y from X, 0 for none.
pub fn precode(r: Register) -> u8
    ensures { result ≡ register_precode r }
{
    match r {
        Register::X => 0,
        Register::Y => 0x90,
    }
}
