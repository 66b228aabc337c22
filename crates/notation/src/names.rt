// The names of the operations.
ghost use Rattle.std.specs.Prelude.{◌≡◌, ℕ, List};
ghost use Rattle.notation.specs.Names.{alu_name, modify_name, word_alu_name, word_modify_name, bit_name, test_name, condition_name, flag_name};

use stm8::{AluOp, BitOp, BitTest, Condition, FlagOp, ModifyOp, WordAluOp, WordModifyOp};

// The names of instructions that are no operation of a kind, and those of operations that stand for other instructions too.
pub const ADDW: &str = "ADDW";

pub const CALL: &str = "CALL";

pub const CALLR: &str = "CALLR";

pub const EXGW: &str = "EXGW";

pub const LD: &str = "LD";

pub const LDW: &str = "LDW";

pub const MOV: &str = "MOV";

pub const MUL: &str = "MUL";

pub const NOP: &str = "NOP";

pub const POP: &str = "POP";

pub const POPW: &str = "POPW";

pub const PUSH: &str = "PUSH";

pub const PUSHW: &str = "PUSHW";

pub const RET: &str = "RET";

pub const SUB: &str = "SUB";

/// An operation that has a name.
pub trait Named {
    ghost name_of: { Self → List ℕ };

    fn name(self) -> &'static str
        ensures { result.now ≡ name_of self };
}

impl Named for AluOp {
    ghost name_of = { alu_name };

    fn name(self) -> &'static str {
        match self {
            AluOp::Adc => "ADC",
            AluOp::Add => "ADD",
            AluOp::And => "AND",
            AluOp::Bcp => "BCP",
            AluOp::Cp => "CP",
            AluOp::Ld => LD,
            AluOp::Or => "OR",
            AluOp::Sbc => "SBC",
            AluOp::Sub => SUB,
            AluOp::Xor => "XOR",
        }
    }
}

impl Named for ModifyOp {
    ghost name_of = { modify_name };

    fn name(self) -> &'static str {
        match self {
            ModifyOp::Clr => "CLR",
            ModifyOp::Cpl => "CPL",
            ModifyOp::Dec => "DEC",
            ModifyOp::Inc => "INC",
            ModifyOp::Neg => "NEG",
            ModifyOp::Rlc => "RLC",
            ModifyOp::Rrc => "RRC",
            ModifyOp::Sll => "SLL",
            ModifyOp::Sra => "SRA",
            ModifyOp::Srl => "SRL",
            ModifyOp::Swap => "SWAP",
            ModifyOp::Tnz => "TNZ",
        }
    }
}

impl Named for WordAluOp {
    ghost name_of = { word_alu_name };

    fn name(self) -> &'static str {
        match self {
            WordAluOp::Addw => ADDW,
            WordAluOp::Cpw => "CPW",
            WordAluOp::Subw => "SUBW",
        }
    }
}

impl Named for WordModifyOp {
    ghost name_of = { word_modify_name };

    fn name(self) -> &'static str {
        match self {
            WordModifyOp::Clrw => "CLRW",
            WordModifyOp::Decw => "DECW",
            WordModifyOp::Incw => "INCW",
        }
    }
}

impl Named for BitOp {
    ghost name_of = { bit_name };

    fn name(self) -> &'static str {
        match self {
            BitOp::Bccm => "BCCM",
            BitOp::Bcpl => "BCPL",
            BitOp::Bres => "BRES",
            BitOp::Bset => "BSET",
        }
    }
}

impl Named for BitTest {
    ghost name_of = { test_name };

    fn name(self) -> &'static str {
        match self {
            BitTest::Btjf => "BTJF",
            BitTest::Btjt => "BTJT",
        }
    }
}

impl Named for Condition {
    ghost name_of = { condition_name };

    fn name(self) -> &'static str {
        match self {
            Condition::Jra => "JRA",
            Condition::Jrf => "JRF",
            Condition::Jrugt => "JRUGT",
            Condition::Jrule => "JRULE",
            Condition::Jrnc => "JRNC",
            Condition::Jrc => "JRC",
            Condition::Jrne => "JRNE",
            Condition::Jreq => "JREQ",
            Condition::Jrnv => "JRNV",
            Condition::Jrv => "JRV",
            Condition::Jrpl => "JRPL",
            Condition::Jrmi => "JRMI",
            Condition::Jrsgt => "JRSGT",
            Condition::Jrsle => "JRSLE",
            Condition::Jrsge => "JRSGE",
            Condition::Jrslt => "JRSLT",
        }
    }
}

impl Named for FlagOp {
    ghost name_of = { flag_name };

    fn name(self) -> &'static str {
        match self {
            FlagOp::Ccf => "CCF",
            FlagOp::Rcf => "RCF",
            FlagOp::Rvf => "RVF",
            FlagOp::Scf => "SCF",
        }
    }
}
