// The instructions of the gate set. The op-code map, the bytes of an instruction, its effect and its cycles stand in specs/.
#![tactic(auto)]

mod tables;

pub use tables::map_lengths;

// The index registers.
#[derive(Clone, Copy)]
pub enum Register {
    X,
    Y,
}

// The halves of an index register: XL and XH, YL and YH.
#[derive(Clone, Copy)]
pub enum Half {
    Low,
    High,
}

// The offset of an indexed operand: (X), (shortoff,X), (longoff,X).
#[derive(Clone, Copy)]
pub enum Offset {
    Zero,
    Byte(u8),
    Word(u16),
}

// A, #byte, #word, shortmem, longmem, an indexed operand, (shortoff,SP).
#[derive(Clone, Copy)]
pub enum Operand {
    Accumulator,
    Immediate(u8),
    ImmediateWord(u16),
    Short(u8),
    Long(u16),
    Indexed(Register, Offset),
    Sp(u8),
}

// Operations on A with an operand.
#[derive(Clone, Copy)]
pub enum AluOp {
    Adc,
    Add,
    And,
    Bcp,
    Cp,
    Ld,
    Or,
    Sbc,
    Sub,
    Xor,
}

// Operations that read, modify and write their operand. (TNZ writes nothing back.)
#[derive(Clone, Copy)]
pub enum ModifyOp {
    Clr,
    Cpl,
    Dec,
    Inc,
    Neg,
    Rlc,
    Rrc,
    Sll,
    Sra,
    Srl,
    Swap,
    Tnz,
}

// Operations on an index register with #word.
#[derive(Clone, Copy)]
pub enum WordAluOp {
    Addw,
    Cpw,
    Subw,
}

// Operations that modify an index register.
#[derive(Clone, Copy)]
pub enum WordModifyOp {
    Clrw,
    Decw,
    Incw,
}

// Operations on a bit of longmem.
#[derive(Clone, Copy)]
pub enum BitOp {
    Bccm,
    Bcpl,
    Bres,
    Bset,
}

// Jumps by a bit of longmem.
#[derive(Clone, Copy)]
pub enum BitTest {
    Btjf,
    Btjt,
}

// The conditions of the relative jumps, in the order of their op-codes 20 to 2F.
#[derive(Clone, Copy)]
pub enum Condition {
    Jra,
    Jrf,
    Jrugt,
    Jrule,
    Jrnc,
    Jrc,
    Jrne,
    Jreq,
    Jrnv,
    Jrv,
    Jrpl,
    Jrmi,
    Jrsgt,
    Jrsle,
    Jrsge,
    Jrslt,
}

// Operations on a flag alone.
#[derive(Clone, Copy)]
pub enum FlagOp {
    Ccf,
    Rcf,
    Rvf,
    Scf,
}

#[derive(Clone, Copy)]
pub enum Instruction {
    // on A, from the operand
    Alu(AluOp, Operand),
    // LD operand,A
    Store(Operand),
    // LD A,XL and the like
    LoadHalf(Register, Half),
    // LD XL,A and the like
    StoreHalf(Register, Half),
    Modify(ModifyOp, Operand),
    // LDW register,operand
    LoadWord(Register, Operand),
    // LDW operand,register
    StoreWord(Register, Operand),
    // LDW register,the other one
    CopyWord(Register),
    WordAlu(WordAluOp, Register, u16),
    WordModify(WordModifyOp, Register),
    Pushw(Register),
    Popw(Register),
    Exgw,
    // MUL register,A
    Mul(Register),
    // bit position and address
    Bit(BitOp, u8, u16),
    // bit position, address and the jump's offset
    BitJump(BitTest, u8, u16, u8),
    // destination and source
    Mov(Operand, Operand),
    Push(Operand),
    Pop(Operand),
    // SUB SP,#byte
    SubSp(u8),
    // ADDW SP,#byte
    AddSp(u8),
    // the jump's offset
    Jump(Condition, u8),
    Call(u16),
    Callr(u8),
    Ret,
    Nop,
    Flag(FlagOp),
}

// Why decoding finds no instruction: the op-code is outside the set, or the bytes end too soon.
#[derive(Clone, Copy, Debug, PartialEq, Eq)]
pub enum DecodeError {
    Outside,
    Truncated,
}

// What decoding finds: an instruction and its length.
pub type Decoded = Result<(Instruction, usize), DecodeError>;

// What encoding gives: the number 0 or 18, the length, and the bytes, 0 past the length.
#[derive(Clone, Copy)]
pub struct Encoded {
    pub number: u8,
    pub length: usize,
    pub bytes: [u8; 5],
}

// How many bytes a store writes.
#[derive(Clone, Copy)]
pub enum Width {
    Byte,
    Word,
}

// Where an instruction stores: nowhere, at an address, at an offset from SP, or on the bytes that it pushes.
#[derive(Clone, Copy)]
pub enum Place {
    Nowhere,
    Direct(u16, Width),
    OnStack(u8, Width),
    Pushed(Width),
}

// Where an instruction goes on: at the next one; there or at an offset from there; at an offset from there alone; at a routine, by
// its address or by an offset; or where the routine was called.
#[derive(Clone, Copy)]
pub enum Flow {
    Next,
    Branch(u8),
    Jump(u8),
    Call(u16),
    CallRelative(u8),
    Return,
}

// What an instruction moves, apart from what it computes: the stack bytes it pops and then pushes, where it stores, and its flow.
#[derive(Clone, Copy)]
pub struct Effect {
    pub pops: u8,
    pub pushes: u8,
    pub place: Place,
    pub flow: Flow,
}

// The cycles of an instruction: where a branch is not taken, and where it is. What prints one figure has it in both.
#[derive(Clone, Copy)]
pub struct Cycles {
    pub untaken: u8,
    pub taken: u8,
}
