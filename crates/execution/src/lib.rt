// An instruction on the registers: what it computes, what it moves, and its traps.
#![tactic(auto)]

mod moving;
mod operands;
mod operations;
mod performing;
mod results;

// Document 01 gives PC 24 bits; it is held in 32, and a larger value is in no code. The order leaves no gap between the registers, so that the
// compiler keeps each in a register of its own from step to step.
#[derive(Clone, Copy)]
pub struct Registers {
    pub a: u8,
    pub cc: u8,
    pub x: u16,
    pub y: u16,
    pub sp: u16,
    pub pc: u32,
}

// What an instruction computes, apart from what it moves: the registers but SP and PC, the value that it stores, and whether its
// condition holds.
#[derive(Clone, Copy)]
pub struct Computed {
    pub a: u8,
    pub cc: u8,
    pub x: u16,
    pub y: u16,
    pub stored: u16,
    pub taken: bool,
}

// A trap and a refusal are their numbers: definitions and theorems name them so.
#[derive(Clone, Copy)]
pub enum StepAnswer {
    Made,
    Finished,
    Trap(u8),
    Refused(u8),
}

#[derive(Clone, Copy)]
pub struct Stepped {
    pub answer: StepAnswer,
    pub registers: Registers,
}

// A step with its cycles: 0 unless it was made.
#[derive(Clone, Copy)]
pub struct TimedStep {
    pub stepped: Stepped,
    pub cycles: u64,
}

// What an instruction that no trap stops leaves: the registers after it, and its cycles.
#[derive(Clone, Copy)]
pub struct Performed {
    pub registers: Registers,
    pub cycles: u64,
}
