// Resuming from a saved state: refused, or the run goes on.
#![tactic(auto)]

mod frames;
mod good;

ghost use Rattle.std.specs.Prelude.{◌≡◌, length};
ghost use Rattle.machine.specs.Run.{ran};
ghost use Rattle.resuming.specs.Resuming.{zeros_for, allowance, Ends, ran_on, ResumesAccepted, Resumes};
ghost use Rattle.resuming.specs.Values.{resume_number, resume_offset, ResumeNumbered};
ghost use Rattle.resuming.specs.Internal.{Accepting, Untrapped, ending_at};

use checker::check_begins;
use gate::{Limits, Registers, run};
use good::is_good;
use numbers::checks::{first, unless};
use saved_state::{SavedState, saved_check, state_in};

// Finished or spent, as a run; or refused, with the number and, where the check refuses, its offset.
#[derive(Clone, Copy)]
pub enum ResumeAnswer {
    Finished,
    Spent,
    Refused(u8, u16),
}

// Steps are the total, the record's and those made now; cycles are those of the steps made now.
#[derive(Clone, Copy)]
pub struct Resumed {
    pub answer: ResumeAnswer,
    pub registers: Registers,
    pub steps: u64,
    pub cycles: u64,
}

// Refused: all zeros.
fn refused(number: u8, offset: u16) -> Resumed
    ensures { result ≡ zeros_for number offset }
{
    let registers = Registers {
        a: 0,
        x: 0,
        y: 0,
        cc: 0,
        sp: 0,
        pc: 0,
    };
    Resumed {
        answer: ResumeAnswer::Refused(number, offset),
        registers,
        steps: 0,
        cycles: 0,
    }
}

// The steps that a part may make: no total passes 18,446,744,073,709,551,615.
fn allowance_of(budget: u32, state: SavedState) -> u32
    ensures { result ≡ allowance budget state }
{
    let left = 0xFFFFFFFFFFFFFFFF - state.steps;
    if left < budget as u64 {
        left as u32
    } else {
        budget
    }
}

// How a run ended that has not trapped: finished at PC 0, else spent.
fn ending(registers: Registers) -> ResumeAnswer
    ensures { result ≡ ending_at registers }
{
    if registers.pc == 0 {
        ResumeAnswer::Finished
    } else {
        ResumeAnswer::Spent
    }
}

// The run goes on from a state.
fn run_on(
    image: &[u8],
    limits: Limits,
    memory: &mut [u8],
    state: SavedState,
    budget: u32,
) -> Resumed
    requires { Untrapped (ran (allowance budget state) image.now limits state.registers memory.old).0.answer }
    ensures ends { Ends (ran (allowance budget state) image.now limits state.registers memory.old).0.answer result.answer }
    ensures memory_after { (result, memory.new) ≡ ran_on image.now limits memory.old state budget result.answer }
{
    let timed = run(
        image,
        limits,
        state.registers,
        memory,
        allowance_of(budget, state),
    );
    let ran = timed.ran;
    let registers = ran.registers;
    let before = state.steps;
    let made = ran.steps as u64;
    Resumed {
        answer: ending(registers),
        registers,
        steps: before + made,
        cycles: timed.cycles,
    }
}

// An accepted image, and the marks that the check left: 34, then 35, else the run.
fn resume_accepted(
    image: &[u8],
    limits: Limits,
    begins: &[u16; 32],
    marks: &[u16],
    memory: &mut [u8],
    bytes: &[u8],
    budget: u32,
) -> Resumed
    requires accepting { Accepting image.now limits begins.now marks.now }
    requires memory_len { length memory.old ≡ 32768 }
    ensures { ResumesAccepted image.now limits marks.now memory.old bytes.now budget result memory.new }
{
    let unread = saved_check(bytes);
    let state = state_in(bytes);
    let good = is_good(image, limits, begins, marks, memory, state.registers);
    let ungood = unless(good, 35);
    let number = first(unread, ungood);
    if number != 0 {
        return refused(number, 0);
    }
    run_on(image, limits, memory, state, budget)
}

// Resumes from a record: 17, then the whole check, then 34 and 35; else the run goes on.
pub fn resume(
    image: &[u8],
    limits: Limits,
    marks: &mut [u16],
    memory: &mut [u8],
    bytes: &[u8],
    budget: u32,
) -> Resumed
    ensures resumes { Resumes image.now limits marks.old memory.old bytes.now budget
        result marks.new memory.new }
    ensures resume_numbered { ResumeNumbered result.answer }
{
    if memory.len() != 32768 {
        return refused(17, 0);
    }
    let checked = check_begins(image, limits, marks);
    let verdict = checked.verdict;
    let begins = checked.begins;
    match verdict {
        Err(refusal) => refused(refusal.number, refusal.offset),
        Ok(_) => { resume_accepted(image, limits, &begins, marks, memory, bytes, budget) }
    }
}

// The number of an answer: 64 finished, 65 spent, else the refusal's.
pub fn resume_number(answer: ResumeAnswer) -> u8
    ensures { result ≡ resume_number answer }
{
    match answer {
        ResumeAnswer::Finished => 64,
        ResumeAnswer::Spent => 65,
        ResumeAnswer::Refused(number, _) => number,
    }
}

// The offset of a refusal, 0 where there is none.
pub fn resume_offset(answer: ResumeAnswer) -> u16
    ensures { result ≡ resume_offset answer }
{
    match answer {
        ResumeAnswer::Finished => 0,
        ResumeAnswer::Spent => 0,
        ResumeAnswer::Refused(_, offset) => offset,
    }
}
