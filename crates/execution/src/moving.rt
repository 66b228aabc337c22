// What an instruction moves, by the shape of its effect: SP, PC and memory, or its trap. What touches memory by an operand gives no registers,
// so that these never have to lie in memory.
ghost use Rattle.std.specs.Prelude.{◌≡◌, false, cond, List, ℕ, ◌+◌, ◌-◌, ◌<◌};
ghost use Rattle.stm8.specs.Effects.{relative as relative_to, bytes_wide, place_of, is_call, moves as moves_of, goes as goes_of};
ghost use Rattle.stm8.specs.declared.Place.{Place};
ghost use Rattle.stm8.specs.declared.Place.TheVariants.{Nowhere, Pushed};
ghost use Rattle.stm8.specs.declared.Flow.{Flow};
ghost use Rattle.image.specs.declared.Limits.{Limits};
ghost use Rattle.storage.specs.Storing.{sp_trap, move_trap, call_trap};
ghost use Rattle.execution.specs.Performing.{pc_after};
ghost use Rattle.storage.specs.Storing.{Stored};
ghost use Rattle.storage.specs.Traps.{number_of};
ghost use Rattle.execution.specs.Internal.{performed_by, made_with, timed_as};

use crate::{Computed, Performed, Registers, StepAnswer, Stepped, TimedStep};
use effects::{bytes_wide, relative};
use image::Limits;
use stm8::{Operand, Width};
use storage::{Trap, move_trap, put, put_operand};

// Where a relative jump or call from the next address goes.
pub(crate) fn target(next: u32, offset: u8) -> u32
    requires { next < 0x1000000 }
    ensures { result ≡ relative_to next offset }
{
    relative(next, offset) as u32
}

// Where a jump goes on.
fn destination(taken: bool, next: u32, offset: u8) -> u32
    requires { next < 0x1000000 }
    ensures { result ≡ cond taken (relative_to next offset) next }
{
    if taken { target(next, offset) } else { next }
}

// The cycles of a jump.
fn charged(holds: bool, untaken: u64, taken: u64) -> u64
    ensures { result ≡ cond holds taken untaken }
{
    if holds { taken } else { untaken }
}

impl Computed {
    // What was computed, with SP and PC, and the cycles that it takes.
    fn made(self, sp: u16, pc: u32, cycles: u64) -> Performed
        ensures { result ≡ made_with self sp pc cycles }
    {
        let registers = Registers {
            a: self.a,
            cc: self.cc,
            x: self.x,
            y: self.y,
            sp,
            pc,
        };
        Performed { registers, cycles }
    }
}

impl Registers {
    // An answer with the registers.
    pub fn answer(self, answer: StepAnswer) -> Stepped
        ensures { result ≡ record { answer = answer; registers = self } }
    {
        Stepped {
            answer,
            registers: self,
        }
    }

    // A whole step from these registers: a trap changes nothing and costs nothing.
    pub(crate) fn timed(self, performed: Result<Performed, Trap>) -> TimedStep
        ensures { result ≡ timed_as self performed }
    {
        match performed {
            Ok(made) => TimedStep {
                stepped: made.registers.answer(StepAnswer::Made),
                cycles: made.cycles,
            },
            Err(trap) => TimedStep {
                stepped: self.answer(StepAnswer::Trap(u8::from(trap))),
                cycles: 0,
            },
        }
    }

    // SP after pops and pushes.
    fn sp_after(self, pops: u8, pushes: u8) -> u16
        requires { self.sp + pops < 0x10000 }
        ensures { result ≡ self.sp + pops - pushes }
    {
        (self.sp as u32 + pops as u32).saturating_sub(pushes as u32) as u16
    }

    // Nothing moves but PC, and SP is in its range: no trap.
    pub(crate) fn goes(self, c: Computed, pc: u32, cycles: u64) -> Result<Performed, Trap>
        ensures { (image memory : List ℕ) (limits : Limits) (next : ℕ) (flow : Flow) →
            sp_trap limits self.sp ≡ 0 → is_call flow ≡ false → pc ≡ pc_after image memory self.sp next c.taken flow →
            performed_by image limits self memory next cycles c (goes_of flow) ≡ (timed_as self result, memory) }
    {
        Ok(c.made(self.sp, pc, cycles))
    }

    // A jump, which goes where its condition holds.
    pub(crate) fn jumps(
        self,
        c: Computed,
        next: u32,
        offset: u8,
        untaken: u64,
        taken: u64,
    ) -> Result<Performed, Trap>
        requires { next < 0x1000000 }
        ensures { (image memory : List ℕ) (limits : Limits) (flow : Flow) → sp_trap limits self.sp ≡ 0 → is_call flow ≡ false →
            cond c.taken (relative_to next offset) next ≡ pc_after image memory self.sp next c.taken flow →
            performed_by image limits self memory next (cond c.taken taken untaken) c (goes_of flow) ≡ (timed_as self result, memory) }
    {
        self.goes(
            c,
            destination(c.taken, next, offset),
            charged(c.taken, untaken, taken),
        )
    }

    // SP moves, and nothing is stored: 24.
    pub(crate) fn moves(
        self,
        limits: Limits,
        c: Computed,
        pops: u8,
        pushes: u8,
        pc: u32,
        cycles: u64,
    ) -> Result<Performed, Trap>
        ensures { (image memory : List ℕ) (next : ℕ) (flow : Flow) → is_call flow ≡ false →
            pc ≡ pc_after image memory self.sp next c.taken flow →
            performed_by image limits self memory next cycles c (record { pops = pops; pushes = pushes; place = Nowhere; flow = flow }) ≡ (timed_as self result, memory) }
    {
        move_trap(limits, self.sp, pops, pushes)?;
        Ok(c.made(self.sp_after(pops, pushes), pc, cycles))
    }

    // A value is pushed, just above the new SP: 24, then the trap of a call, where it is one.
    pub(crate) fn pushes(
        self,
        limits: Limits,
        memory: &mut [u8],
        c: Computed,
        w: Width,
        pc: u32,
        call: Result<(), Trap>,
        cycles: u64,
    ) -> Result<Performed, Trap>
        ensures { (image : List ℕ) (next : ℕ) (flow : Flow) → number_of call ≡ call_trap next flow →
            pc ≡ pc_after image memory.old self.sp next c.taken flow →
            performed_by image limits self memory.old next cycles c (record { pops = 0; pushes = bytes_wide w; place = Pushed w; flow = flow }) ≡
            (timed_as self result, memory.new) }
    {
        let wide = bytes_wide(w) as u8;
        move_trap(limits, self.sp, 0, wide)?;
        call?;
        let sp = self.sp_after(0, wide);
        put(memory, sp as u32 + 1, w, c.stored);
        Ok(c.made(sp, pc, cycles))
    }

    // A store was tried, with SP already moved: its trap, or the instruction is made.
    pub(crate) fn stores(
        self,
        c: Computed,
        stored: Result<(), Trap>,
        sp: u16,
        next: u32,
        cycles: u64,
    ) -> Result<Performed, Trap>
        ensures { (image memory memory' : List ℕ) (limits : Limits) (pops : ℕ) (place : Place) →
            move_trap limits self.sp (moves_of pops 0 place) ≡ 0 → sp ≡ self.sp + pops →
            Stored limits self.sp place c.stored memory (number_of stored) memory' →
            performed_by image limits self memory next cycles c (moves_of pops 0 place) ≡ (timed_as self result, memory') }
    {
        stored?;
        Ok(c.made(sp, next, cycles))
    }

    // A byte is popped and stored to an operand: 24, then 25.
    pub(crate) fn pops(
        self,
        limits: Limits,
        memory: &mut [u8],
        c: Computed,
        x: Operand,
        next: u32,
        cycles: u64,
    ) -> Result<Performed, Trap>
        ensures { (image : List ℕ) → performed_by image limits self memory.old next cycles c (moves_of 1 0 (place_of x Width.Byte)) ≡
            (timed_as self result, memory.new) }
    {
        move_trap(limits, self.sp, 1, 0)?;
        let stored = put_operand(limits, memory, self.sp, x, Width::Byte, c.stored);
        self.stores(c, stored, self.sp_after(1, 0), next, cycles)
    }
}
