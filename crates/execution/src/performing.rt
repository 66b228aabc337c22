// An instruction: what it computes, and what it moves by the shape of its effect.
ghost use Rattle.std.specs.Prelude.{◌≡◌, cond, List, ℕ, ◌<◌};
ghost use Rattle.stm8.specs.declared.Instruction.TheVariants.{Alu, Store, Modify, LoadWord, StoreWord, Popw, Bit, BitJump};
ghost use Rattle.stm8.specs.declared.Instruction.TheVariants.{Mov, Push, Pop, Call, Callr, Ret};
ghost use Rattle.storage.specs.Storing.{sp_trap};
ghost use Rattle.byte_operations.specs.BitOperations.{bit_holds};
ghost use Rattle.storage.specs.Reading.{read_byte};
ghost use Rattle.execution.specs.Performing.{performed};
ghost use Rattle.execution.specs.Cycles.{instruction_cycles, cost_of};
ghost use Rattle.execution.specs.Internal.{performed_as, timed_as};

use crate::moving::target;
use crate::{Performed, Registers, TimedStep};
use effects::writes_back;
use image::Limits;
use stm8::{AluOp, BitOp, BitTest, Instruction, ModifyOp, Operand, Register, Width};
use storage::{Trap, call_trap, put_direct, put_operand, read_byte, read_word};

impl Registers {
    fn perform_alu(
        self,
        image: &[u8],
        limits: Limits,
        memory: &[u8],
        o: AluOp,
        x: Operand,
        next: u32,
        cycles: u64,
    ) -> Result<Performed, Trap>
        ensures { sp_trap limits self.sp ≡ 0 →
            performed_as image.now limits self memory.now next cycles (Alu o x) ≡ (timed_as self result, memory.now) }
    {
        self.goes(
            self.alu(o, self.operand_byte(image, memory, x)),
            next,
            cycles,
        )
    }

    fn perform_store(
        self,
        limits: Limits,
        memory: &mut [u8],
        x: Operand,
        next: u32,
        cycles: u64,
    ) -> Result<Performed, Trap>
        ensures { (image : List ℕ) → sp_trap limits self.sp ≡ 0 →
            performed_as image limits self memory.old next cycles (Store x) ≡ (timed_as self result, memory.new) }
    {
        let c = self.store_a();
        let stored = put_operand(limits, memory, self.sp, x, Width::Byte, c.stored);
        self.stores(c, stored, self.sp, next, cycles)
    }

    fn perform_modify(
        self,
        image: &[u8],
        limits: Limits,
        memory: &mut [u8],
        o: ModifyOp,
        x: Operand,
        next: u32,
        cycles: u64,
    ) -> Result<Performed, Trap>
        ensures { sp_trap limits self.sp ≡ 0 →
            performed_as image.now limits self memory.old next cycles (Modify o x) ≡ (timed_as self result, memory.new) }
    {
        let c = self.modify(o, x, self.operand_byte(image, memory, x));
        if writes_back(o) {
            let stored = put_operand(limits, memory, self.sp, x, Width::Byte, c.stored);
            return self.stores(c, stored, self.sp, next, cycles);
        }
        self.goes(c, next, cycles)
    }

    fn perform_load_word(
        self,
        image: &[u8],
        limits: Limits,
        memory: &[u8],
        r: Register,
        x: Operand,
        next: u32,
        cycles: u64,
    ) -> Result<Performed, Trap>
        ensures { sp_trap limits self.sp ≡ 0 →
            performed_as image.now limits self memory.now next cycles (LoadWord r x) ≡ (timed_as self result, memory.now) }
    {
        self.goes(
            self.load_word(r, self.operand_word(image, memory, x)),
            next,
            cycles,
        )
    }

    fn perform_store_word(
        self,
        limits: Limits,
        memory: &mut [u8],
        r: Register,
        x: Operand,
        next: u32,
        cycles: u64,
    ) -> Result<Performed, Trap>
        ensures { (image : List ℕ) → sp_trap limits self.sp ≡ 0 →
            performed_as image limits self memory.old next cycles (StoreWord r x) ≡ (timed_as self result, memory.new) }
    {
        let c = self.store_word(r);
        let stored = put_operand(limits, memory, self.sp, x, Width::Word, c.stored);
        self.stores(c, stored, self.sp, next, cycles)
    }

    fn perform_popw(
        self,
        image: &[u8],
        limits: Limits,
        memory: &[u8],
        r: Register,
        next: u32,
        cycles: u64,
    ) -> Result<Performed, Trap>
        ensures { performed_as image.now limits self memory.now next cycles (Popw r) ≡ (timed_as self result, memory.now) }
    {
        let w = read_word(image, memory, self.sp as u32 + 1);
        self.moves(limits, self.with_word(r, w), 2, 0, next, cycles)
    }

    fn perform_bit(
        self,
        image: &[u8],
        limits: Limits,
        memory: &mut [u8],
        o: BitOp,
        n: u8,
        a: u16,
        next: u32,
        cycles: u64,
    ) -> Result<Performed, Trap>
        ensures { sp_trap limits self.sp ≡ 0 →
            performed_as image.now limits self memory.old next cycles (Bit o n a) ≡ (timed_as self result, memory.new) }
    {
        let c = self.bit(o, n, read_byte(image, memory, a as u32));
        let stored = put_direct(limits, memory, a, Width::Byte, c.stored);
        self.stores(c, stored, self.sp, next, cycles)
    }

    fn perform_bit_jump(
        self,
        image: &[u8],
        limits: Limits,
        memory: &[u8],
        o: BitTest,
        n: u8,
        a: u16,
        offset: u8,
        next: u32,
        untaken: u64,
        taken: u64,
    ) -> Result<Performed, Trap>
        requires { next < 0x1000000 }
        ensures { sp_trap limits self.sp ≡ 0 →
            performed_as image.now limits self memory.now next (cond (bit_holds o n (read_byte image.now memory.now a)) taken untaken) (BitJump o n a offset) ≡ (timed_as self result, memory.now) }
    {
        self.jumps(
            self.bit_jump(o, n, read_byte(image, memory, a as u32)),
            next,
            offset,
            untaken,
            taken,
        )
    }

    fn perform_mov(
        self,
        image: &[u8],
        limits: Limits,
        memory: &mut [u8],
        to: Operand,
        from: Operand,
        next: u32,
        cycles: u64,
    ) -> Result<Performed, Trap>
        ensures { sp_trap limits self.sp ≡ 0 →
            performed_as image.now limits self memory.old next cycles (Mov to from) ≡ (timed_as self result, memory.new) }
    {
        let c = self.storing_byte(self.operand_byte(image, memory, from));
        let stored = put_operand(limits, memory, self.sp, to, Width::Byte, c.stored);
        self.stores(c, stored, self.sp, next, cycles)
    }

    fn perform_push(
        self,
        image: &[u8],
        limits: Limits,
        memory: &mut [u8],
        x: Operand,
        next: u32,
        cycles: u64,
    ) -> Result<Performed, Trap>
        ensures { performed_as image.now limits self memory.old next cycles (Push x) ≡ (timed_as self result, memory.new) }
    {
        let c = self.storing_byte(self.operand_byte(image, memory, x));
        self.pushes(limits, memory, c, Width::Byte, next, Ok(()), cycles)
    }

    fn perform_pop(
        self,
        image: &[u8],
        limits: Limits,
        memory: &mut [u8],
        x: Operand,
        next: u32,
        cycles: u64,
    ) -> Result<Performed, Trap>
        ensures { performed_as image.now limits self memory.old next cycles (Pop x) ≡ (timed_as self result, memory.new) }
    {
        let c = self.pop(x, read_byte(image, memory, self.sp as u32 + 1));
        self.pops(limits, memory, c, x, next, cycles)
    }

    fn perform_call(
        self,
        limits: Limits,
        memory: &mut [u8],
        a: u16,
        next: u32,
        cycles: u64,
    ) -> Result<Performed, Trap>
        ensures { (image : List ℕ) → performed_as image limits self memory.old next cycles (Call a) ≡ (timed_as self result, memory.new) }
    {
        let c = self.storing((next % 0x10000) as u16, self.cc);
        self.pushes(
            limits,
            memory,
            c,
            Width::Word,
            a as u32,
            call_trap(next),
            cycles,
        )
    }

    fn perform_callr(
        self,
        limits: Limits,
        memory: &mut [u8],
        offset: u8,
        next: u32,
        cycles: u64,
    ) -> Result<Performed, Trap>
        requires { next < 0x1000000 }
        ensures { (image : List ℕ) → performed_as image limits self memory.old next cycles (Callr offset) ≡ (timed_as self result, memory.new) }
    {
        let c = self.storing((next % 0x10000) as u16, self.cc);
        self.pushes(
            limits,
            memory,
            c,
            Width::Word,
            target(next, offset),
            call_trap(next),
            cycles,
        )
    }

    fn perform_ret(
        self,
        image: &[u8],
        limits: Limits,
        memory: &[u8],
        next: u32,
        cycles: u64,
    ) -> Result<Performed, Trap>
        ensures { performed_as image.now limits self memory.now next cycles (Ret) ≡ (timed_as self result, memory.now) }
    {
        let address = read_word(image, memory, self.sp as u32 + 1);
        self.moves(limits, self.unchanged(), 2, 0, address as u32, cycles)
    }

    // An instruction, with the address after it. Its cycles, the manual's figures once more, stand here as numbers: looked up by the instruction they would
    // cost a run a tenth of its speed.
    fn perform(
        self,
        image: &[u8],
        limits: Limits,
        memory: &mut [u8],
        i: Instruction,
        next: u32,
    ) -> Result<Performed, Trap>
        requires { next < 0x1000000 }
        ensures { sp_trap limits self.sp ≡ 0 →
            performed_as image.now limits self memory.old next
            (instruction_cycles image.now memory.old self next i) i ≡ (timed_as self result, memory.new) }
    {
        match i {
            Instruction::Alu(o, x) => self.perform_alu(image, limits, memory, o, x, next, 1),
            Instruction::Store(x) => self.perform_store(limits, memory, x, next, 1),
            Instruction::LoadHalf(r, h) => self.goes(self.load_half(r, h), next, 1),
            Instruction::StoreHalf(r, h) => self.goes(self.store_half(r, h), next, 1),
            Instruction::Modify(o, x) => self.perform_modify(image, limits, memory, o, x, next, 1),
            Instruction::LoadWord(r, x) => self.perform_load_word(
                image, limits, memory, r, x, next, 2,
            ),
            Instruction::StoreWord(r, x) => self.perform_store_word(limits, memory, r, x, next, 2),
            Instruction::CopyWord(r) => self.goes(self.copy_word(r), next, 1),
            Instruction::WordAlu(o, r, w) => self.goes(self.word_alu(o, r, w), next, 2),
            Instruction::WordModify(o, r) => self.goes(self.word_modify(o, r), next, 1),
            Instruction::Pushw(r) => self.pushes(
                limits,
                memory,
                self.pushw(r),
                Width::Word,
                next,
                Ok(()),
                2,
            ),
            Instruction::Popw(r) => self.perform_popw(image, limits, memory, r, next, 2),
            Instruction::Exgw => self.goes(self.exchanged(), next, 1),
            Instruction::Mul(r) => self.goes(self.mul(r), next, 4),
            Instruction::Bit(o, n, a) => self.perform_bit(image, limits, memory, o, n, a, next, 1),
            Instruction::BitJump(o, n, a, offset) => self.perform_bit_jump(
                image, limits, memory, o, n, a, offset, next, 2, 3,
            ),
            Instruction::Mov(to, from) => self.perform_mov(
                image, limits, memory, to, from, next, 1,
            ),
            Instruction::Push(x) => self.perform_push(image, limits, memory, x, next, 1),
            Instruction::Pop(x) => self.perform_pop(image, limits, memory, x, next, 1),
            Instruction::SubSp(n) => self.moves(limits, self.unchanged(), 0, n, next, 1),
            Instruction::AddSp(n) => self.moves(limits, self.unchanged(), n, 0, next, 2),
            Instruction::Jump(o, offset) => self.jumps(self.jump(o), next, offset, 1, 2),
            Instruction::Call(a) => self.perform_call(limits, memory, a, next, 4),
            Instruction::Callr(offset) => self.perform_callr(limits, memory, offset, next, 4),
            Instruction::Ret => self.perform_ret(image, limits, memory, next, 4),
            Instruction::Nop => self.goes(self.unchanged(), next, 1),
            Instruction::Flag(o) => self.goes(self.flag(o), next, 1),
        }
    }

    // A step of an instruction, with the address after it, from where SP is in its range: only what moves SP tests for 24. PC has 24 bits.
    pub fn step(
        self,
        image: &[u8],
        limits: Limits,
        memory: &mut [u8],
        i: Instruction,
        next: u32,
    ) -> TimedStep
        ensures outcome { next < 0x1000000 → sp_trap limits self.sp ≡ 0 →
            performed image.now limits self memory.old next i ≡ (result.stepped, memory.new) }
        ensures cost { next < 0x1000000 → sp_trap limits self.sp ≡ 0 →
            result.cycles ≡ cost_of result.stepped.answer (instruction_cycles image.now memory.old self next i) }
    {
        self.timed(self.perform(image, limits, memory, i, next % 0x1000000))
    }
}
