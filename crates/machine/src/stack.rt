// The stack: push, pop, call and return.
#![tactic(auto, unfolding(crate::specs::Execute::acts))]

ghost use Rattle.std.specs.Prelude.{◌≡◌};
ghost use Rattle.arith.specs.Words.{further};
ghost use Rattle.machine.specs.Answers.{Gives, making};
ghost use Rattle.machine.specs.Memory.{word_at};
ghost use Rattle.machine.specs.Stack.{pushed_of, returned_to, called_of};
ghost use Rattle.machine.specs.State.{with_sp, stacked_of, with_stacked};

use crate::{Cpu, MEMORY_SIZE, memory};
use arith::words;
use insn::Stacked;

impl Cpu {
    // A word pushed: the high byte one below SP, the low byte one below that.
    pub(crate) fn push(mut self, w: u16, mem: &mut [u8; MEMORY_SIZE]) -> Cpu
        ensures { Gives (making (pushed_of w self) mem.old) result mem.new }
    {
        let sp = self.sp;
        memory::store(mem, words::back(1, sp), words::high(w));
        memory::store(mem, words::back(2, sp), words::low(w));
        self.sp = words::back(2, sp);
        Cpu { ..self }
    }

    pub(crate) fn call(mut self, to: u16, mem: &mut [u8; MEMORY_SIZE]) -> Cpu
        ensures { Gives (making (called_of to self) mem.old) result mem.new }
    {
        let pc = self.pc;
        self.pc = to;
        self.push(pc, mem)
    }

    // A return to a word that was on the stack.
    pub(crate) fn return_to(mut self, to: u16) -> Cpu
        ensures { result ≡ returned_to to self }
    {
        self.sp = words::further(2, self.sp);
        self.pc = to;
        Cpu { ..self }
    }

    pub(crate) fn ret(self, mem: &[u8; MEMORY_SIZE]) -> Cpu
        ensures { result ≡ returned_to (word_at mem.now self.sp) self }
    {
        self.return_to(memory::read_word(mem, self.sp))
    }

    pub(crate) fn pop(mut self, p: Stacked, mem: &[u8; MEMORY_SIZE]) -> Cpu
        ensures { result ≡ with_stacked p (word_at mem.now self.sp) (with_sp (further 2 self.sp) self) }
    {
        let w = memory::read_word(mem, self.sp);
        self.sp = words::further(2, self.sp);
        self.with_stacked(p, w)
    }

    pub(crate) fn push_pair(self, p: Stacked, mem: &mut [u8; MEMORY_SIZE]) -> Cpu
        ensures { Gives (making (pushed_of (stacked_of p self) self) mem.old) result mem.new }
    {
        self.push(self.stacked(p), mem)
    }
}
