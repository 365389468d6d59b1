// Jumps, calls and returns, with and without a condition.
#![tactic(auto, unfolding(crate::specs::Execute::acts))]

ghost use Rattle.std.specs.Prelude.{◌≡◌};
ghost use Rattle.arith.specs.Words.{offset_of};
ghost use Rattle.machine.specs.Answers.{Gives, storing, making};
ghost use Rattle.machine.specs.Execute.{taken_if, stores_if};
ghost use Rattle.machine.specs.Memory.{word_at};
ghost use Rattle.machine.specs.Stack.{called_of, returned_to};
ghost use Rattle.machine.specs.State.{with_pc, met_of, hl_of};

use crate::{Cpu, Done, MEMORY_SIZE};
use arith::words;
use insn::Cond;

impl Cpu {
    // An instruction that is done, with the cycles beyond its own.
    pub(crate) fn done_after(self, extra: u8) -> Done
        ensures { result ≡ record { cpu = self; extra = extra } }
    {
        Done { cpu: self, extra }
    }

    // The address after, moved by a signed byte.
    pub(crate) fn jump_by(self, e: u8) -> Cpu
        ensures { result ≡ with_pc (offset_of e self.pc) self }
    {
        self.with_pc(words::offset(e, self.pc))
    }

    pub(crate) fn jump_hl(self) -> Cpu
        ensures { result ≡ with_pc (hl_of self) self }
    {
        self.with_pc(self.hl())
    }

    // A taken one costs 1 more.
    pub(crate) fn jump_if(self, cc: Cond, to: u16) -> Done
        ensures { result ≡ taken_if (met_of cc self.f) 1 (with_pc to self) self }
    {
        if self.met(cc) {
            self.with_pc(to).done_after(1)
        } else {
            self.done()
        }
    }

    pub(crate) fn jump_by_if(self, cc: Cond, e: u8) -> Done
        ensures { result ≡ taken_if (met_of cc self.f) 1 (with_pc (offset_of e self.pc) self) self }
    {
        self.jump_if(cc, words::offset(e, self.pc))
    }

    // A taken one costs 3 more.
    pub(crate) fn call_if(self, cc: Cond, to: u16, mem: &mut [u8; MEMORY_SIZE]) -> Done
        ensures { Gives (making (storing (taken_if (met_of cc self.f) 3 (called_of to self).out self) (stores_if (met_of cc self.f) (called_of to self).stores)) mem.old) result mem.new }
    {
        if self.met(cc) {
            self.call(to, mem).done_after(3)
        } else {
            self.done()
        }
    }

    // A taken one costs 3 more.
    pub(crate) fn ret_if(self, cc: Cond, mem: &[u8; MEMORY_SIZE]) -> Done
        ensures { result ≡ taken_if (met_of cc self.f) 3 (returned_to (word_at mem.now self.sp) self) self }
    {
        if self.met(cc) {
            self.ret(mem).done_after(3)
        } else {
            self.done()
        }
    }
}
