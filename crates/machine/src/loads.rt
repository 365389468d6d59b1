// Loads and stores.
#![tactic(auto, unfolding(crate::specs::Execute::acts))]

ghost use Rattle.std.specs.Prelude.{◌≡◌};
ghost use Rattle.machine.specs.Answers.{Gives, storing, making};
ghost use Rattle.machine.specs.Execute.{stored_to, stored_at_of, loaded_from, high_address, hl_from_sp_of};
ghost use Rattle.machine.specs.Memory.{word_stores};
ghost use Rattle.machine.specs.Operands.{value_of, placed_of, pointed_of, moved_of};
ghost use Rattle.machine.specs.State.{with_sp, hl_of};

use crate::{Cpu, MEMORY_SIZE, memory};
use arith::words;
use insn::{Operand, Place, Pointer};

// LDH's one byte, added to $FF00.
pub(crate) fn high(n: u8) -> u16
    ensures { result ≡ high_address n }
{
    0xFF00 + u16::from(n)
}

impl Cpu {
    pub(crate) fn load(self, p: Place, o: Operand, mem: &mut [u8; MEMORY_SIZE]) -> Cpu
        ensures { Gives (making (placed_of p (value_of o self mem.old) self) mem.old) result mem.new }
    {
        self.place(p, self.value(o, mem), mem)
    }

    // A stored through a pointer.
    pub(crate) fn store_at(self, p: Pointer, mem: &mut [u8; MEMORY_SIZE]) -> Cpu
        ensures { Gives (making (stored_at_of p self) mem.old) result mem.new }
    {
        self.store_a(self.pointed(p), mem).moved(p)
    }

    // A stored at an address.
    pub(crate) fn store_a(self, at: u16, mem: &mut [u8; MEMORY_SIZE]) -> Cpu
        ensures { Gives (making (stored_to at self) mem.old) result mem.new }
    {
        memory::store(mem, at, self.a);
        Cpu { ..self }
    }

    // SP stored at an address, low byte first.
    pub(crate) fn store_sp(self, at: u16, mem: &mut [u8; MEMORY_SIZE]) -> Cpu
        ensures { Gives (making (storing self (word_stores at self.sp)) mem.old) result mem.new }
    {
        memory::store_word(mem, at, self.sp);
        Cpu { ..self }
    }

    // A loaded from an address.
    pub(crate) fn load_from(mut self, at: u16, mem: &[u8; MEMORY_SIZE]) -> Cpu
        ensures { result ≡ loaded_from at self mem.now }
    {
        self.a = memory::read(mem, at);
        Cpu { ..self }
    }

    pub(crate) fn load_at(self, p: Pointer, mem: &[u8; MEMORY_SIZE]) -> Cpu
        ensures { result ≡ moved_of p (loaded_from (pointed_of p self) self mem.now) }
    {
        self.load_from(self.pointed(p), mem).moved(p)
    }

    pub(crate) fn load_sp_hl(mut self) -> Cpu
        ensures { result ≡ with_sp (hl_of self) self }
    {
        self.sp = self.hl();
        Cpu { ..self }
    }

    pub(crate) fn load_hl_sp(mut self, e: u8) -> Cpu
        ensures { result ≡ hl_from_sp_of e self }
    {
        let w = words::add_sp(self.sp, e);
        self.f = w.flags;
        self.with_hl(w.value)
    }
}
