// Operands: a register, the byte at HL, or a constant; the places that bytes are put into; and the pointers that A goes through.
#![tactic(auto, unfolding(crate::specs::Execute::acts))]

ghost use Rattle.std.specs.Prelude.{◌≡◌};
ghost use Rattle.machine.specs.Answers.{Gives, making};
ghost use Rattle.machine.specs.Operands.{value_of, held_of, placed_of, updated_of, pointed_of, moved_of};

use crate::{Cpu, MEMORY_SIZE, memory};
use arith::{Byte, words};
use insn::{Operand, Pair, Place, Pointer, Register};

impl Cpu {
    pub(crate) fn value(self, o: Operand, mem: &[u8; MEMORY_SIZE]) -> u8
        ensures { result ≡ value_of o self mem.now }
    {
        match o {
            Operand::Reg(r) => self.register(r),
            Operand::AtHl => memory::read(mem, self.hl()),
            Operand::Const(v) => v,
        }
    }

    // The byte in a place.
    pub(crate) fn held(self, p: Place, mem: &[u8; MEMORY_SIZE]) -> u8
        ensures { result ≡ held_of p self mem.now }
    {
        self.value(Operand::from(p), mem)
    }

    // A byte put into a place.
    // Stays: AtHl is no register, so a conversion would answer an Option, with the same eight arms and a test of it here.
    pub(crate) fn place(self, p: Place, v: u8, mem: &mut [u8; MEMORY_SIZE]) -> Cpu
        ensures { Gives (making (placed_of p v self) mem.old) result mem.new }
    {
        match p {
            Place::B => self.with_register(Register::B, v),
            Place::C => self.with_register(Register::C, v),
            Place::D => self.with_register(Register::D, v),
            Place::E => self.with_register(Register::E, v),
            Place::H => self.with_register(Register::H, v),
            Place::L => self.with_register(Register::L, v),
            Place::AtHl => {
                memory::store(mem, self.hl(), v);
                self
            }
            Place::A => self.with_register(Register::A, v),
        }
    }

    // A result put back into its place, with its F.
    pub(crate) fn update(mut self, p: Place, r: Byte, mem: &mut [u8; MEMORY_SIZE]) -> Cpu
        ensures { Gives (making (updated_of p r self) mem.old) result mem.new }
    {
        self.f = r.flags;
        self.place(p, r.value, mem)
    }

    // The address in a pointer.
    pub(crate) fn pointed(self, p: Pointer) -> u16
        ensures { result ≡ pointed_of p self }
    {
        match p {
            Pointer::Bc => self.pair(Pair::Bc),
            Pointer::De => self.pair(Pair::De),
            Pointer::Hli | Pointer::Hld => self.hl(),
        }
    }

    // HLI moves HL one on, HLD one back.
    pub(crate) fn moved(self, p: Pointer) -> Cpu
        ensures { result ≡ moved_of p self }
    {
        match p {
            Pointer::Bc | Pointer::De => self,
            Pointer::Hli => self.with_hl(words::further(1, self.hl())),
            Pointer::Hld => self.with_hl(words::back(1, self.hl())),
        }
    }
}
