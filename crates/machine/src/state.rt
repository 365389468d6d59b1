// Registers and flags: each setter takes the state by value and hands it back with other values. `Cpu { ..self }` hands it back
// field by field, which the compiler keeps in registers; a changed state that is handed back whole goes through memory.
#![tactic(auto, unfolding(arith::specs::Flags::flag_of, crate::specs::Execute::acts))]

ghost use Rattle.std.specs.Prelude.{◌≡◌};
ghost use Rattle.machine.specs.State.{with_pc, with_ime, with_mode, register_of, with_register, met_of};

use crate::{Cpu, Ime, Mode};
use arith::Flag;
use insn::{Cond, Register};

impl Cpu {
    pub(crate) fn with_pc(mut self, pc: u16) -> Cpu
        ensures { result ≡ with_pc pc self }
    {
        self.pc = pc;
        Cpu { ..self }
    }

    pub(crate) fn with_ime(mut self, ime: Ime) -> Cpu
        ensures { result ≡ with_ime ime self }
    {
        self.ime = ime;
        Cpu { ..self }
    }

    pub(crate) fn with_mode(mut self, mode: Mode) -> Cpu
        ensures { result ≡ with_mode mode self }
    {
        self.mode = mode;
        Cpu { ..self }
    }

    pub(crate) fn register(self, r: Register) -> u8
        ensures { result ≡ register_of r self }
    {
        match r {
            Register::B => self.b,
            Register::C => self.c,
            Register::D => self.d,
            Register::E => self.e,
            Register::H => self.h,
            Register::L => self.l,
            Register::A => self.a,
        }
    }

    pub(crate) fn with_register(mut self, r: Register, v: u8) -> Cpu
        ensures { result ≡ with_register r v self }
    {
        match r {
            Register::B => self.b = v,
            Register::C => self.c = v,
            Register::D => self.d = v,
            Register::E => self.e = v,
            Register::H => self.h = v,
            Register::L => self.l = v,
            Register::A => self.a = v,
        }
        Cpu { ..self }
    }

    // The condition of a jump holds.
    pub(crate) fn met(self, cc: Cond) -> bool
        ensures { result ≡ met_of cc self.f }
    {
        match cc {
            Cond::Nz => !Flag::Z.is_set(self.f),
            Cond::Z => Flag::Z.is_set(self.f),
            Cond::Nc => !Flag::C.is_set(self.f),
            Cond::C => Flag::C.is_set(self.f),
        }
    }
}
