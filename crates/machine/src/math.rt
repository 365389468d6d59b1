// Arithmetic, rotates and bits: an operand is read and reckoned with, a place put back.
#![tactic(auto, unfolding(arith::specs::Flags::flag_of, crate::specs::Execute::acts))]

ghost use Rattle.std.specs.Prelude.{◌≡◌, true};
ghost use Rattle.arith.specs.Bytes.{alu_of, tested_of};
ghost use Rattle.arith.specs.Decimal.{decimal_of};
ghost use Rattle.arith.specs.Flags.{c_of};
ghost use Rattle.arith.specs.Rotates.{rotation_a_of};
ghost use Rattle.arith.specs.Words.{back};
ghost use Rattle.machine.specs.Execute.{result_of, added_to_hl_of, added_to_sp_of, complemented_of, with_carry_of};
ghost use Rattle.machine.specs.Operands.{value_of, held_of};
ghost use Rattle.machine.specs.State.{with_f};

use crate::{Cpu, MEMORY_SIZE};
use arith::{Alu, Byte, Flag, Rot, bytes, decimal, flags, rotates, words};
use insn::{Operand, Pair, Place};

impl Cpu {
    // A and F from a result.
    fn with_result(mut self, r: Byte) -> Cpu
        ensures { result ≡ result_of r self }
    {
        self.a = r.value;
        self.f = r.flags;
        Cpu { ..self }
    }

    pub(crate) fn math(self, op: Alu, o: Operand, mem: &[u8; MEMORY_SIZE]) -> Cpu
        ensures { result ≡ result_of (alu_of op self.a (value_of o self mem.now) self.f) self }
    {
        self.with_result(bytes::operate(op, self.a, self.value(o, mem), self.f))
    }

    pub(crate) fn test(mut self, k: u8, p: Place, mem: &[u8; MEMORY_SIZE]) -> Cpu
        ensures { result ≡ with_f (tested_of k (held_of p self mem.now) self.f) self }
    {
        self.f = bytes::test(k, self.held(p, mem), self.f);
        Cpu { ..self }
    }

    pub(crate) fn rotate_a(self, op: Rot) -> Cpu
        ensures { result ≡ result_of (rotation_a_of op self.a (c_of self.f)) self }
    {
        self.with_result(rotates::rotate_a(op, self.a, Flag::C.is_set(self.f)))
    }

    pub(crate) fn adjust(self) -> Cpu
        ensures { result ≡ result_of (decimal_of self.a self.f) self }
    {
        self.with_result(decimal::adjust(self.a, self.f))
    }

    pub(crate) fn complement(mut self) -> Cpu
        ensures { result ≡ complemented_of self }
    {
        self.a = 255 - self.a;
        self.f = flags::pack(Flag::Z.is_set(self.f), true, true, Flag::C.is_set(self.f));
        Cpu { ..self }
    }

    // SCF and CCF: Z stays.
    pub(crate) fn with_carry(mut self, c: bool) -> Cpu
        ensures { result ≡ with_carry_of c self }
    {
        self.f = flags::pack(Flag::Z.is_set(self.f), false, false, c);
        Cpu { ..self }
    }

    pub(crate) fn add_hl(mut self, p: Pair) -> Cpu
        ensures { result ≡ added_to_hl_of p self }
    {
        let w = words::add_hl(self.hl(), self.pair(p), self.f);
        self.f = w.flags;
        self.with_hl(w.value)
    }

    pub(crate) fn add_sp(mut self, e: u8) -> Cpu
        ensures { result ≡ added_to_sp_of e self }
    {
        let w = words::add_sp(self.sp, e);
        self.f = w.flags;
        self.sp = w.value;
        Cpu { ..self }
    }
}
