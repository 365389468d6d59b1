// Register pairs: BC, DE, HL, SP and, on the stack, AF.
#![tactic(auto, unfolding(crate::specs::Execute::acts))]

ghost use Rattle.std.specs.Prelude.{◌≡◌};
ghost use Rattle.machine.specs.State.{hl_of, with_hl, pair_of, with_pair, stacked_of, with_stacked};

use crate::Cpu;
use arith::words;
use insn::{Pair, Stacked};

impl Cpu {
    pub(crate) fn hl(self) -> u16
        ensures { result ≡ hl_of self }
    {
        words::word(self.h, self.l)
    }

    pub(crate) fn with_hl(mut self, w: u16) -> Cpu
        ensures { result ≡ with_hl w self }
    {
        self.h = words::high(w);
        self.l = words::low(w);
        Cpu { ..self }
    }

    pub(crate) fn pair(self, p: Pair) -> u16
        ensures { result ≡ pair_of p self }
    {
        match p {
            Pair::Bc => words::word(self.b, self.c),
            Pair::De => words::word(self.d, self.e),
            Pair::Hl => self.hl(),
            Pair::Sp => self.sp,
        }
    }

    pub(crate) fn with_pair(mut self, p: Pair, w: u16) -> Cpu
        ensures { result ≡ with_pair p w self }
    {
        match p {
            Pair::Bc => {
                self.b = words::high(w);
                self.c = words::low(w);
            }
            Pair::De => {
                self.d = words::high(w);
                self.e = words::low(w);
            }
            Pair::Hl => {
                self.h = words::high(w);
                self.l = words::low(w);
            }
            Pair::Sp => self.sp = w,
        }
        Cpu { ..self }
    }

    pub(crate) fn stacked(self, p: Stacked) -> u16
        ensures { result ≡ stacked_of p self }
    {
        match p {
            Stacked::Bc => self.pair(Pair::Bc),
            Stacked::De => self.pair(Pair::De),
            Stacked::Hl => self.pair(Pair::Hl),
            Stacked::Af => words::word(self.a, self.f),
        }
    }

    // POP AF drops the low four bits.
    pub(crate) fn with_stacked(mut self, p: Stacked, w: u16) -> Cpu
        ensures { result ≡ with_stacked p w self }
    {
        match p {
            Stacked::Bc => self.with_pair(Pair::Bc, w),
            Stacked::De => self.with_pair(Pair::De, w),
            Stacked::Hl => self.with_pair(Pair::Hl, w),
            Stacked::Af => {
                self.a = words::high(w);
                self.f = words::low(w) / 16 * 16;
                Cpu { ..self }
            }
        }
    }
}
