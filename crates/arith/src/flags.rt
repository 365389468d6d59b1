// F: Z $80, N $40, H $20, C $10.
#![tactic(auto, using(crate::proofs::Truths::weight_told), unfolding(crate::specs::Flags::flags_of))]

ghost use Rattle.std.specs.Prelude.{◌≡◌};
ghost use Rattle.arith.specs.Flags.{flags_of, flag_of};

use crate::Flag;

impl Flag {
    pub fn is_set(self, f: u8) -> bool
        ensures { result ≡ flag_of self f }
    {
        match self {
            Flag::Z => f / 0x80 % 2 == 1,
            Flag::N => f / 0x40 % 2 == 1,
            Flag::H => f / 0x20 % 2 == 1,
            Flag::C => f / 0x10 % 2 == 1,
        }
    }
}

pub fn pack(z: bool, n: bool, h: bool, c: bool) -> u8
    ensures { result ≡ flags_of z n h c }
{
    u8::from(z) * 0x80 + u8::from(n) * 0x40 + u8::from(h) * 0x20 + u8::from(c) * 0x10
}
