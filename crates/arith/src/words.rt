// Words of 16 bits, their two bytes, and their sums with words and signed bytes.
#![tactic(auto, unfolding(crate::specs::Flags::flag_of, crate::specs::Words::word_of, crate::specs::Words::high_of, crate::specs::Words::low_of, crate::specs::Words::further, crate::specs::Words::back, crate::specs::Words::offset_by, crate::specs::Words::offset_of, crate::specs::Width::sum_of, crate::specs::Width::difference_of))]

ghost use Rattle.std.specs.Prelude.{◌≡◌};
ghost use Rattle.arith.specs.Width.{carry_of};
ghost use Rattle.arith.specs.Words.{word_of, high_of, low_of, further, back, offset_of, added_hl_of, added_sp_of};

use crate::{Flag, Word, flags};

// Stays: `word`, `high` and `low` were tried by `from_be_bytes` and `to_be_bytes`. The bar that misses is `bench/run --instructions`: the
// adding loop takes 27 instructions a step more, 97.5 for 70.6.
pub fn word(hi: u8, lo: u8) -> u16
    ensures { result ≡ word_of hi lo }
{
    u16::from(hi) * 256 + u16::from(lo)
}

pub fn high(w: u16) -> u8
    ensures { result ≡ high_of w }
{
    (w / 256) as u8
}

pub fn low(w: u16) -> u8
    ensures { result ≡ low_of w }
{
    (w % 256) as u8
}

// n further, modulo 65,536.
pub fn further(n: u16, w: u16) -> u16
    ensures { result ≡ further n w }
{
    w.wrapping_add(n)
}

// n back, modulo 65,536.
pub fn back(n: u16, w: u16) -> u16
    ensures { result ≡ back n w }
{
    w.wrapping_sub(n)
}

// A signed byte further or back.
pub fn offset(e: u8, w: u16) -> u16
    ensures { result ≡ offset_of e w }
{
    w.wrapping_add_signed(i16::from(e.cast_signed()))
}

pub fn add_hl(hl: u16, v: u16, f: u8) -> Word
    ensures { result ≡ added_hl_of hl v f }
{
    let (value, c) = hl.overflowing_add(v);
    let h = 4096 <= hl % 4096 + v % 4096;
    Word {
        value,
        flags: flags::pack(Flag::Z.is_set(f), false, h, c),
    }
}

pub fn add_sp(sp: u16, e: u8) -> Word
    ensures { result ≡ added_sp_of sp e }
{
    let low = u16::from(e) % 16;
    let h = 16 <= sp % 16 + low;
    let c = 256 <= sp % 256 + u16::from(e);
    Word {
        value: offset(e, sp),
        flags: flags::pack(false, false, h, c),
    }
}
