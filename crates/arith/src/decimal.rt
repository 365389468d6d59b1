// DAA: the decimal adjustment of A after an addition or a subtraction.
#![tactic(auto, using(crate::proofs::Truths::weight_told), unfolding(crate::specs::Flags::flag_of, crate::specs::Decimal::adjustment_of, crate::specs::Decimal::adjusted_of, crate::specs::Decimal::after_subtraction_of, crate::specs::Decimal::low_wrong_of, crate::specs::Decimal::high_wrong_of, crate::specs::Decimal::after_addition_of, crate::specs::Decimal::by_last, crate::specs::Decimal::decimal_of, crate::specs::Width::sum_of, crate::specs::Width::difference_of))]

ghost use Rattle.std.specs.Prelude.{◌≡◌, ◌≤◌};
ghost use Rattle.arith.specs.Decimal.{adjustment_of, adjusted_of, after_subtraction_of, after_addition_of, decimal_of};

use crate::{Byte, Flag, flags};

fn adjustment(low: bool, high: bool) -> u8
    ensures { (result ≡ adjustment_of low high) × (result ≤ 0x66) }
{
    u8::from(low) * 0x06 + u8::from(high) * 0x60
}

// The result v, with N and C as given.
fn adjusted(v: u8, n: bool, c: bool) -> Byte
    ensures { result ≡ adjusted_of v n c }
{
    Byte {
        value: v,
        flags: flags::pack(v == 0, n, false, c),
    }
}

// The digits are not looked at: H and C say it all.
fn after_subtraction(a: u8, h: bool, c: bool) -> Byte
    ensures { result ≡ after_subtraction_of a h c }
{
    adjusted(a.wrapping_sub(adjustment(h, c)), true, c)
}

fn after_addition(a: u8, h: bool, c: bool) -> Byte
    ensures { result ≡ after_addition_of a h c }
{
    let low = h || 0x09 < a % 16;
    let high = c || 0x99 < a;
    adjusted(a.wrapping_add(adjustment(low, high)), false, high)
}

pub fn adjust(a: u8, f: u8) -> Byte
    ensures { result ≡ decimal_of a f }
{
    let h = Flag::H.is_set(f);
    let c = Flag::C.is_set(f);
    if Flag::N.is_set(f) {
        after_subtraction(a, h, c)
    } else {
        after_addition(a, h, c)
    }
}
