// Operations on bytes: the eight of A and an operand, INC, DEC, BIT, RES and SET.
#![tactic(auto, using(crate::proofs::Laws::one_hot), unfolding(crate::specs::Flags::flag_of, crate::specs::Bytes::logic_of, crate::specs::Bytes::compared_of, crate::specs::Bytes::alu_of, crate::specs::Bytes::increased_of, crate::specs::Bytes::decreased_of, crate::specs::Bytes::bit_of, crate::specs::Bytes::reset_of, crate::specs::Bytes::set_of, crate::specs::Bytes::tested_of, crate::specs::Width::sum_of, crate::specs::Width::difference_of))]

ghost use Rattle.std.specs.Prelude.{◌≡◌};
ghost use Rattle.arith.specs.Width.{one_if, carry_of, borrow_of};
ghost use Rattle.arith.specs.Bytes.{added_of, subtracted_of, logic_of, compared_of, alu_of, increased_of, decreased_of, bit_of, reset_of, set_of, tested_of};

use crate::{Alu, Byte, Flag, flags};

// The carry out of bit 3 of a + b + k, as the manual draws it: bit 4 of a, b and the result, exclusive-or'd.
fn half_carry(a: u8, b: u8, k: bool) -> bool
    ensures { result ≡ carry_of 4 a b (one_if k) }
{
    let sum = a.wrapping_add(b).wrapping_add(u8::from(k));
    (a ^ b ^ sum) / 16 % 2 == 1
}

// The borrow from bit 4 of a - b - k, found in the same way.
fn half_borrow(a: u8, b: u8, k: bool) -> bool
    ensures { result ≡ borrow_of 4 a b (one_if k) }
{
    let difference = a.wrapping_sub(b).wrapping_sub(u8::from(k));
    (a ^ b ^ difference) / 16 % 2 == 1
}

fn add(a: u8, b: u8, k: bool) -> Byte
    ensures { result ≡ added_of a b k }
{
    let (value, c) = a.carrying_add(b, k);
    let h = half_carry(a, b, k);
    Byte {
        value,
        flags: flags::pack(value == 0, false, h, c),
    }
}

fn subtract(a: u8, b: u8, k: bool) -> Byte
    ensures { result ≡ subtracted_of a b k }
{
    let (value, c) = a.borrowing_sub(b, k);
    let h = half_borrow(a, b, k);
    Byte {
        value,
        flags: flags::pack(value == 0, true, h, c),
    }
}

// The result v of AND, XOR or OR.
fn logic(v: u8, h: bool) -> Byte
    ensures { result ≡ logic_of v h }
{
    Byte {
        value: v,
        flags: flags::pack(v == 0, false, h, false),
    }
}

fn compare(a: u8, b: u8) -> Byte
    ensures { result ≡ compared_of a b }
{
    let d = subtract(a, b, false);
    Byte {
        value: a,
        flags: d.flags,
    }
}

// The operation of A, an operand and F.
pub fn operate(op: Alu, a: u8, b: u8, f: u8) -> Byte
    ensures { result ≡ alu_of op a b f }
{
    match op {
        Alu::Add => add(a, b, false),
        Alu::Adc => add(a, b, Flag::C.is_set(f)),
        Alu::Sub => subtract(a, b, false),
        Alu::Sbc => subtract(a, b, Flag::C.is_set(f)),
        Alu::And => logic(a & b, true),
        Alu::Xor => logic(a ^ b, false),
        Alu::Or => logic(a | b, false),
        Alu::Cp => compare(a, b),
    }
}

pub fn increase(v: u8, f: u8) -> Byte
    ensures { result ≡ increased_of v f }
{
    let value = v.wrapping_add(1);
    let h = half_carry(v, 1, false);
    Byte {
        value,
        flags: flags::pack(value == 0, false, h, Flag::C.is_set(f)),
    }
}

pub fn decrease(v: u8, f: u8) -> Byte
    ensures { result ≡ decreased_of v f }
{
    let value = v.wrapping_sub(1);
    let h = half_borrow(v, 1, false);
    Byte {
        value,
        flags: flags::pack(value == 0, true, h, Flag::C.is_set(f)),
    }
}

pub fn bit(k: u8, v: u8) -> bool
    ensures { result ≡ bit_of k v }
{
    (v >> (k % 8)) % 2 == 1
}

pub fn reset(k: u8, v: u8) -> u8
    ensures { result ≡ reset_of k v }
{
    v & !(1 << (k % 8))
}

pub fn set(k: u8, v: u8) -> u8
    ensures { result ≡ set_of k v }
{
    v | (1 << (k % 8))
}

// F after BIT.
pub fn test(k: u8, v: u8, f: u8) -> u8
    ensures { result ≡ tested_of k v f }
{
    flags::pack(!bit(k, v), false, true, Flag::C.is_set(f))
}
