// Rotates and shifts of a byte.
#![tactic(auto, using(crate::proofs::Truths::one_told, crate::proofs::Bits::turned_left, crate::proofs::Bits::turned_right, crate::proofs::Bits::turned_over), unfolding(crate::specs::Rotates::rotated_of, crate::specs::Rotates::left_over_of, crate::specs::Rotates::rotation_of, crate::specs::Rotates::rotation_a_of))]

ghost use Rattle.std.specs.Prelude.{◌≡◌};
ghost use Rattle.arith.specs.Rotates.{rotated_of, left_over_of, rotation_of, rotation_a_of};

use crate::{Byte, Rot, flags};

// The byte after the rotate; k is the old C.
fn rotated(op: Rot, v: u8, k: bool) -> u8
    ensures { result ≡ rotated_of op v k }
{
    match op {
        Rot::Rlc => v.rotate_left(1),
        Rot::Rrc => v.rotate_right(1),
        Rot::Rl => (v << 1) + u8::from(k),
        Rot::Rr => v / 2 + 128 * u8::from(k),
        Rot::Sla => v << 1,
        Rot::Sra => v / 2 + 128 * (v / 128),
        Rot::Swap => v.rotate_left(4),
        Rot::Srl => v >> 1,
    }
}

// The bit that leaves the byte.
fn left_over(op: Rot, v: u8) -> bool
    ensures { result ≡ left_over_of op v }
{
    match op {
        Rot::Rlc | Rot::Rl | Rot::Sla => v / 128 == 1,
        Rot::Rrc | Rot::Rr | Rot::Sra | Rot::Srl => v % 2 == 1,
        Rot::Swap => false,
    }
}

pub fn rotate(op: Rot, v: u8, k: bool) -> Byte
    ensures { result ≡ rotation_of op v k }
{
    let value = rotated(op, v, k);
    Byte {
        value,
        flags: flags::pack(value == 0, false, false, left_over(op, v)),
    }
}

// RLCA, RRCA, RLA, RRA: Z is cleared.
// Stays: apart from `rotate` in one constant, Z; one function that is told of it is no plainer than these lines.
pub fn rotate_a(op: Rot, a: u8, k: bool) -> Byte
    ensures { result ≡ rotation_a_of op a k }
{
    let value = rotated(op, a, k);
    Byte {
        value,
        flags: flags::pack(false, false, false, left_over(op, a)),
    }
}
