// The bytes after the prefix $CB, by the grid.
ghost use Rattle.std.specs.Prelude.{◌≡◌, ◌/◌, ◌%◌};
ghost use Rattle.insn.specs.Grid.{r_at, rot_at, prefixed_of};
ghost use Rattle.insn.specs.Shapes.{shaped_of};

use crate::{Decoded, Insn, Place};
use arith::Rot;

// r, by the low three bits.
// Stays: TryFrom would refuse numbers that three bits never are.
#[tactic(auto, unfolding(crate::specs::Grid::r_at))]
fn place(op: u8) -> Place
    ensures { result ≡ r_at (op % 8) }
{
    match op % 8 {
        0 => Place::B,
        1 => Place::C,
        2 => Place::D,
        3 => Place::E,
        4 => Place::H,
        5 => Place::L,
        6 => Place::AtHl,
        _ => Place::A,
    }
}

// rot, by the three bits above them.
// Stays: as r.
#[tactic(auto, unfolding(crate::specs::Grid::rot_at))]
fn rotate(op: u8) -> Rot
    ensures { result ≡ rot_at (op / 8 % 8) }
{
    match op / 8 % 8 {
        0 => Rot::Rlc,
        1 => Rot::Rrc,
        2 => Rot::Rl,
        3 => Rot::Rr,
        4 => Rot::Sla,
        5 => Rot::Sra,
        6 => Rot::Swap,
        _ => Rot::Srl,
    }
}

// Each has one byte after its first; all but BIT store what they read.
#[tactic(auto, unfolding(crate::specs::Grid::nth, crate::specs::Grid::prefixed_at, crate::specs::Grid::prefixed_of, crate::specs::Shapes::shape_of, crate::specs::Shapes::shaped_of))]
pub(crate) fn decode(op: u8) -> Decoded
    ensures { result ≡ shaped_of (prefixed_of op) }
{
    let p = place(op);
    let y = op / 8 % 8;
    let a = p.accesses();
    match op / 64 {
        0 => Decoded::new(Insn::Rotate(rotate(op), p), 1, 2 + 2 * a),
        1 => Decoded::new(Insn::Bit(y, p), 1, 2 + a),
        2 => Decoded::new(Insn::Res(y, p), 1, 2 + 2 * a),
        _ => Decoded::new(Insn::Set(y, p), 1, 2 + 2 * a),
    }
}
