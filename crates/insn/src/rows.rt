// The 256 opcode bytes in rows of sixteen: a flat match on the byte is what the compiler turns into one jump.
// n8 is the byte after the opcode, n16 the word there.
// Stays: `row_0(op, n8, n16)` is no plainer as `row_0(code)`: `decode` would first build `Code { op, n8, n16 }`, and rows read `code.n8`.
ghost use Rattle.std.specs.Prelude.{◌≡◌, ◌<◌, ◌/◌, ◌%◌, [], ◌∷◌, get_or};
ghost use Rattle.insn.specs.Grid.{r_at, operand_of};
ghost use Rattle.insn.specs.Shapes.{shaped_of, decoded_of};
ghost use Rattle.insn.specs.declared.Insn.{Insn};
ghost use Rattle.insn.specs.declared.Insn.TheVariants.{Load, Math};
ghost use Rattle.insn.specs.declared.Operand.{Operand};

use crate::{Cond, Decoded, Insn, Operand, Pair, Place, Pointer, Stacked, prefixed};
use arith::{Alu, Rot};

// What a line of eight is told by: the place that it loads, or its operation on A.
pub(crate) trait Line {
    ghost entry: { Self → Operand → Insn };

    fn taking(self, place: Place) -> Decoded
        ensures { result ≡ shaped_of (entry self (operand_of place)) };
}

impl Line for Place {
    ghost entry = { Load };

    #[tactic(auto, using(crate::proofs::Told::load_takes))]
    fn taking(self, place: Place) -> Decoded {
        let cycles = 1 + self.accesses() + place.accesses();
        Decoded::new(Insn::Load(self, Operand::from(place)), 0, cycles)
    }
}

impl Line for Alu {
    ghost entry = { Math };

    #[tactic(auto, using(crate::proofs::Told::sum_takes))]
    fn taking(self, place: Place) -> Decoded {
        let cycles = 1 + place.accesses();
        Decoded::new(Insn::Math(self, Operand::from(place)), 0, cycles)
    }
}

// A row of two lines.
// Stays: sixteen arms. With the place decoded from the low bits, it was proved and misses the bar of `bench/run --instructions`: 105 a step
// of the mixed workload for 62.
#[tactic(auto, unfolding(crate::specs::Grid::r_at))]
pub(crate) fn lines<L: Line + Copy>(low: u8, first: L, second: L) -> Decoded
    requires { low < 16 }
    ensures { result ≡ shaped_of (L.entry (get_or (first ∷ second ∷ []) (low / 8) second) (operand_of (r_at (low % 8)))) }
{
    match low {
        0x0 => first.taking(Place::B),
        0x1 => first.taking(Place::C),
        0x2 => first.taking(Place::D),
        0x3 => first.taking(Place::E),
        0x4 => first.taking(Place::H),
        0x5 => first.taking(Place::L),
        0x6 => first.taking(Place::AtHl),
        0x7 => first.taking(Place::A),
        0x8 => second.taking(Place::B),
        0x9 => second.taking(Place::C),
        0xA => second.taking(Place::D),
        0xB => second.taking(Place::E),
        0xC => second.taking(Place::H),
        0xD => second.taking(Place::L),
        0xE => second.taking(Place::AtHl),
        _ => second.taking(Place::A),
    }
}

#[tactic(auto, unfolding(crate::proofs::Told::entries))]
pub(crate) fn row_0(op: u8, n8: u8, n16: u16) -> Decoded
    requires { op / 16 ≡ 0 }
    ensures { result ≡ decoded_of op n8 n16 }
{
    match op {
        0x00 => Decoded::new(Insn::Nop, 0, 1),
        0x01 => Decoded::new(Insn::LoadPair(n16, Pair::Bc), 2, 3),
        0x02 => Decoded::new(Insn::StoreAt(Pointer::Bc), 0, 2),
        0x03 => Decoded::new(Insn::IncPair(Pair::Bc), 0, 2),
        0x04 => Decoded::new(Insn::Inc(Place::B), 0, 1),
        0x05 => Decoded::new(Insn::Dec(Place::B), 0, 1),
        0x06 => Decoded::new(Insn::Load(Place::B, Operand::Const(n8)), 1, 2),
        0x07 => Decoded::new(Insn::RotateA(Rot::Rlc), 0, 1),
        0x08 => Decoded::new(Insn::StoreSp(n16), 2, 5),
        0x09 => Decoded::new(Insn::AddHl(Pair::Bc), 0, 2),
        0x0A => Decoded::new(Insn::LoadAt(Pointer::Bc), 0, 2),
        0x0B => Decoded::new(Insn::DecPair(Pair::Bc), 0, 2),
        0x0C => Decoded::new(Insn::Inc(Place::C), 0, 1),
        0x0D => Decoded::new(Insn::Dec(Place::C), 0, 1),
        0x0E => Decoded::new(Insn::Load(Place::C, Operand::Const(n8)), 1, 2),
        _ => Decoded::new(Insn::RotateA(Rot::Rrc), 0, 1),
    }
}

#[tactic(auto, unfolding(crate::proofs::Told::entries))]
pub(crate) fn row_1(op: u8, n8: u8, n16: u16) -> Decoded
    requires { op / 16 ≡ 1 }
    ensures { result ≡ decoded_of op n8 n16 }
{
    match op {
        0x10 => Decoded::new(Insn::Stop, 1, 1),
        0x11 => Decoded::new(Insn::LoadPair(n16, Pair::De), 2, 3),
        0x12 => Decoded::new(Insn::StoreAt(Pointer::De), 0, 2),
        0x13 => Decoded::new(Insn::IncPair(Pair::De), 0, 2),
        0x14 => Decoded::new(Insn::Inc(Place::D), 0, 1),
        0x15 => Decoded::new(Insn::Dec(Place::D), 0, 1),
        0x16 => Decoded::new(Insn::Load(Place::D, Operand::Const(n8)), 1, 2),
        0x17 => Decoded::new(Insn::RotateA(Rot::Rl), 0, 1),
        0x18 => Decoded::new(Insn::Jr(n8), 1, 3),
        0x19 => Decoded::new(Insn::AddHl(Pair::De), 0, 2),
        0x1A => Decoded::new(Insn::LoadAt(Pointer::De), 0, 2),
        0x1B => Decoded::new(Insn::DecPair(Pair::De), 0, 2),
        0x1C => Decoded::new(Insn::Inc(Place::E), 0, 1),
        0x1D => Decoded::new(Insn::Dec(Place::E), 0, 1),
        0x1E => Decoded::new(Insn::Load(Place::E, Operand::Const(n8)), 1, 2),
        _ => Decoded::new(Insn::RotateA(Rot::Rr), 0, 1),
    }
}

#[tactic(auto, unfolding(crate::proofs::Told::entries))]
pub(crate) fn row_2(op: u8, n8: u8, n16: u16) -> Decoded
    requires { op / 16 ≡ 2 }
    ensures { result ≡ decoded_of op n8 n16 }
{
    match op {
        0x20 => Decoded::new(Insn::JrIf(Cond::Nz, n8), 1, 2),
        0x21 => Decoded::new(Insn::LoadPair(n16, Pair::Hl), 2, 3),
        0x22 => Decoded::new(Insn::StoreAt(Pointer::Hli), 0, 2),
        0x23 => Decoded::new(Insn::IncPair(Pair::Hl), 0, 2),
        0x24 => Decoded::new(Insn::Inc(Place::H), 0, 1),
        0x25 => Decoded::new(Insn::Dec(Place::H), 0, 1),
        0x26 => Decoded::new(Insn::Load(Place::H, Operand::Const(n8)), 1, 2),
        0x27 => Decoded::new(Insn::Daa, 0, 1),
        0x28 => Decoded::new(Insn::JrIf(Cond::Z, n8), 1, 2),
        0x29 => Decoded::new(Insn::AddHl(Pair::Hl), 0, 2),
        0x2A => Decoded::new(Insn::LoadAt(Pointer::Hli), 0, 2),
        0x2B => Decoded::new(Insn::DecPair(Pair::Hl), 0, 2),
        0x2C => Decoded::new(Insn::Inc(Place::L), 0, 1),
        0x2D => Decoded::new(Insn::Dec(Place::L), 0, 1),
        0x2E => Decoded::new(Insn::Load(Place::L, Operand::Const(n8)), 1, 2),
        _ => Decoded::new(Insn::Cpl, 0, 1),
    }
}

#[tactic(auto, unfolding(crate::proofs::Told::entries))]
pub(crate) fn row_3(op: u8, n8: u8, n16: u16) -> Decoded
    requires { op / 16 ≡ 3 }
    ensures { result ≡ decoded_of op n8 n16 }
{
    match op {
        0x30 => Decoded::new(Insn::JrIf(Cond::Nc, n8), 1, 2),
        0x31 => Decoded::new(Insn::LoadPair(n16, Pair::Sp), 2, 3),
        0x32 => Decoded::new(Insn::StoreAt(Pointer::Hld), 0, 2),
        0x33 => Decoded::new(Insn::IncPair(Pair::Sp), 0, 2),
        0x34 => Decoded::new(Insn::Inc(Place::AtHl), 0, 3),
        0x35 => Decoded::new(Insn::Dec(Place::AtHl), 0, 3),
        0x36 => Decoded::new(Insn::Load(Place::AtHl, Operand::Const(n8)), 1, 3),
        0x37 => Decoded::new(Insn::Scf, 0, 1),
        0x38 => Decoded::new(Insn::JrIf(Cond::C, n8), 1, 2),
        0x39 => Decoded::new(Insn::AddHl(Pair::Sp), 0, 2),
        0x3A => Decoded::new(Insn::LoadAt(Pointer::Hld), 0, 2),
        0x3B => Decoded::new(Insn::DecPair(Pair::Sp), 0, 2),
        0x3C => Decoded::new(Insn::Inc(Place::A), 0, 1),
        0x3D => Decoded::new(Insn::Dec(Place::A), 0, 1),
        0x3E => Decoded::new(Insn::Load(Place::A, Operand::Const(n8)), 1, 2),
        _ => Decoded::new(Insn::Ccf, 0, 1),
    }
}

#[tactic(auto, unfolding(crate::proofs::Told::entries))]
pub(crate) fn row_7(op: u8, n8: u8, n16: u16) -> Decoded
    requires { op / 16 ≡ 7 }
    ensures { result ≡ decoded_of op n8 n16 }
{
    match op {
        0x70 => Place::AtHl.taking(Place::B),
        0x71 => Place::AtHl.taking(Place::C),
        0x72 => Place::AtHl.taking(Place::D),
        0x73 => Place::AtHl.taking(Place::E),
        0x74 => Place::AtHl.taking(Place::H),
        0x75 => Place::AtHl.taking(Place::L),
        0x76 => Decoded::new(Insn::Halt, 0, 1),
        0x77 => Place::AtHl.taking(Place::A),
        0x78 => Place::A.taking(Place::B),
        0x79 => Place::A.taking(Place::C),
        0x7A => Place::A.taking(Place::D),
        0x7B => Place::A.taking(Place::E),
        0x7C => Place::A.taking(Place::H),
        0x7D => Place::A.taking(Place::L),
        0x7E => Place::A.taking(Place::AtHl),
        _ => Place::A.taking(Place::A),
    }
}

#[tactic(auto, unfolding(crate::proofs::Told::entries))]
pub(crate) fn row_c(op: u8, n8: u8, n16: u16) -> Decoded
    requires { op / 16 ≡ 12 }
    ensures { result ≡ decoded_of op n8 n16 }
{
    match op {
        0xC0 => Decoded::new(Insn::RetIf(Cond::Nz), 0, 2),
        0xC1 => Decoded::new(Insn::Pop(Stacked::Bc), 0, 3),
        0xC2 => Decoded::new(Insn::JumpIf(Cond::Nz, n16), 2, 3),
        0xC3 => Decoded::new(Insn::Jump(n16), 2, 4),
        0xC4 => Decoded::new(Insn::CallIf(Cond::Nz, n16), 2, 3),
        0xC5 => Decoded::new(Insn::Push(Stacked::Bc), 0, 4),
        0xC6 => Decoded::new(Insn::Math(Alu::Add, Operand::Const(n8)), 1, 2),
        0xC7 => Decoded::new(Insn::Rst(0x00), 0, 4),
        0xC8 => Decoded::new(Insn::RetIf(Cond::Z), 0, 2),
        0xC9 => Decoded::new(Insn::Ret, 0, 4),
        0xCA => Decoded::new(Insn::JumpIf(Cond::Z, n16), 2, 3),
        0xCB => prefixed::decode(n8),
        0xCC => Decoded::new(Insn::CallIf(Cond::Z, n16), 2, 3),
        0xCD => Decoded::new(Insn::Call(n16), 2, 6),
        0xCE => Decoded::new(Insn::Math(Alu::Adc, Operand::Const(n8)), 1, 2),
        _ => Decoded::new(Insn::Rst(0x08), 0, 4),
    }
}

#[tactic(auto, unfolding(crate::proofs::Told::entries))]
pub(crate) fn row_d(op: u8, n8: u8, n16: u16) -> Decoded
    requires { op / 16 ≡ 13 }
    ensures { result ≡ decoded_of op n8 n16 }
{
    match op {
        0xD0 => Decoded::new(Insn::RetIf(Cond::Nc), 0, 2),
        0xD1 => Decoded::new(Insn::Pop(Stacked::De), 0, 3),
        0xD2 => Decoded::new(Insn::JumpIf(Cond::Nc, n16), 2, 3),
        0xD3 => Decoded::new(Insn::Undefined, 0, 0),
        0xD4 => Decoded::new(Insn::CallIf(Cond::Nc, n16), 2, 3),
        0xD5 => Decoded::new(Insn::Push(Stacked::De), 0, 4),
        0xD6 => Decoded::new(Insn::Math(Alu::Sub, Operand::Const(n8)), 1, 2),
        0xD7 => Decoded::new(Insn::Rst(0x10), 0, 4),
        0xD8 => Decoded::new(Insn::RetIf(Cond::C), 0, 2),
        0xD9 => Decoded::new(Insn::Reti, 0, 4),
        0xDA => Decoded::new(Insn::JumpIf(Cond::C, n16), 2, 3),
        0xDB => Decoded::new(Insn::Undefined, 0, 0),
        0xDC => Decoded::new(Insn::CallIf(Cond::C, n16), 2, 3),
        0xDD => Decoded::new(Insn::Undefined, 0, 0),
        0xDE => Decoded::new(Insn::Math(Alu::Sbc, Operand::Const(n8)), 1, 2),
        _ => Decoded::new(Insn::Rst(0x18), 0, 4),
    }
}

#[tactic(auto, unfolding(crate::proofs::Told::entries))]
pub(crate) fn row_e(op: u8, n8: u8, n16: u16) -> Decoded
    requires { op / 16 ≡ 14 }
    ensures { result ≡ decoded_of op n8 n16 }
{
    match op {
        0xE0 => Decoded::new(Insn::StoreHigh(n8), 1, 3),
        0xE1 => Decoded::new(Insn::Pop(Stacked::Hl), 0, 3),
        0xE2 => Decoded::new(Insn::StoreHighC, 0, 2),
        0xE3 => Decoded::new(Insn::Undefined, 0, 0),
        0xE4 => Decoded::new(Insn::Undefined, 0, 0),
        0xE5 => Decoded::new(Insn::Push(Stacked::Hl), 0, 4),
        0xE6 => Decoded::new(Insn::Math(Alu::And, Operand::Const(n8)), 1, 2),
        0xE7 => Decoded::new(Insn::Rst(0x20), 0, 4),
        0xE8 => Decoded::new(Insn::AddSp(n8), 1, 4),
        0xE9 => Decoded::new(Insn::JumpHl, 0, 1),
        0xEA => Decoded::new(Insn::StoreTo(n16), 2, 4),
        0xEB => Decoded::new(Insn::Undefined, 0, 0),
        0xEC => Decoded::new(Insn::Undefined, 0, 0),
        0xED => Decoded::new(Insn::Undefined, 0, 0),
        0xEE => Decoded::new(Insn::Math(Alu::Xor, Operand::Const(n8)), 1, 2),
        _ => Decoded::new(Insn::Rst(0x28), 0, 4),
    }
}

#[tactic(auto, unfolding(crate::proofs::Told::entries))]
pub(crate) fn row_f(op: u8, n8: u8, n16: u16) -> Decoded
    requires { op / 16 ≡ 15 }
    ensures { result ≡ decoded_of op n8 n16 }
{
    match op {
        0xF0 => Decoded::new(Insn::LoadHigh(n8), 1, 3),
        0xF1 => Decoded::new(Insn::Pop(Stacked::Af), 0, 3),
        0xF2 => Decoded::new(Insn::LoadHighC, 0, 2),
        0xF3 => Decoded::new(Insn::Di, 0, 1),
        0xF4 => Decoded::new(Insn::Undefined, 0, 0),
        0xF5 => Decoded::new(Insn::Push(Stacked::Af), 0, 4),
        0xF6 => Decoded::new(Insn::Math(Alu::Or, Operand::Const(n8)), 1, 2),
        0xF7 => Decoded::new(Insn::Rst(0x30), 0, 4),
        0xF8 => Decoded::new(Insn::LoadHlSp(n8), 1, 3),
        0xF9 => Decoded::new(Insn::LoadSpHl, 0, 2),
        0xFA => Decoded::new(Insn::LoadFrom(n16), 2, 4),
        0xFB => Decoded::new(Insn::Ei, 0, 1),
        0xFC => Decoded::new(Insn::Undefined, 0, 0),
        0xFD => Decoded::new(Insn::Undefined, 0, 0),
        0xFE => Decoded::new(Insn::Math(Alu::Cp, Operand::Const(n8)), 1, 2),
        _ => Decoded::new(Insn::Rst(0x38), 0, 4),
    }
}
