// From the bytes at PC to the instruction.
ghost use Rattle.std.specs.Prelude.{◌≡◌};
ghost use Rattle.insn.specs.Shapes.{decoded_of};

use crate::{Decoded, Place, rows};
use arith::Alu;

// The instruction of an opcode byte, the byte after it and the word after it, with what it takes.
pub fn decode(op: u8, n8: u8, n16: u16) -> Decoded
    ensures { result ≡ decoded_of op n8 n16 }
{
    let row = op / 16;
    match row {
        0 => rows::row_0(op, n8, n16),
        1 => rows::row_1(op, n8, n16),
        2 => rows::row_2(op, n8, n16),
        3 => rows::row_3(op, n8, n16),
        4 => rows::lines(op % 16, Place::B, Place::C),
        5 => rows::lines(op % 16, Place::D, Place::E),
        6 => rows::lines(op % 16, Place::H, Place::L),
        7 => rows::row_7(op, n8, n16),
        8 => rows::lines(op % 16, Alu::Add, Alu::Adc),
        9 => rows::lines(op % 16, Alu::Sub, Alu::Sbc),
        10 => rows::lines(op % 16, Alu::And, Alu::Xor),
        11 => rows::lines(op % 16, Alu::Or, Alu::Cp),
        12 => rows::row_c(op, n8, n16),
        13 => rows::row_d(op, n8, n16),
        14 => rows::row_e(op, n8, n16),
        _ => rows::row_f(op, n8, n16),
    }
}
