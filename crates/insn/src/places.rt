// What a place costs, and the operand that it is where it is read.
ghost use Rattle.std.specs.Prelude.{◌≡◌, ◌≤◌};
ghost use Rattle.insn.specs.Grid.{operand_of};
ghost use Rattle.insn.specs.Shapes.{access_of};

use crate::{Operand, Place, Register};

impl From<Place> for Operand {
    ghost from_gives = { λ place operand. operand ≡ operand_of place };

    #[tactic(auto, unfolding(crate::specs::Grid::operand_of))]
    fn from(place: Place) -> Operand {
        match place {
            Place::B => Operand::Reg(Register::B),
            Place::C => Operand::Reg(Register::C),
            Place::D => Operand::Reg(Register::D),
            Place::E => Operand::Reg(Register::E),
            Place::H => Operand::Reg(Register::H),
            Place::L => Operand::Reg(Register::L),
            Place::AtHl => Operand::AtHl,
            Place::A => Operand::Reg(Register::A),
        }
    }
}

impl Place {
    // One access where the place is in memory.
    #[tactic(auto, unfolding(crate::specs::Grid::operand_of, crate::specs::Shapes::access_of))]
    pub(crate) fn accesses(self) -> u8
        ensures cost { result ≡ access_of (operand_of self) }
        ensures small { result ≤ 1 }
    {
        u8::from(matches!(self, Place::AtHl))
    }
}
