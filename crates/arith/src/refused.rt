// The number of each refusal, by which a host and the program's output know it; 0 is done, and no refusal's.
ghost use Rattle.std.specs.Prelude.{◌≡◌};
ghost use Rattle.arith.specs.Numbers.{number_of};

use crate::Refusal;

impl From<Refusal> for u8 {
    ghost from_gives = { λ refusal number. number ≡ number_of refusal };

    fn from(refusal: Refusal) -> u8 {
        match refusal {
            Refusal::MemoryLength => 1,
            Refusal::LowFlags => 2,
            Refusal::Stopped => 3,
            Refusal::Undefined => 4,
            Refusal::Budget => 5,
            Refusal::Length => 6,
            Refusal::Version => 7,
            Refusal::BlockLength => 8,
            Refusal::Codes => 9,
            Refusal::Room => 10,
            Refusal::Edition => 11,
            Refusal::Form => 12,
            Refusal::Nesting => 13,
            Refusal::Range => 14,
        }
    }
}
