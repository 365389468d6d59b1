// Numbers of four bytes, big-endian.
#![tactic(auto, unfolding(crate::specs::Digits::number_of, crate::specs::Digits::worth_of))]

ghost use Rattle.std.specs.Prelude.{◌≡◌, [], ◌∷◌};
ghost use Rattle.digits.specs.Digits.{number_of};

pub fn number(first: u8, second: u8, third: u8, last: u8) -> u32
    ensures { result ≡ number_of (first ∷ second ∷ third ∷ last ∷ []) }
{
    u32::from_be_bytes([first, second, third, last])
}
