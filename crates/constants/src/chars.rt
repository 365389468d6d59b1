// The digits of constants.
ghost use Rattle.std.specs.Prelude.{◌≡◌};
ghost use Rattle.constants.specs.Constant.{is_digit, digit_of, base_of};

use crate::Base;

#[tactic(auto, unfolding(crate::specs::Constant::is_digit, crate::specs::Constant::is_decimal))]
pub(crate) fn is_digit(base: Base, c: u8) -> bool
    ensures { result ≡ is_digit base c }
{
    match base {
        Base::Decimal => c.is_ascii_digit(),
        Base::Hexadecimal => matches!(c, b'0'..=b'9' | b'A'..=b'F'),
    }
}

#[tactic(auto, unfolding(crate::specs::Constant::digit_of, crate::specs::Constant::digit_if))]
pub(crate) fn digit(c: u8) -> u8
    ensures { result ≡ digit_of c }
{
    if c <= b'9' {
        c.saturating_sub(b'0')
    } else {
        c - (b'A' - 10)
    }
}

#[tactic(auto, unfolding(crate::specs::Constant::base_of))]
pub(crate) fn base(base: Base) -> u32
    ensures { result ≡ base_of base }
{
    match base {
        Base::Decimal => 10,
        Base::Hexadecimal => 16,
    }
}
