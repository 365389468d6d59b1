// Numbers, decimal and hexadecimal.
ghost use Rattle.std.specs.Prelude.{◌≡◌, ◌<◌, ◌≤◌, ◌+◌, ◌*◌};
ghost use Rattle.constants.specs.Sums.{number_in, Digits, NumberAt, Counts, digits_end};

use crate::{Base, Counted, chars};
use arith::Refusal;

// A number with one more digit; none is above 65,535.
#[tactic(auto, unfolding(crate::specs::Sums::number_in, crate::specs::Sums::number_if))]
fn with_digit(value: u32, base: u32, digit: u8) -> Result<u32, Refusal>
    requires { (value ≤ 65535) × (base ≤ 16) }
    ensures { result ≡ number_in (value * base + digit) }
{
    let more = value * base + u32::from(digit);
    if more < 65_536 {
        Ok(more)
    } else {
        Err(Refusal::Range)
    }
}

// How many digits stand at the front.
fn digits_end(text: &[u8], base: Base) -> usize
    ensures { result ≡ digits_end base text.now }
{
    text.iter()
        .take_while(|&&c| chars::is_digit(base, c))
        .count()
}

// The digits at the front, as many as there are.
fn digits(text: &[u8], base: Base) -> Result<Counted<'_>, Refusal>
    ensures { Digits base text.now result }
{
    let (digits, rest) = text.split_at(digits_end(text, base));
    let counted_by = chars::base(base);
    let mut value = 0;
    for &c in digits {
        value = with_digit(value, counted_by, chars::digit(c))?;
    }
    Ok(Counted {
        value: i128::from(value),
        rest,
    })
}

// The number at the front, where there is one.
pub(crate) fn number(text: &[u8]) -> Result<Counted<'_>, Refusal>
    requires { NumberAt text.now }
    ensures { Counts text.now result }
{
    if text[0] == b'$' {
        digits(&text[1..], Base::Hexadecimal)
    } else {
        digits(text, Base::Decimal)
    }
}
