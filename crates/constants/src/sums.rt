// The value of a constant, by recursion: a call for each parenthesis, with the depth that remains falling.
ghost use Rattle.std.specs.Prelude.{◌≡◌};
ghost use Rattle.constants.specs.Sums.{Opens, Sums, goes_on, behind_sign, joined, JoinFits, sum_in};

use crate::{Counted, numbers};
use arith::Refusal;

// Neither the end nor a closed parenthesis stands in front.
#[tactic(auto, unfolding(crate::specs::Sums::goes_on))]
fn goes_on(text: &[u8]) -> bool
    ensures { result ≡ goes_on text.now }
{
    matches!(text, [c, ..] if *c != b')')
}

// The text behind a sign, where there is one.
#[tactic(auto, unfolding(crate::specs::Sums::behind_sign, crate::specs::Sums::behind_if))]
fn behind_sign(text: &[u8]) -> &[u8]
    ensures { result.now ≡ behind_sign text.now }
{
    match text {
        [b'+' | b'-', rest @ ..] => rest,
        _ => text,
    }
}

// A total with a term, which counts below 0 behind a minus.
#[tactic(auto, unfolding(crate::specs::Sums::joined, crate::specs::Sums::join_if))]
fn with_term(total: i128, sign: u8, term: i128) -> i128
    requires { JoinFits total sign term }
    ensures { result ≡ joined total sign term }
{
    if sign == b'-' {
        total - term
    } else {
        total + term
    }
}

// The sum at the front, to the end or a closed parenthesis.
pub(crate) fn sum(text: &[u8], depth: usize) -> Result<Counted<'_>, Refusal>
    requires { Opens text.now depth }
    ensures { Sums text.now result }
{
    let mut value = 0;
    let mut rest = text;
    while goes_on(rest) {
        let sign = rest[0];
        let term = behind_sign(rest);
        if term[0] == b'(' {
            let inner = sum(&term[1..], depth - 1)?;
            value = with_term(value, sign, inner.value);
            rest = &inner.rest[1..];
        } else {
            let number = numbers::number(term)?;
            value = with_term(value, sign, number.value);
            rest = number.rest;
        }
    }
    Ok(Counted { value, rest })
}

// A sum, where it is in the range of a value.
#[tactic(auto, unfolding(crate::specs::Sums::sum_in, crate::specs::Sums::sum_if, crate::specs::Answer::in_range))]
pub(crate) fn in_range(value: i128) -> Result<i32, Refusal>
    ensures { result ≡ sum_in value }
{
    if (-32_768..=65_535).contains(&value) {
        // Stays: no plainer, for the range is asked one line above, and `try_from` would ask for an arm that is never taken.
        Ok(value as i32)
    } else {
        Err(Refusal::Range)
    }
}
