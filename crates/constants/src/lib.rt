// Constants as text: terms joined by + or -, numbers and parentheses.
#![tactic(auto)]

mod chars;
mod forms;
mod numbers;
mod sums;

ghost use Rattle.std.specs.Prelude.{◌≡◌};
ghost use Rattle.constants.specs.Answer.{answer_of};

use arith::Refusal;

// What the digits of a number count by.
#[derive(Clone, Copy, PartialEq, Eq, Debug)]
pub enum Base {
    Decimal,
    Hexadecimal,
}

// Where a reading stands: a term is to come, which a minus may stand before; a term is to come; behind a $; in the digits of a
// hexadecimal number, and of a decimal one; behind a closed parenthesis; or no constant begins so.
// Stays: `Nowhere` in place of an Option, for the definitions `StandsAt` and `stand_after` and the law `step_stands` name it.
#[derive(Clone, Copy)]
enum Stand {
    Start,
    Next,
    Dollar,
    InHexadecimal,
    InDecimal,
    Closed,
    Nowhere,
}

// The value of what stands at the front of a text, and the text behind it.
#[derive(Clone, Copy)]
struct Counted<'a> {
    value: i128,
    rest: &'a [u8],
}

// The value of the constant that a text is: refused by its form first, and where that is right by its numbers and its value.
pub fn read(text: &[u8]) -> Result<i32, Refusal>
    ensures { result ≡ answer_of text.now }
{
    forms::form(text)?;
    let whole = sums::sum(text, 16)?;
    sums::in_range(whole.value)
}
