// The form of a text: whether it is a constant, nested to any depth, and whether too deep.
ghost use Rattle.std.specs.Prelude.{◌≡◌, ◌<◌};
ghost use Rattle.constants.specs.Reading.{read_of};
ghost use Rattle.constants.specs.Forms.{begun_at, followed_at, stand_after, open_after, ends_at, form_in, form_by};

use crate::{Base, Stand, chars};
use arith::Refusal;

// The parentheses that may be open at once.
const DEEPEST: usize = 16;

// Where a term begins with a character.
#[tactic(auto, unfolding(crate::specs::Forms::begun_at, crate::specs::Forms::stand_if, crate::specs::Constant::is_decimal))]
fn begun(c: u8) -> Stand
    ensures { result ≡ begun_at c }
{
    match c {
        b'(' => Stand::Start,
        b'$' => Stand::Dollar,
        b'0'..=b'9' => Stand::InDecimal,
        _ => Stand::Nowhere,
    }
}

// Where a character follows a term.
#[tactic(auto, unfolding(crate::specs::Forms::followed_at, crate::specs::Forms::stand_if))]
fn followed(c: u8, opened: usize) -> Stand
    ensures { result ≡ followed_at c opened }
{
    match c {
        b'+' | b'-' => Stand::Next,
        b')' if opened != 0 => Stand::Closed,
        _ => Stand::Nowhere,
    }
}

// Where the next character leads, with so many parentheses open.
#[tactic(auto, unfolding(crate::specs::Forms::stand_after, crate::specs::Forms::stand_if))]
fn step(stand: Stand, c: u8, opened: usize) -> Stand
    ensures { result ≡ stand_after stand c opened }
{
    match stand {
        Stand::Start => if c == b'-' { Stand::Next } else { begun(c) },
        Stand::Next => begun(c),
        Stand::Dollar => if chars::is_digit(Base::Hexadecimal, c) {
            Stand::InHexadecimal
        } else {
            Stand::Nowhere
        },
        Stand::InHexadecimal => if chars::is_digit(Base::Hexadecimal, c) {
            stand
        } else {
            followed(c, opened)
        },
        Stand::InDecimal => if chars::is_digit(Base::Decimal, c) {
            stand
        } else {
            followed(c, opened)
        },
        Stand::Closed => followed(c, opened),
        Stand::Nowhere => Stand::Nowhere,
    }
}

// Where a constant can end.
#[tactic(auto, unfolding(crate::specs::Forms::ends_at))]
fn ends(stand: Stand) -> bool
    ensures { result ≡ ends_at stand }
{
    matches!(
        stand,
        Stand::InHexadecimal | Stand::InDecimal | Stand::Closed
    )
}

// The form where the text ends.
#[tactic(auto, unfolding(crate::specs::Forms::form_by, crate::specs::Forms::form_if))]
fn ended(stand: Stand, opened: usize, deep: bool) -> Result<(), Refusal>
    ensures { result ≡ form_by stand opened deep }
{
    if !ends(stand) || opened != 0 {
        return Err(Refusal::Form);
    }
    if deep {
        return Err(Refusal::Nesting);
    }
    Ok(())
}

// How many parentheses are open behind a character.
#[tactic(auto, unfolding(crate::specs::Forms::open_after, crate::specs::Forms::open_if))]
fn open_after(c: u8, opened: usize) -> usize
    requires { opened < 18446744073709551615 }
    ensures { result ≡ open_after c opened }
{
    match c {
        b'(' => opened + 1,
        b')' => opened.saturating_sub(1),
        _ => opened,
    }
}

// Stays: `stand`, `opened` and `deep` apart, for each function takes others of them, as the definitions `stand_after`, `open_after` and
// `form_by` do: a struct of the three is no plainer.
pub(crate) fn form(text: &[u8]) -> Result<(), Refusal>
    ensures { result ≡ form_in (read_of text.now) }
{
    let mut stand = Stand::Start;
    let mut opened = 0;
    let mut deep = false;
    for &c in text {
        deep = deep || (c == b'(' && DEEPEST <= opened);
        stand = step(stand, c, opened);
        opened = open_after(c, opened);
    }
    ended(stand, opened, deep)
}
