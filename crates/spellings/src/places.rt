// Places in a text: where a constant begins and where one ends, the first of a certain character; and the place of a text in a table.
ghost use Rattle.std.specs.Prelude.{◌≡◌, ◌<◌, ◌^◌, eqb, length, nat_eq, position};
ghost use Rattle.std.specs.Cmp.Lexicographic.{pointwise};
ghost use Rattle.spellings.specs.Outline.{begins, ends};

// The characters that begin a constant, and those that end one.
#[tactic(auto, unfolding(crate::specs::Outline::begins))]
fn begins(c: u8) -> bool
    ensures { result ≡ begins c }
{
    matches!(c, b'$' | b'(' | b'-' | b'0'..=b'9')
}

#[tactic(auto, unfolding(crate::specs::Outline::ends))]
fn ends(c: u8) -> bool
    ensures { result ≡ ends c }
{
    matches!(c, b',' | b']')
}

// Where a constant begins, and where one ends.
// Stays: a line for each test. What they share is std's `position`, and a chain's value is known to a proof from a function of its own.
pub(crate) fn beginning(text: &[u8]) -> Option<usize>
    ensures { result ≡ position begins text.now }
{
    text.iter().position(|c| begins(*c))
}

pub(crate) fn end(text: &[u8]) -> Option<usize>
    ensures { result ≡ position ends text.now }
{
    text.iter().position(|c| ends(*c))
}

// The first place of a character.
pub(crate) fn character(text: &[u8], wanted: u8) -> Option<usize>
    ensures { result ≡ position (λ c. eqb c wanted) text.now }
{
    text.iter().position(|c| *c == wanted)
}

// The place of a text in a table.
fn entry(table: &[&str], text: &[u8]) -> Option<usize>
    ensures { result ≡ position (λ e. pointwise nat_eq e.now text.now) table.now }
{
    table.iter().position(|entry| entry.as_bytes() == text)
}

pub(crate) fn place(table: &[&str], text: &[u8]) -> Option<u16>
    requires { length table.now < 2 ^ 16 }
    ensures { result ≡ position (λ e. pointwise nat_eq e.now text.now) table.now }
{
    let k = entry(table, text)?;
    u16::try_from(k).ok()
}
