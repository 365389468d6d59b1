// The glyphs of digits, in ASCII.
#![tactic(auto, unfolding(crate::specs::Ascii::ascii, crate::specs::Numerals::glyph_of))]

ghost use Rattle.std.specs.Prelude.{◌≡◌};
ghost use Rattle.digits.specs.Numerals.{glyph_of};

// The glyph of a digit, which counts modulo 16.
pub fn glyph(digit: u8) -> u8
    ensures { result ≡ glyph_of digit }
{
    let glyphs = b"0123456789ABCDEF";
    glyphs[usize::from(digit % 16)]
}
