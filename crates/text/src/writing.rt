// Writing bytes and numbers into a text.
ghost use Rattle.std.specs.Prelude.{◌≡◌, ◌/◌, ◌%◌, ◌<◌, ◌≤◌};
ghost use Rattle.digits.specs.Numerals.{glyph_of, decimal_text};
ghost use Rattle.text.specs.Written.{empty_text, pushed, written};
ghost use Rattle.text.specs.Answer.{number_then, word_then};

use crate::{ROOM, Text};
use digits::glyphs;

// Stays: `two_lines` is of a text of fixed room, and `write!` to a String would allocate.
impl Text {
    pub(crate) fn new() -> Text
        ensures { result ≡ empty_text }
    {
        Text {
            bytes: [0u8; ROOM],
            len: 0,
        }
    }

    // One byte more; a full text stays as it is.
    pub(crate) fn push(mut self, b: u8) -> Text
        ensures { result ≡ pushed b self }
    {
        let at = self.len;
        if at < ROOM {
            self.bytes[at] = b;
            self.len = at + 1;
        }
        self
    }

    pub(crate) fn append(mut self, s: &[u8]) -> Text
        ensures { result ≡ written s.now self }
    {
        for &b in s {
            self = self.push(b);
        }
        self
    }

    // The digit of n that counts p, where n reaches p.
    // Stays: `as` for a digit here and below, since it is less than 16, and `try_from` would have an arm that is never taken.
    fn digit(self, n: u32, p: u32) -> Text
        requires { 0 < p }
        ensures { (p ≤ n → result ≡ pushed (glyph_of (n / p % 10)) self) × (n < p → result ≡ self) }
    {
        if p <= n {
            return self.push(glyphs::glyph((n / p % 10) as u8));
        }
        self
    }

    // From the highest digit that is not 0 on; the last is always there.
    pub(crate) fn decimal(mut self, n: u32) -> Text
        ensures { result ≡ written (decimal_text n) self }
    {
        for place in 0..9 {
            self = self.digit(n, 10_u32.pow(9 - place));
        }
        self.push(glyphs::glyph((n % 10) as u8))
    }

    // A number and a space.
    pub(crate) fn number(self, n: u32) -> Text
        ensures { result ≡ written (number_then n) self }
    {
        self.decimal(n).push(b' ')
    }

    // A word in four hexadecimal digits and a space.
    pub(crate) fn word(self, w: u16) -> Text
        ensures { result ≡ written (word_then w) self }
    {
        self.push(glyphs::glyph((w / 4096 % 16) as u8))
            .push(glyphs::glyph((w / 256 % 16) as u8))
            .push(glyphs::glyph((w / 16 % 16) as u8))
            .push(glyphs::glyph((w % 16) as u8))
            .push(b' ')
    }
}
