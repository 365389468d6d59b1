// Writing to an output, from a place on and while there is room.
ghost use Rattle.std.specs.Prelude.{◌∷◌, []};
ghost use Rattle.digits.specs.Numerals.{hex_text};
ghost use Rattle.listing.specs.Lines.{bytes_text};
ghost use Rattle.listing.specs.Spelling.{hex, signed_text};
ghost use Rattle.listing.specs.Written.{Writes};

use arith::words;
use digits::glyphs;

// An output, and the place in it that the next byte goes to.
#[derive(Drop)]
pub struct Writer<'a> {
    pub out: &'a mut [u8],
    pub at: usize,
}

impl Writer<'_> {
    // A byte more; a full output stays as it is.
    pub fn push(&mut self, b: u8)
        ensures { Writes (b ∷ []) self.old self.new }
    {
        if self.at < self.out.len() {
            self.out[self.at] = b;
            self.at += 1;
        }
    }

    // A byte in two hexadecimal digits.
    pub(crate) fn byte(&mut self, v: u8)
        ensures { Writes (hex_text 2 v) self.old self.new }
    {
        self.push(glyphs::glyph(v / 16 % 16));
        self.push(glyphs::glyph(v % 16));
    }

    // A word in four.
    pub(crate) fn word(&mut self, v: u16)
        ensures { Writes (hex_text 4 v) self.old self.new }
    {
        self.byte(words::high(v));
        self.byte(words::low(v));
    }

    // Bytes, with nothing between them.
    pub(crate) fn bytes(&mut self, part: &[u8])
        ensures { Writes (bytes_text part.now) self.old self.new }
    {
        for b in part {
            self.byte(*b);
        }
    }

    // The characters of a name.
    pub(crate) fn letters(&mut self, name: &[u8])
        ensures { Writes name.now self.old self.new }
    {
        for c in name {
            self.push(*c);
        }
    }

    // A constant of a byte, and of a word.
    pub(crate) fn hex_byte(&mut self, v: u8)
        ensures { Writes (hex 2 v) self.old self.new }
    {
        self.push(b'$');
        self.byte(v);
    }

    pub(crate) fn hex_word(&mut self, v: u16)
        ensures { Writes (hex 4 v) self.old self.new }
    {
        self.push(b'$');
        self.word(v);
    }

    // A signed byte.
    pub(crate) fn signed(&mut self, e: u8)
        ensures { Writes (signed_text e) self.old self.new }
    {
        if e < 0x80 {
            self.hex_byte(e);
        } else {
            self.push(b'-');
            self.hex_byte(255 - e + 1);
        }
    }
}
