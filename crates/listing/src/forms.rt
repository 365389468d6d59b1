// What the marks of a form stand for, written: names and constants.
#![tactic(auto, using(crate::proofs::Writers::after, crate::proofs::Writers::unwritten), unfolding(crate::specs::Forms::forms, digits::specs::Ascii::ascii))]

ghost use Rattle.std.specs.Prelude.{◌<◌, [], get_or, length, map};
ghost use Rattle.digits.specs.Ascii.{ascii};
ghost use Rattle.listing.specs.Forms.{register_text, high_text, step_text, load_text, pointer_text, named_text, mark_text, marks_text};
ghost use Rattle.listing.specs.Written.{Writes};

use crate::writing::Writer;
use crate::{Edition, Operands};
use arith::words;
use digits::glyphs;

// A name out of a row of names.
fn name(names: &[&str], k: u8, writer: &mut Writer<'_>)
    requires { k < length names.now }
    ensures { Writes (get_or (map (λ n. n.now) names.now) k []) writer.old writer.new }
{
    writer.letters(names[usize::from(k)].as_bytes());
}

// A register or [HL].
fn register(k: u8, writer: &mut Writer<'_>)
    requires { k < 8 }
    ensures { Writes (register_text k) writer.old writer.new }
{
    name(&["B", "C", "D", "E", "H", "L", "[HL]", "A"], k, writer);
}

// LD.
fn ld(writer: &mut Writer<'_>)
    ensures { Writes (ascii "LD") writer.old writer.new }
{
    writer.push(b'L');
    writer.push(b'D');
}

// LDH, which is LDIO in the old edition.
fn high(edition: Edition, writer: &mut Writer<'_>)
    ensures { Writes (high_text edition) writer.old writer.new }
{
    ld(writer);
    match edition {
        Edition::Old => {
            writer.push(b'I');
            writer.push(b'O');
        }
        Edition::New => writer.push(b'H'),
    }
}

// How HL moves with a load by a pointer: I up, D down.
fn step(p: u8, writer: &mut Writer<'_>)
    ensures { Writes (step_text p) writer.old writer.new }
{
    match p {
        2 => writer.push(b'I'),
        3 => writer.push(b'D'),
        _ => (),
    }
}

// The old edition says it behind LD, and the new one behind the pointer's pair.
fn load(edition: Edition, p: u8, writer: &mut Writer<'_>)
    ensures { Writes (load_text edition p) writer.old writer.new }
{
    ld(writer);
    match edition {
        Edition::Old => step(p, writer),
        Edition::New => (),
    }
}

fn pointer(edition: Edition, p: u8, writer: &mut Writer<'_>)
    requires { p < 4 }
    ensures { Writes (pointer_text edition p) writer.old writer.new }
{
    name(&["BC", "DE", "HL", "HL"], p, writer);
    match edition {
        Edition::Old => (),
        Edition::New => step(p, writer),
    }
}

impl Operands {
    // A mark of a name; any other character is itself.
    fn named(self, mark: u8, writer: &mut Writer<'_>)
        ensures { Writes (named_text self.edition self.op mark) writer.old writer.new }
    {
        let op = self.op;
        let y = op / 8 % 8;
        let p = op / 16 % 4;
        match mark {
            b'a' => name(
                &["ADD", "ADC", "SUB", "SBC", "AND", "XOR", "OR", "CP"],
                y,
                writer,
            ),
            b'c' => name(&["NZ", "Z", "NC", "C"], op / 8 % 4, writer),
            b'd' => ld(writer),
            b'i' => high(self.edition, writer),
            b'k' => writer.push(glyphs::glyph(y)),
            b'l' => load(self.edition, p, writer),
            b'o' => name(
                &["RLC", "RRC", "RL", "RR", "SLA", "SRA", "SWAP", "SRL"],
                y,
                writer,
            ),
            b'p' => name(&["BC", "DE", "HL", "SP"], p, writer),
            b'q' => name(&["BC", "DE", "HL", "AF"], p, writer),
            b't' => pointer(self.edition, p, writer),
            b'y' => register(y, writer),
            b'z' => register(op % 8, writer),
            _ => writer.push(mark),
        }
    }

    // A character of a form, which may be a mark.
    fn mark(self, m: u8, writer: &mut Writer<'_>)
        ensures { Writes (mark_text self m) writer.old writer.new }
    {
        match m {
            b'.' => (),
            b'b' => writer.hex_byte(self.n8),
            b'e' => writer.signed(self.n8),
            b'h' => writer.hex_word(words::word(0xFF, self.n8)),
            b'j' => writer.hex_word(words::offset(self.n8, self.next)),
            b'v' => writer.hex_byte(8 * (self.op / 8 % 8)),
            b'w' => writer.hex_word(self.n16),
            _ => self.named(m, writer),
        }
    }

    // The characters of a form.
    pub(crate) fn marks(self, form: &[u8], writer: &mut Writer<'_>)
        ensures { Writes (marks_text self form.now) writer.old writer.new }
    {
        for m in form {
            self.mark(*m, writer);
        }
    }
}
