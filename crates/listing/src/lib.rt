// The listing: bytes as text, one line an instruction. Nothing here knows the processor's state.
#![tactic(auto)]

mod forms;
mod kinds;
mod lines;
mod read;
mod table;
pub mod writing;

ghost use Rattle.std.specs.Prelude.{◌≤◌, length};
ghost use Rattle.listing.specs.Answer.{Lists, list_of, numbered, told_list};
ghost use Rattle.listing.specs.Forms.{line_by};
ghost use Rattle.listing.specs.Lines.{line_text};

use crate::lines::Lines;
use crate::table::Table;
use crate::writing::Writer;
use arith::Refusal;

// An edition of the instruction reference, whose spelling is used: 1 is the old one and 2 the new one.
#[derive(Clone, Copy, PartialEq, Eq, Debug)]
pub enum Edition {
    Old,
    New,
}

// What the marks of a form stand for: the edition that names, the byte whose fields name registers, the byte and the word after the
// opcode, and the address of the next instruction.
#[derive(Clone, Copy)]
struct Operands {
    edition: Edition,
    op: u8,
    n8: u8,
    n16: u16,
    next: u16,
}

// What a line reads: where it stands, its bytes, and the form and the operands that spell them; no line is longer than 26.
#[derive(Clone, Copy)]
struct Reading<'a> {
    address: u16,
    bytes: &'a [u8],
    form: &'a [u8],
    operands: Operands,
    ghost short: { length (line_text (line_by address bytes.now form.now operands)) ≤ 26 },
}

// The edition of a number that has one.
impl TryFrom<u32> for Edition {
    type Error = Refusal;

    ghost use Rattle.std.specs.Prelude.{◌≡◌};

    ghost try_from_gives = { λ number answer. answer ≡ numbered number };

    fn try_from(number: u32) -> Result<Edition, Refusal> {
        match number {
            1 => Ok(Edition::Old),
            2 => Ok(Edition::New),
            _ => Err(Refusal::Edition),
        }
    }
}

// The listing of a part whose first byte stands at an address, in the spelling of an edition, and its length. Refusals 11 for an
// edition number that is neither 1 nor 2, then 10 where the output is too short, which is then unchanged.
pub fn list(part: &[u8], first: u16, edition: u32, out: &mut [u8]) -> Result<usize, Refusal>
    ensures { Lists (list_of edition first part.now out.old) (told_list result) out.new }
{
    let edition = Edition::try_from(edition)?;
    let lines = Lines::new(Table::new(), edition, part, first);
    let length = lines.measure(out.len())?;
    let mut writer = Writer { out, at: 0 };
    lines.write(&mut writer);
    Ok(length)
}
