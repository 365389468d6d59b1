// The assembler: lines of spelling in either edition as bytes. Nothing here knows the processor's state.
#![tactic(auto)]

mod lines;
mod ranges;
mod texts;

ghost use Rattle.assembler.specs.Text.{Assembles, assemble_of};
ghost use Rattle.assembler.specs.Judging.{told_assembly};

use arith::Refusal;
use listing::writing::Writer;

// Why a text is refused, and the number of the first line at fault.
#[derive(Clone, Copy, PartialEq, Eq, Debug)]
pub struct Fault {
    pub refusal: Refusal,
    pub line: usize,
}

// The bytes of lines of spelling, the first of which stands at an address, and how many they are. Refusals, for the first line at fault:
// 12 a line of no such form, 13 nesting deeper than 16, 14 a number or a value out of range, 10 no room; the output is then unchanged.
pub fn assemble(text: &[u8], first: u16, out: &mut [u8]) -> Result<usize, Fault>
    ensures { Assembles (assemble_of first text.now out.old) (told_assembly result) out.new }
{
    let length = texts::measure(text, first, out.len())?;
    let mut writer = Writer { out, at: 0 };
    texts::write(text, first, &mut writer);
    Ok(length)
}
