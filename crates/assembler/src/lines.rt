// A line: what stands in the place of its constant, and its bytes or its fault.
ghost use Rattle.std.specs.Prelude.{◌≡◌};
ghost use Rattle.std.specs.Result.{MatchResult};
ghost use Rattle.arith.specs.Numbers.{number_of};
ghost use Rattle.constants.specs.Answer.{answer_in, signed};
ghost use Rattle.assembler.specs.Lines.{Fault, Bytes, standing, verdict_by, verdict_of};

use crate::ranges;
use arith::{Refusal, words};
use arrayvec::ArrayVec;
use spellings::Slot;

// The value that stands in the place of a row's constant.
fn standing(slot: Slot, text: &[u8]) -> Result<i32, Refusal>
    ensures { result ≡ answer_in (standing slot text.now) }
{
    match slot {
        Slot::Bare => Ok(0),
        _ => constants::read(text),
    }
}

// A value in the place of a row's constant, at an address; it is out of range where it is not held or not reached.
fn valued(address: u16, row: u16, slot: Slot, value: i32) -> Result<ArrayVec<u8, 4>, Refusal>
    ensures { MatchResult result (λ code. verdict_by address row slot (signed value) ≡ Bytes code.items) (λ r. verdict_by address row slot (signed value) ≡ Fault (number_of r)) }
{
    let number = ranges::number(words::further(2, address), slot, ranges::word(value));
    if ranges::holds(slot, value) && ranges::reached(slot, number) {
        Ok(spellings::bytes(row, slot, number))
    } else {
        Err(Refusal::Range)
    }
}

// A line at an address.
pub(crate) fn judge(line: &[u8], address: u16) -> Result<ArrayVec<u8, 4>, Refusal>
    ensures { MatchResult result (λ code. verdict_of address line.now ≡ Bytes code.items) (λ r. verdict_of address line.now ≡ Fault (number_of r)) }
{
    let form = spellings::find(line);
    let row = form.row.ok_or(Refusal::Form)?;
    let value = standing(form.slot, &line[form.from..form.to])?;
    valued(address, row, form.slot, value)
}
