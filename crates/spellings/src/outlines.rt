// The outline of a line, which is looked up: no row has one of more than ten characters.
ghost use Rattle.std.specs.Prelude.{◌≡◌, ◌+◌, ◌<◌, ◌∷◌, ◌++◌, length, IfSome, IfNone};
ghost use Rattle.spellings.specs.Outline.{mark, outline_in, up_to, on_from};
ghost use Rattle.spellings.specs.Rows.{no_row, row_by, unless};
ghost use Rattle.spellings.specs.Lookup.{is_comma, operands_row, Stands};

use crate::{places, rows};
use arrayvec::ArrayVec;

const LONGEST: usize = 10;

const MARK: u8 = b'$';

// The row of a name with its operands: one, or two with a comma between.
fn operated(name: u16, operands: &[u8]) -> Option<u16>
    ensures { result ≡ unless no_row (operands_row name (up_to is_comma operands.now) (on_from is_comma operands.now)) }
{
    let Some(comma) = places::character(operands, b',') else {
        return rows::single(name, rows::operand(operands)?);
    };
    let first = rows::operand(&operands[..comma])?;
    rows::double(name, first, rows::operand(&operands[comma + 1..])?)
}

// The row of an outline: its name, and its operands where it has any.
fn outlined(text: &[u8]) -> Option<u16>
    ensures { result ≡ unless no_row (row_by text.now) }
{
    let Some(space) = places::character(text, b' ') else {
        return rows::alone(rows::bare(text)?);
    };
    operated(rows::name(&text[..space])?, &text[space + 1..])
}

// The mark in a constant's place, where the whole is not too long.
fn marked(before: &[u8], behind: &[u8]) -> Option<ArrayVec<u8, LONGEST>>
    ensures some { IfSome result (λ outline. outline.items ≡ before.now ++ mark ∷ behind.now) }
    ensures none { IfNone result (10 < length before.now + 1 + length behind.now) }
{
    let mut outline = ArrayVec::new();
    outline.try_extend_from_slice(before).ok()?;
    outline.try_push(MARK).ok()?;
    outline.try_extend_from_slice(behind).ok()?;
    Some(outline)
}

// The row of a line whose constant begins and ends at two places.
pub(crate) fn row(line: &[u8], from: usize, to: usize) -> Option<u16>
    requires { Stands line.now from to }
    ensures { result ≡ unless no_row (row_by (outline_in line.now)) }
{
    if from == line.len() {
        return outlined(line);
    }
    outlined(&marked(&line[..from], &line[to..])?)
}
