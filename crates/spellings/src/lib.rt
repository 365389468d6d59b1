// The way back from a spelling: its row in the table and where its constant stands, and the bytes of a row with a number.
#![tactic(auto)]

mod codes;
mod outlines;
mod places;
mod rows;
mod slots;

ghost use Rattle.std.specs.Prelude.{◌≡◌};
ghost use Rattle.spellings.specs.Rows.{form_of, form_in};
ghost use Rattle.spellings.specs.Bytes.{bytes_of};

use arith::words;
use arrayvec::ArrayVec;

// What a constant may be, where there is one.
// Stays: `Option<Slot>` for a `Bare` is no plainer. Each match tells all eight apart, and `Some` would stand before seven of them.
#[derive(Clone, Copy, PartialEq, Eq, Debug)]
pub enum Slot {
    Bare,
    N8,
    N16,
    High,
    E8,
    Target,
    U3,
    Vec,
}

// What a line is: its row where it has one, what its constant may be, and where that begins and ends.
#[derive(Clone, Copy, PartialEq, Eq, Debug)]
pub struct Form {
    pub row: Option<u16>,
    pub slot: Slot,
    pub from: usize,
    pub to: usize,
}

// What a line of spelling is. A constant in it is not read.
pub fn find(line: &[u8]) -> Form
    ensures { result ≡ form_in (form_of line.now) }
{
    let from = places::beginning(line).unwrap_or(line.len());
    let rest = &line[from..];
    let to = from + places::end(rest).unwrap_or(rest.len());
    let row = outlines::row(line, from, to);
    Form {
        row,
        slot: row.map_or(Slot::Bare, slots::slot),
        from,
        to,
    }
}

// The bytes of a row with a number in the place of its constant.
#[tactic(auto, unfolding(crate::specs::Bytes::bytes_of, crate::specs::Bytes::counted))]
pub fn bytes(row: u16, slot: Slot, number: u16) -> ArrayVec<u8, 4>
    ensures { result.items ≡ bytes_of row slot number }
{
    let mut code = codes::row_bytes(codes::counted(row, slot, number));
    match slot {
        Slot::N8 | Slot::High | Slot::E8 | Slot::Target => code.push(words::low(number)),
        Slot::N16 => {
            code.push(words::low(number));
            code.push(words::high(number));
        }
        Slot::Bare | Slot::U3 | Slot::Vec => {}
    }
    code
}
