// The bytes of a row.
ghost use Rattle.std.specs.Prelude.{◌≡◌, ◌≤◌, length};
ghost use Rattle.spellings.specs.Bytes.{row_bytes, counted};

use crate::Slot;
use arrayvec::ArrayVec;

const PREFIX: u8 = 0xCB;

const STOP: u32 = 0x10;

// A row, with the number that its opcode holds, where it holds one.
#[tactic(auto, unfolding(crate::specs::Bytes::counted))]
pub(crate) fn counted(row: u16, slot: Slot, number: u16) -> u32
    ensures { result ≡ counted row slot number }
{
    match slot {
        Slot::U3 => u32::from(row) + 8 * u32::from(number),
        Slot::Vec => u32::from(row) + u32::from(number),
        _ => u32::from(row),
    }
}

// The bytes of a row: the prefix too, and STOP's second byte.
// Stays: `as` for the low bytes, which are below 256 by their arms; `u8::try_from` would have an arm that is never taken.
#[tactic(auto, unfolding(crate::specs::Bytes::row_bytes, listing::specs::Forms::text_if))]
pub(crate) fn row_bytes(row: u32) -> ArrayVec<u8, 4>
    ensures value { result.items ≡ row_bytes row }
    ensures few { length result.items ≤ 2 }
{
    let mut code = ArrayVec::new();
    match row {
        STOP => {
            code.push(STOP as u8);
            code.push(0);
        }
        0..256 => code.push(row as u8),
        256..512 => {
            code.push(PREFIX);
            code.push((row - 256) as u8);
        }
        _ => {}
    }
    code
}
