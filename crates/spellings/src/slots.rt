// What the constant of a row may be, by the fields of the grid: x is an opcode's top two bits, y the next three, z the low three.
ghost use Rattle.std.specs.Prelude.{◌≡◌};
ghost use Rattle.spellings.specs.Slots.{low_slot, stacked_slot, high_slot, slot_by};

use crate::Slot;

// x 0.
#[tactic(auto, unfolding(crate::specs::Slots::slot_if, crate::specs::Slots::low_slot))]
fn low(y: u16, z: u16) -> Slot
    ensures { result ≡ low_slot y z }
{
    match z {
        6 => Slot::N8,
        1 if y % 2 == 0 => Slot::N16,
        0 if y == 1 => Slot::N16,
        0 if 3 <= y => Slot::Target,
        _ => Slot::Bare,
    }
}

// x 3 and z 0: RET with a condition, LDH and the sums with SP.
#[tactic(auto, unfolding(crate::specs::Slots::slot_if, crate::specs::Slots::stacked_slot))]
fn stacked(y: u16) -> Slot
    ensures { result ≡ stacked_slot y }
{
    if y < 4 {
        return Slot::Bare;
    }
    if y % 2 == 0 { Slot::High } else { Slot::E8 }
}

// x 3.
#[tactic(auto, unfolding(crate::specs::Slots::slot_if, crate::specs::Slots::high_slot))]
fn high(y: u16, z: u16) -> Slot
    ensures { result ≡ high_slot y z }
{
    match z {
        0 => stacked(y),
        2 if y < 4 || y % 2 == 1 => Slot::N16,
        3 if y == 0 => Slot::N16,
        4 if y < 4 => Slot::N16,
        5 if y == 1 => Slot::N16,
        6 => Slot::N8,
        7 => Slot::Vec,
        _ => Slot::Bare,
    }
}

// The slot of a row.
#[tactic(auto, unfolding(crate::specs::Slots::slot_if, crate::specs::Slots::slot_by))]
pub(crate) fn slot(row: u16) -> Slot
    ensures { result ≡ slot_by row }
{
    let y = row / 8 % 8;
    let z = row % 8;
    match row {
        0..64 => low(y, z),
        192..256 => high(y, z),
        320..512 => Slot::U3,
        512 => Slot::N8,
        _ => Slot::Bare,
    }
}
