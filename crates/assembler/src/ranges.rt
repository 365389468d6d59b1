// The ranges of values, and the number that a value is where it stands.
ghost use Rattle.std.specs.Prelude.{◌≡◌};
ghost use Rattle.assembler.specs.Ranges.{number_in, reached};
ghost use Rattle.assembler.specs.Judging.{within, word_in};

use arith::words;
use spellings::Slot;

// Whether a value is in the range of what stands there.
#[tactic(auto, unfolding(crate::specs::Ranges::highest, crate::specs::Ranges::lowest))]
pub(crate) fn holds(slot: Slot, value: i32) -> bool
    ensures { result ≡ within slot value }
{
    match slot {
        Slot::Bare => value == 0,
        Slot::N8 => (-128..=255).contains(&value),
        Slot::N16 | Slot::High | Slot::Target => (-32_768..=65_535).contains(&value),
        Slot::E8 => (-128..=127).contains(&value),
        Slot::U3 => (0..=7).contains(&value),
        Slot::Vec => (0..=56).contains(&value),
    }
}

// A value below 0 counts from 65,536 down.
#[tactic(auto, unfolding(crate::specs::Judging::word_in))]
pub(crate) fn word(value: i32) -> u16
    ensures { result ≡ word_in value }
{
    // Stays: no plainer, for what is left of a division by 65,536 fits, and `try_from` would ask for an arm that is never taken.
    value.rem_euclid(65_536) as u16
}

// The number that a word is, where the next instruction stands at an address.
#[tactic(auto, unfolding(crate::specs::Ranges::number_in))]
pub(crate) fn number(next: u16, slot: Slot, w: u16) -> u16
    ensures { result ≡ number_in next slot w }
{
    if slot == Slot::Target {
        words::back(next, w)
    } else {
        w
    }
}

// Whether LDH, JR or RST reaches it.
#[tactic(auto, unfolding(crate::specs::Ranges::reached))]
pub(crate) fn reached(slot: Slot, n: u16) -> bool
    ensures { result ≡ reached slot n }
{
    match slot {
        Slot::High => 0xFF00 <= n,
        Slot::Target => n <= 127 || 65408 <= n,
        Slot::Vec => n % 8 == 0,
        Slot::Bare | Slot::N8 | Slot::N16 | Slot::E8 | Slot::U3 => true,
    }
}
