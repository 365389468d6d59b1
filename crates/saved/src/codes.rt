// The codes of the interrupt switch and of the mode.
ghost use Rattle.std.specs.Prelude.{◌≡◌};
ghost use Rattle.saved.specs.Codes.{ime_code, ime_at, mode_code, mode_at};

use machine::{Ime, Mode};

// Stays: tried, `impl From<Ime> for u8` is refused outside `machine`, which declares Ime and knows nothing of the saved form.
pub fn ime_code(ime: Ime) -> u8
    ensures { result ≡ ime_code ime }
{
    match ime {
        Ime::Off => 0,
        Ime::Arming => 1,
        Ime::On => 2,
    }
}

// Stays: `block::state_of` promises a state for every block, so no TryFrom; a code above 2 is refused by `block::read`.
pub(crate) fn ime_at(code: u8) -> Ime
    ensures { result ≡ ime_at code }
{
    match code {
        0 => Ime::Off,
        1 => Ime::Arming,
        _ => Ime::On,
    }
}

// Stays: as `ime_code`.
pub fn mode_code(mode: Mode) -> u8
    ensures { result ≡ mode_code mode }
{
    match mode {
        Mode::Running => 0,
        Mode::Repeat => 1,
        Mode::Halted => 2,
        Mode::Stopped => 3,
    }
}

// Stays: as `ime_at`; a code above 3 is refused by `block::read`.
pub(crate) fn mode_at(code: u8) -> Mode
    ensures { result ≡ mode_at code }
{
    match code {
        0 => Mode::Running,
        1 => Mode::Repeat,
        2 => Mode::Halted,
        _ => Mode::Stopped,
    }
}
