// The interrupt switch and the modes: EI and HALT.
ghost use Rattle.std.specs.Prelude.{◌≡◌};
ghost use Rattle.machine.specs.Execute.{halted_of};
ghost use Rattle.machine.specs.Modes.{armed_of, settled_ime};
ghost use Rattle.machine.specs.State.{with_ime};

use crate::{Cpu, Ime, MEMORY_SIZE, Mode, memory};

// EI: Off becomes Arming.
#[tactic(auto, unfolding(crate::specs::Modes::armed_of))]
fn armed(ime: Ime) -> Ime
    ensures { result ≡ armed_of ime }
{
    match ime {
        Ime::Off | Ime::Arming => Ime::Arming,
        Ime::On => Ime::On,
    }
}

// IME at the end of an instruction that leaves it alone: Arming has become On.
#[tactic(auto, unfolding(crate::specs::Modes::settled_ime))]
pub(crate) fn settled(ime: Ime) -> Ime
    ensures { result ≡ settled_ime ime ime }
{
    match ime {
        Ime::Off => Ime::Off,
        Ime::Arming | Ime::On => Ime::On,
    }
}

impl Cpu {
    pub(crate) fn arm(self) -> Cpu
        ensures { result ≡ with_ime (armed_of self.ime) self }
    {
        self.with_ime(armed(self.ime))
    }

    // HALT, read from the address own. With a request pending it does not halt: with IME Off the byte after it is read twice, and
    // right after EI the handler returns to it.
    pub(crate) fn halt(self, own: u16, mem: &[u8; MEMORY_SIZE]) -> Cpu
        ensures { result ≡ halted_of own self mem.now }
    {
        if memory::pending(mem) == 0 {
            return self.with_mode(Mode::Halted);
        }
        match self.ime {
            Ime::Off => self.with_mode(Mode::Repeat),
            Ime::Arming => self.ready(own, Ime::On),
            Ime::On => self.with_mode(Mode::Halted),
        }
    }
}
