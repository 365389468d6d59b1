// The dispatch of an interrupt.
#![tactic(auto, unfolding(crate::specs::Interrupts::lowest_set, crate::specs::Interrupts::lowest_of, crate::specs::Interrupts::dispatch_due_of, crate::specs::Interrupts::chosen_if, crate::specs::Interrupts::chosen_of, crate::specs::Interrupts::vectored_of))]

ghost use Rattle.std.specs.Prelude.{◌≡◌, ◌≤◌};
ghost use Rattle.machine.specs.Answers.{Gives, making};
ghost use Rattle.machine.specs.Interrupts.{lowest_of, dispatch_due_of, chosen_of, vectored_of, dispatch_of};

use crate::{Cpu, Ime, MEMORY_SIZE, Mode, memory};
use arith::{bytes, words};

// The lowest of the five requests that is set.
fn lowest(p: u8) -> u8
    ensures { (result ≡ lowest_of p) × (result ≤ 4) }
{
    (0..4).find(|&k| bytes::bit(k, p)).unwrap_or(4)
}

#[tactic(auto, using(crate::proofs::Same::on_same), unfolding(crate::specs::Interrupts::dispatch_due_of))]
pub(crate) fn dispatch_due(ime: Ime, p: u8) -> bool
    ensures { result ≡ dispatch_due_of ime p }
{
    ime == Ime::On && p != 0
}

// The request to serve, by IE and IF as they are: its bit is cleared, and the answer is its vector; 0 where there is none.
fn choose(mem: &mut [u8; MEMORY_SIZE]) -> u16
    ensures { Gives (making (chosen_of mem.old) mem.old) result mem.new }
{
    let p = memory::pending(mem);
    if p == 0 {
        return 0x0000;
    }
    let k = lowest(p);
    let requests = memory::read(mem, 0xFF0F);
    memory::store(mem, 0xFF0F, bytes::reset(k, requests));
    0x40 + 8 * u16::from(k)
}

impl Cpu {
    // SP below the word that was pushed, PC at a vector, IME Off, mode Running.
    fn vector(self, to: u16) -> Cpu
        ensures { result ≡ vectored_of to self }
    {
        Cpu {
            sp: words::back(2, self.sp),
            pc: to,
            ime: Ime::Off,
            mode: Mode::Running,
            ..self
        }
    }

    // The choice stands between the two bytes of PC: where the high byte lands on IE or IF, it has a say in it.
    pub(crate) fn dispatch(self, mem: &mut [u8; MEMORY_SIZE]) -> Cpu
        ensures { Gives (making (dispatch_of self mem.old) mem.old) result mem.new }
    {
        let sp = self.sp;
        let pc = self.pc;
        memory::store(mem, words::back(1, sp), words::high(pc));
        let to = choose(mem);
        memory::store(mem, words::back(2, sp), words::low(pc));
        self.vector(to)
    }
}
