// One step of a machine whose memory has its length and whose F is valid.
ghost use Rattle.std.specs.Prelude.{Some, ◌≡◌, ◌+◌};
ghost use Rattle.machine.specs.Answers.{Gives};
ghost use Rattle.machine.specs.Interrupts.{pending_of};
ghost use Rattle.machine.specs.State.{with_ime};
ghost use Rattle.machine.specs.Step.{past_first, next_rest, ready_of, SettledBy, instruction_step, due_step};
ghost use Rattle.machine.specs.Told.{told_due};

use crate::{Cpu, Ime, MEMORY_SIZE, Mode, Stepped, interrupts, memory, modes};
use arith::{Refusal, words};
use insn::decode;

// HALT's opcode.
const HALT: u8 = 0x76;

// Where the bytes after the first lie: in Repeat the first does not move PC.
#[tactic(auto, unfolding(crate::specs::Step::past_first))]
fn past_first(mode: Mode, pc: u16) -> u16
    ensures { result ≡ past_first mode pc }
{
    match mode {
        Mode::Repeat => pc,
        Mode::Running | Mode::Halted | Mode::Stopped => words::further(1, pc),
    }
}

impl Cpu {
    // Field by field, or every step pays for it.
    fn refuse(self, refusal: Refusal) -> Stepped
        ensures { result ≡ record { refusal = Some refusal; cycles = 0; cpu = self } }
    {
        Stepped {
            refusal: Some(refusal),
            cycles: 0,
            cpu: Cpu { ..self },
        }
    }

    // At the start of an instruction: PC at the address after, the mode Running.
    pub(crate) fn ready(self, after: u16, ime: Ime) -> Cpu
        ensures { result ≡ with_ime ime (ready_of after self) }
    {
        Cpu {
            pc: after,
            ime,
            mode: Mode::Running,
            ..self
        }
    }

    // IME for the instruction at PC to start with, such that nothing is left to settle at its end: Arming has become On before it. But
    // HALT with a request pending looks at Arming, and settles it.
    fn settled_before(self, p: u8, mem: &[u8; MEMORY_SIZE]) -> Ime
        requires p_value { p ≡ pending_of mem.now }
        ensures { SettledBy result self mem.now }
    {
        let pending = p != 0;
        let halts = memory::read(mem, self.pc) == HALT;
        if pending && halts {
            self.ime
        } else {
            modes::settled(self.ime)
        }
    }

    // Rule 3: the instruction at PC, its other bytes from rest on, or the refusal of an undefined one. IME is such that nothing is left
    // to settle at its end.
    fn instruction_step(self, rest: u16, ime: Ime, mem: &mut [u8; MEMORY_SIZE]) -> Stepped
        requires rest_value { rest ≡ next_rest self }
        requires settled_by { SettledBy ime self mem.old }
        ensures { Gives (instruction_step self mem.old) (told_due result) mem.new }
    {
        let op = memory::read(mem, self.pc);
        let n8 = memory::read(mem, rest);
        let n16 = memory::read_word(mem, rest);
        let d = decode::decode(op, n8, n16);
        // Stays: the scope has it so, an undefined opcode is the shape that has no cycles (`shape_of Undefined`).
        if d.cycles == 0 {
            return self.refuse(Refusal::Undefined);
        }
        let done = self
            .ready(words::further(d.more, rest), ime)
            .execute(self.pc, d.insn, mem);
        Stepped {
            refusal: None,
            cycles: d.cycles + done.extra,
            cpu: done.cpu,
        }
    }

    // The idle step, refusal 3, the dispatch or the instruction.
    pub(crate) fn due_step(self, mem: &mut [u8; MEMORY_SIZE]) -> Stepped
        ensures { Gives (due_step self mem.old) (told_due result) mem.new }
    {
        let mut ime = self.ime;
        let mut rest = words::further(1, self.pc);
        if self.mode != Mode::Running || ime != Ime::Off {
            let p = memory::pending(mem);
            if self.mode == Mode::Halted && p == 0 {
                return Stepped {
                    refusal: None,
                    cycles: 1,
                    cpu: self,
                };
            }
            if self.mode == Mode::Stopped {
                return self.refuse(Refusal::Stopped);
            }
            if interrupts::dispatch_due(ime, p) {
                return Stepped {
                    refusal: None,
                    cycles: 5,
                    cpu: self.dispatch(mem),
                };
            }
            rest = past_first(self.mode, self.pc);
            ime = self.settled_before(p, mem);
        }
        self.instruction_step(rest, ime, mem)
    }
}
