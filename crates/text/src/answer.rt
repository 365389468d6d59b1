// What the program answers to its input.
ghost use Rattle.std.specs.Prelude.{◌≡◌};
ghost use Rattle.arith.specs.Numbers.{number_of};
ghost use Rattle.machine.specs.Answers.{Gives};
ghost use Rattle.machine.specs.Told.{number_if, told_run};
ghost use Rattle.text.specs.Written.{written};
ghost use Rattle.text.specs.Answer.{refusal_line, registers_line, run_line, is_bare, printed, ran_text, answer_of};

use crate::Text;
use arith::{Refusal, words};
use digits::numbers;
use machine::{Cpu, MEMORY_SIZE, Ran, run};
use saved::{HEAD_SIZE, codes};

// The bytes of the budget and the head that lead the input, and of the input.
pub const LEAD_SIZE: usize = 4 + HEAD_SIZE;

const INPUT_SIZE: usize = LEAD_SIZE + MEMORY_SIZE;

// A text that begins with the header line.
fn header() -> Text
    ensures { result ≡ written Rattle.text.specs.Answer.header Rattle.text.specs.Written.empty_text }
{
    Text::new().append(b"code spent steps AF BC DE HL SP PC ime mode\n")
}

// The code alone.
fn refusal(refused: Refusal) -> Text
    ensures { result ≡ printed (refusal_line (number_of refused)) }
{
    header().decimal(u32::from(u8::from(refused))).push(b'\n')
}

impl Text {
    // AF to PC.
    fn registers(self, s: Cpu) -> Text
        ensures { result ≡ written (registers_line s) self }
    {
        self.word(words::word(s.a, s.f))
            .word(words::word(s.b, s.c))
            .word(words::word(s.d, s.e))
            .word(words::word(s.h, s.l))
            .word(s.sp)
            .word(s.pc)
    }
}

// The number of a run's end.
// Stays: one line of std's `map_or`, which the C interface has too; no plainer in a crate that both stand on.
fn code(refusal: Option<Refusal>) -> u8
    ensures { result ≡ number_if refusal }
{
    refusal.map_or(0, u8::from)
}

fn line(r: Ran) -> Text
    ensures { result ≡ printed (run_line (told_run r)) }
{
    header()
        .number(u32::from(code(r.refusal)))
        .number(r.spent)
        .number(r.steps)
        .registers(r.cpu)
        .number(u32::from(codes::ime_code(r.cpu.ime)))
        .decimal(u32::from(codes::mode_code(r.cpu.mode)))
        .push(b'\n')
}

// What a run is refused with before its first step is printed alone.
fn is_bare(refused: Refusal) -> bool
    ensures { result ≡ is_bare (number_of refused) }
{
    matches!(
        refused,
        Refusal::MemoryLength | Refusal::LowFlags | Refusal::Budget
    )
}

fn ran(r: Ran) -> Text
    ensures { result ≡ ran_text (told_run r) }
{
    match r.refusal {
        Some(refused) if is_bare(refused) => refusal(refused),
        _ => line(r),
    }
}

// The two lines for an input of `got` bytes: its lead is the budget and a head, and its memory has been read into `mem`.
pub fn answer(got: usize, lead: &[u8], mem: &mut [u8]) -> Text
    ensures { Gives (answer_of got lead.now mem.old) result mem.new }
{
    if got != INPUT_SIZE || lead.len() != LEAD_SIZE {
        return refusal(Refusal::Length);
    }
    let budget = numbers::number(lead[0], lead[1], lead[2], lead[3]);
    match saved::load_head(&lead[4..]) {
        Ok(cpu) => ran(run::run(cpu, mem, budget)),
        Err(refused) => refusal(refused),
    }
}
