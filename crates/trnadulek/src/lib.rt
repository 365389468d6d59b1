// The core for a host in another language: numbers and lent bytes in, a refusal number out. The live state is a state block, 14
// bytes; a head is the 23 bytes of a saved state, with its block inside. No function asks anything of its caller or keeps anything
// between two calls.
#![tactic(auto)]

mod wording;

ghost use Rattle.std.specs.Prelude.{◌≡◌};
ghost use Rattle.arith.specs.Numbers.{code_in};
ghost use Rattle.assembler.specs.Text.{assemble_of};
ghost use Rattle.insn.specs.Table.{length_of, untaken_of};
ghost use Rattle.listing.specs.Answer.{list_of};
ghost use Rattle.machine.specs.Answers.{Gives};
ghost use Rattle.machine.specs.Told.{number_if};
ghost use Rattle.saved.specs.Answers.{told_load};
ghost use Rattle.trnadulek.specs.Block.{block_loaded, load_block_of, open_block_of, save_block_of, save_block_image_of};
ghost use Rattle.trnadulek.specs.Calls.{StepGives, step_block_of, RunGives, run_block_of, ImageGives, run_image_of, ListGives, AssembleGives};
ghost use Rattle.trnadulek.specs.Sizes.{size_of, library_version};
ghost use Rattle.trnadulek.specs.Wording.{wording_of, tell_of};

use arith::Refusal;
use insn::table;
use machine::{Cpu, LARGEST_BUDGET, MEMORY_SIZE, run};
use saved::{BLOCK_SIZE, HEAD_SIZE, IMAGE_SIZE, block};

// The number of an answer: 0 where it is done.
// Stays: the C interface answers with the number of a refusal, and 0 where there is none.
fn code<T: Copy>(answer: Result<T, Refusal>) -> u8
    ensures { result ≡ code_in answer }
{
    match answer {
        Ok(_) => 0,
        Err(refusal) => u8::from(refusal),
    }
}

fn step(state: &mut [u8; BLOCK_SIZE], memory: &mut [u8], cycles: &mut u8) -> Result<(), Refusal>
    ensures { StepGives (step_block_of state.old memory.old) (code_in result) state.new memory.new cycles.new }
{
    *cycles = 0;
    let cpu = block::read(state)?;
    let taken = run::step(cpu, memory)?;
    *state = block::bytes_of(taken.cpu);
    *cycles = taken.cycles;
    Ok(())
}

// One step of the state in a block. Refusals 9 for its codes, then 1, 2, 3, 4, which change nothing and leave 0 cycles.
#[unsafe(no_mangle)]
pub extern "C" fn trnadulek_step(
    state: &mut [u8; BLOCK_SIZE],
    memory: &mut [u8],
    cycles: &mut u8,
) -> u8
    ensures { StepGives (step_block_of state.old memory.old) result state.new memory.new cycles.new }
{
    code(step(state, memory, cycles))
}

// The number of a run's end.
fn number(refusal: Option<Refusal>) -> u8
    ensures { result ≡ number_if refusal }
{
    refusal.map_or(0, u8::from)
}

// Steps until the budget is met. Refusals 9 for the block's codes, then 1, 2, 5, which change nothing and leave 0 cycles and 0
// steps; 3 or 4 where a step is refused, and then the steps before it stay.
#[unsafe(no_mangle)]
pub extern "C" fn trnadulek_run(
    state: &mut [u8; BLOCK_SIZE],
    memory: &mut [u8],
    budget: u32,
    spent: &mut u32,
    steps: &mut u32,
) -> u8
    ensures { RunGives (run_block_of budget state.old memory.old) result state.new memory.new spent.new steps.new }
{
    match block::read(state) {
        Ok(cpu) => {
            let ran = run::run(cpu, memory, budget);
            *state = block::bytes_of(ran.cpu);
            *spent = ran.spent;
            *steps = ran.steps;
            number(ran.refusal)
        }
        Err(refusal) => {
            *spent = 0;
            *steps = 0;
            u8::from(refusal)
        }
    }
}

// The same of an image where it lies, whose head and memory are always those of one state. Refusals 6, 7, 8, 9, 2, 5, which
// change nothing and leave 0 cycles and 0 steps; 3 or 4 where a step is refused, and then the steps before it stay.
#[unsafe(no_mangle)]
pub extern "C" fn trnadulek_run_image(
    image: &mut [u8],
    budget: u32,
    spent: &mut u32,
    steps: &mut u32,
) -> u8
    ensures { ImageGives (run_image_of budget image.old) result image.new spent.new steps.new }
{
    let cpu = match saved::check_image(image) {
        Ok(cpu) => cpu,
        Err(refusal) => {
            *spent = 0;
            *steps = 0;
            return u8::from(refusal);
        }
    };
    let played = run::run(cpu, &mut image[HEAD_SIZE..], budget);
    let after = played.cpu;
    // The head has its size and F keeps its low bits at 0, so nothing is refused.
    let _ = saved::save_head(after, &mut image[..HEAD_SIZE]);
    *spent = played.spent;
    *steps = played.steps;
    number(played.refusal)
}

// Leaves the block of a state that was loaded, and zeros where it was refused.
fn leave(loaded: Result<Cpu, Refusal>, state: &mut [u8; BLOCK_SIZE]) -> u8
    ensures { Gives (block_loaded (told_load loaded)) result state.new }
{
    match loaded {
        Ok(cpu) => {
            *state = block::bytes_of(cpu);
            0
        }
        Err(refusal) => {
            *state = [0; BLOCK_SIZE];
            u8::from(refusal)
        }
    }
}

// The state block of a head. Refusals 6, 7, 8, 9, 2, which leave a block of zeros.
// Stays: the C interface has a name for a head and one for an image; what both do is `leave`.
#[unsafe(no_mangle)]
pub extern "C" fn trnadulek_load_head(head: &[u8], state: &mut [u8; BLOCK_SIZE]) -> u8
    ensures { Gives (load_block_of head.now) result state.new }
{
    leave(saved::load_head(head), state)
}

fn save_head(state: &[u8; BLOCK_SIZE], head: &mut [u8]) -> Result<(), Refusal>
    ensures { Gives (save_block_of state.now head.old) (code_in result) head.new }
{
    let cpu = block::read(state)?;
    saved::save_head(cpu, head)
}

// The head of a state block. Refusals 9, 6, 2, which change nothing.
// Stays: the C interface has a name for saving a head and one for an image.
#[unsafe(no_mangle)]
pub extern "C" fn trnadulek_save_head(state: &[u8; BLOCK_SIZE], head: &mut [u8]) -> u8
    ensures { Gives (save_block_of state.now head.old) result head.new }
{
    code(save_head(state, head))
}

// The state block of an image, whose memory is its bytes from 23 to the end. Refusals 6, 7, 8, 9, 2, which leave a block of zeros.
#[unsafe(no_mangle)]
pub extern "C" fn trnadulek_open_image(image: &[u8], state: &mut [u8; BLOCK_SIZE]) -> u8
    ensures { Gives (open_block_of image.now) result state.new }
{
    leave(saved::check_image(image), state)
}

fn save_image(state: &[u8; BLOCK_SIZE], memory: &[u8], image: &mut [u8]) -> Result<(), Refusal>
    ensures { Gives (save_block_image_of state.now memory.now image.old) (code_in result) image.new }
{
    let cpu = block::read(state)?;
    saved::save_image(cpu, memory, image)
}

// The image of a state block and a memory. Refusals 9, 6, 1, 2, which change nothing.
#[unsafe(no_mangle)]
pub extern "C" fn trnadulek_save_image(
    state: &[u8; BLOCK_SIZE],
    memory: &[u8],
    image: &mut [u8],
) -> u8
    ensures { Gives (save_block_image_of state.now memory.now image.old) result image.new }
{
    code(save_image(state, memory, image))
}

// The listing of a part whose first byte stands at an address, in the spelling of edition 1, the old one, or 2. Refusals 11 for another
// edition number, then 10 where the output is too short; the output is then unchanged, and the length is 0.
#[unsafe(no_mangle)]
pub extern "C" fn trnadulek_list(
    part: &[u8],
    first: u16,
    edition: u32,
    out: &mut [u8],
    length: &mut usize,
) -> u8
    ensures { ListGives (list_of edition first part.now out.old) result out.new length.new }
{
    let listed = listing::list(part, first, edition, out);
    *length = listed.unwrap_or(0);
    code(listed)
}

// The bytes of lines of spelling, the first of which stands at an address. Refusals, for the first line at fault, whose number from 1 is
// left beside it: 12 a line of no such form, 13 nesting deeper than 16, 14 a number or a value out of range, 10 no room. They leave the
// output as it is and length 0.
#[unsafe(no_mangle)]
pub extern "C" fn trnadulek_assemble(
    text: &[u8],
    first: u16,
    out: &mut [u8],
    line: &mut usize,
    length: &mut usize,
) -> u8
    ensures { AssembleGives (assemble_of first text.now out.old) result out.new line.new length.new }
{
    match assembler::assemble(text, first, out) {
        Ok(assembled) => {
            *line = 0;
            *length = assembled;
            0
        }
        Err(fault) => {
            *line = fault.line;
            *length = 0;
            u8::from(fault.refusal)
        }
    }
}

// The bytes of a row of the opcode table, and 0 for a row that has none.
// Stays: the C interface asks for the length and the cycles of a row by two names.
#[unsafe(no_mangle)]
pub extern "C" fn trnadulek_length(row: u32) -> u8
    ensures { result ≡ length_of row }
{
    table::length(row)
}

// The cycles of a row of the opcode table where no branch is taken.
#[unsafe(no_mangle)]
pub extern "C" fn trnadulek_untaken_cycles(row: u32) -> u8
    ensures { result ≡ untaken_of row }
{
    table::untaken_cycles(row)
}

// The sizes that a host needs: 0 a head, 1 a state block, 2 the memory, 3 an image, 4 the largest budget, 5 the most characters of a
// listing for each byte listed; 0 for any other number.
// Stays: the C interface asks for a size by its number.
#[unsafe(no_mangle)]
pub extern "C" fn trnadulek_size(which: u32) -> u32
    ensures { result ≡ size_of which }
{
    match which {
        0 => HEAD_SIZE as u32,
        1 => BLOCK_SIZE as u32,
        2 => MEMORY_SIZE as u32,
        3 => IMAGE_SIZE as u32,
        4 => LARGEST_BUDGET,
        5 => 19,
        _ => 0,
    }
}

// The version: 10,000 times the first number, 100 times the second, and the third.
#[unsafe(no_mangle)]
pub extern "C" fn trnadulek_version() -> u32
    ensures { result ≡ library_version }
{
    600
}

// The words for a refusal number, written if there is room for all of them. The answer is how many bytes they have.
#[unsafe(no_mangle)]
pub extern "C" fn trnadulek_words(code: u8, out: &mut [u8]) -> usize
    ensures { Gives (tell_of (wording_of code) out.old) result out.new }
{
    wording::tell(code, out)
}
