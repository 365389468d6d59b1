// A head, byte by byte: made from a state, and read.
ghost use Rattle.std.specs.Prelude.{◌≡◌, ◌+◌, ◌≤◌, length};
ghost use Rattle.arith.specs.Numbers.{code_in};
ghost use Rattle.arith.specs.Refusals.{code_of};
ghost use Rattle.digits.specs.Digits.{number_in};
ghost use Rattle.saved.specs.Answers.{told_load, loaded_by, load_of};
ghost use Rattle.saved.specs.Head.{head_size, head_of, block_in};
ghost use Rattle.saved.specs.Refusals.{flags_refusals, content_refusals};

use crate::{BLOCK_SIZE, HEAD_SIZE, block};
use arith::Refusal;
use digits::numbers;
use machine::{Cpu, MEMORY_SIZE};

// The version and the two lengths that a head holds.
const VERSION: u8 = 1;

const BLOCK_LENGTH: u32 = BLOCK_SIZE as u32;

const MEMORY_LENGTH: u32 = MEMORY_SIZE as u32;

// The head of a state.
pub(crate) fn bytes_of(cpu: Cpu) -> [u8; HEAD_SIZE]
    ensures { result ≡ head_of cpu }
{
    let mut head = [0; HEAD_SIZE];
    head[0] = VERSION;
    head[1..5].copy_from_slice(&BLOCK_LENGTH.to_be_bytes());
    head[5..19].copy_from_slice(&block::bytes_of(cpu));
    head[19..].copy_from_slice(&MEMORY_LENGTH.to_be_bytes());
    head
}

// The block in a head.
fn block_in(head: &[u8]) -> [u8; BLOCK_SIZE]
    requires { head_size ≤ length head.now }
    ensures { result ≡ block_in head.now }
{
    let mut block = [0; BLOCK_SIZE];
    block.copy_from_slice(&head[5..19]);
    block
}

// The number that stands at a place.
// Stays: four reads. `u32::from_be_bytes(bytes[at..at + 4].try_into()..)` is no plainer: it has an arm that is never taken.
fn number_at(bytes: &[u8], at: usize) -> u32
    requires { at + 4 ≤ length bytes.now }
    ensures { result ≡ number_in 4 at bytes.now }
{
    numbers::number(bytes[at], bytes[at + 1], bytes[at + 2], bytes[at + 3])
}

// Refusal 2.
pub(crate) fn flags_fit(f: u8) -> Result<(), Refusal>
    ensures { code_in result ≡ code_of (flags_refusals f) }
{
    if f % 16 == 0 {
        Ok(())
    } else {
        Err(Refusal::LowFlags)
    }
}

// The state in a head or an image of the right length. Refusals 7, 8, 9 and 2.
fn content(head: &[u8]) -> Result<Cpu, Refusal>
    requires { head_size ≤ length head.now }
    ensures { told_load result ≡ loaded_by (code_of (content_refusals head.now)) head.now }
{
    if head[0] != VERSION {
        return Err(Refusal::Version);
    }
    if number_at(head, 1) != BLOCK_LENGTH || number_at(head, 19) != MEMORY_LENGTH {
        return Err(Refusal::BlockLength);
    }
    let cpu = block::read(&block_in(head))?;
    flags_fit(cpu.f)?;
    Ok(cpu)
}

// The state in a head or an image that is to have so many bytes.
pub(crate) fn load(bytes: &[u8], size: usize) -> Result<Cpu, Refusal>
    requires { head_size ≤ size }
    ensures { told_load result ≡ load_of size bytes.now }
{
    if bytes.len() != size {
        return Err(Refusal::Length);
    }
    content(bytes)
}
