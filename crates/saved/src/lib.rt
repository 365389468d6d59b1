// The saved state: a head of 23 bytes, and an image of 65,559, which is a head and the memory after it.
#![tactic(auto)]

pub mod block;
pub mod codes;
mod head;

ghost use Rattle.std.specs.Prelude.{◌≡◌};
ghost use Rattle.arith.specs.Numbers.{code_in};
ghost use Rattle.machine.specs.Answers.{Gives};
ghost use Rattle.saved.specs.Refusals.{save_head_code, save_image_code};
ghost use Rattle.saved.specs.Answers.{told_load, load_head_of, open_of, MemoryOf, save_head_of, save_image_of};

use arith::Refusal;
use machine::{Cpu, MEMORY_SIZE};

// How many bytes a state block has, a head with it inside, and an image.
pub const BLOCK_SIZE: usize = 14;

pub const HEAD_SIZE: usize = 23;

pub const IMAGE_SIZE: usize = HEAD_SIZE + MEMORY_SIZE;

// Loads a head alone. Refusals 6, 7, 8, 9 and 2.
pub fn load_head(head: &[u8]) -> Result<Cpu, Refusal>
    ensures { told_load result ≡ load_head_of head.now }
{
    head::load(head, HEAD_SIZE)
}

// Opens a whole image: the refusal or the state. Its memory is what `memory_of` returns.
pub fn check_image(image: &[u8]) -> Result<Cpu, Refusal>
    ensures { told_load result ≡ (open_of image.now).out }
{
    head::load(image, IMAGE_SIZE)
}

// The memory of an image, which is a part of it, and an empty part where the image is refused.
pub fn memory_of(image: &[u8]) -> &[u8]
    ensures { MemoryOf image.entry result }
{
    match check_image(image) {
        Ok(_) => &image[HEAD_SIZE..],
        Err(_) => &image[..0],
    }
}

// Stays: beside `image_fits`, which has refusal 1 between these two: one function for both would be told whether there is a memory.
fn head_fits(cpu: Cpu, head: &[u8]) -> Result<(), Refusal>
    ensures { code_in result ≡ save_head_code cpu head.now }
{
    if head.len() != HEAD_SIZE {
        return Err(Refusal::Length);
    }
    head::flags_fit(cpu.f)
}

// Writes the head of a state. Refusals 6 and 2, which change nothing.
pub fn save_head(cpu: Cpu, head: &mut [u8]) -> Result<(), Refusal>
    ensures { Gives (save_head_of cpu head.old) (code_in result) head.new }
{
    head_fits(cpu, head)?;
    head.copy_from_slice(&head::bytes_of(cpu));
    Ok(())
}

fn image_fits(cpu: Cpu, mem: &[u8], image: &[u8]) -> Result<(), Refusal>
    ensures { code_in result ≡ save_image_code cpu mem.now image.now }
{
    if image.len() != IMAGE_SIZE {
        return Err(Refusal::Length);
    }
    if mem.len() != MEMORY_SIZE {
        return Err(Refusal::MemoryLength);
    }
    head::flags_fit(cpu.f)
}

// Writes an image: the head of a state, and the memory. Refusals 6, 1 and 2, which change nothing.
pub fn save_image(cpu: Cpu, mem: &[u8], image: &mut [u8]) -> Result<(), Refusal>
    ensures { Gives (save_image_of cpu mem.now image.old) (code_in result) image.new }
{
    image_fits(cpu, mem, image)?;
    image[..HEAD_SIZE].copy_from_slice(&head::bytes_of(cpu));
    image[HEAD_SIZE..].copy_from_slice(mem);
    Ok(())
}
