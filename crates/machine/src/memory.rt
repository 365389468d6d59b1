// The memory: one read and one store that every access goes through, and two bytes at a time.
// Stays: an index is of usize, and the cast of an address loses nothing; `usize::from(at)` is no plainer.
#![tactic(auto, unfolding(crate::specs::Memory::byte_at, crate::specs::Memory::stored, crate::specs::Memory::word_at, crate::specs::Memory::word_stores, crate::specs::Interrupts::pending_of))]

ghost use Rattle.std.specs.Prelude.{◌≡◌};
ghost use Rattle.machine.specs.Interrupts.{pending_of};
ghost use Rattle.machine.specs.Memory.{byte_at, stored, word_at, word_stores, made};

use crate::MEMORY_SIZE;
use arith::words;

pub(crate) fn read(mem: &[u8; MEMORY_SIZE], at: u16) -> u8
    ensures { result ≡ byte_at mem.now at }
{
    mem[at as usize]
}

pub(crate) fn store(mem: &mut [u8; MEMORY_SIZE], at: u16, v: u8)
    ensures { mem.new ≡ stored mem.old at v }
{
    mem[at as usize] = v;
}

// A word, low byte first.
pub(crate) fn read_word(mem: &[u8; MEMORY_SIZE], at: u16) -> u16
    ensures { result ≡ word_at mem.now at }
{
    let lo = read(mem, at);
    let hi = read(mem, words::further(1, at));
    words::word(hi, lo)
}

pub(crate) fn store_word(mem: &mut [u8; MEMORY_SIZE], at: u16, w: u16)
    ensures { mem.new ≡ made (word_stores at w) mem.old }
{
    store(mem, at, words::low(w));
    store(mem, words::further(1, at), words::high(w));
}

// The requests that are both raised and enabled.
pub(crate) fn pending(mem: &[u8; MEMORY_SIZE]) -> u8
    ensures { result ≡ pending_of mem.now }
{
    (read(mem, 0xFFFF) & read(mem, 0xFF0F)) % 32
}
