// The state block: A F B C D E H L, SP, PC, the codes of IME and mode.
ghost use Rattle.std.specs.Prelude.{◌≡◌};
ghost use Rattle.saved.specs.Answers.{told_load, read_of};
ghost use Rattle.saved.specs.Block.{block_of, has_codes, held_in};

use crate::{BLOCK_SIZE, codes};
use arith::{Refusal, words};
use machine::Cpu;

// The block of a state.
pub fn bytes_of(cpu: Cpu) -> [u8; BLOCK_SIZE]
    ensures { result ≡ block_of cpu }
{
    let [sp_high, sp_low] = cpu.sp.to_be_bytes();
    let [pc_high, pc_low] = cpu.pc.to_be_bytes();
    let ime_code = codes::ime_code(cpu.ime);
    let mode_code = codes::mode_code(cpu.mode);
    [
        cpu.a, cpu.f, cpu.b, cpu.c, cpu.d, cpu.e, cpu.h, cpu.l, sp_high, sp_low, pc_high, pc_low,
        ime_code, mode_code,
    ]
}

// The codes of IME and mode stand for something.
pub fn has_codes(block: &[u8; BLOCK_SIZE]) -> bool
    ensures { result ≡ has_codes block.now }
{
    block[12] <= 2 && block[13] <= 3
}

// The state that a block holds.
pub fn state_of(block: &[u8; BLOCK_SIZE]) -> Cpu
    ensures { result ≡ held_in block.now }
{
    let &[
        a,
        f,
        b,
        c,
        d,
        e,
        h,
        l,
        sp_high,
        sp_low,
        pc_high,
        pc_low,
        ime,
        mode,
    ] = block;
    Cpu {
        a,
        f,
        b,
        c,
        d,
        e,
        h,
        l,
        sp: words::word(sp_high, sp_low),
        pc: words::word(pc_high, pc_low),
        ime: codes::ime_at(ime),
        mode: codes::mode_at(mode),
    }
}

// The state of a block whose codes stand for something. Refusal 9.
pub fn read(block: &[u8; BLOCK_SIZE]) -> Result<Cpu, Refusal>
    ensures { told_load result ≡ read_of block.now }
{
    if has_codes(block) {
        Ok(state_of(block))
    } else {
        Err(Refusal::Codes)
    }
}
