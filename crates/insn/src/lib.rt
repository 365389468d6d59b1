// Instructions: what each byte of a program means. Nothing here knows the processor's state or the memory.
#![tactic(auto)]

ghost use Rattle.std.specs.Prelude.{◌≡◌};

use arith::{Alu, Rot};

pub mod decode;
mod places;
mod prefixed;
mod rows;
pub mod table;

// The registers of eight bits that an operand can be.
#[derive(Clone, Copy, PartialEq, Eq, Debug)]
pub enum Register {
    B,
    C,
    D,
    E,
    H,
    L,
    A,
}

// An operand: a register, the byte at HL, or a constant carried with it.
#[derive(Clone, Copy, PartialEq, Eq, Debug)]
pub enum Operand {
    Reg(Register),
    AtHl,
    Const(u8),
}

// A place that a byte can be put into: a register or the byte at HL.
#[derive(Clone, Copy, PartialEq, Eq, Debug)]
pub enum Place {
    B,
    C,
    D,
    E,
    H,
    L,
    AtHl,
    A,
}

// The pairs that count and add.
#[derive(Clone, Copy, PartialEq, Eq, Debug)]
pub enum Pair {
    Bc,
    De,
    Hl,
    Sp,
}

// The pairs that go on the stack.
#[derive(Clone, Copy, PartialEq, Eq, Debug)]
pub enum Stacked {
    Bc,
    De,
    Hl,
    Af,
}

// The pairs that A is stored and loaded through; the last two move HL on or back.
#[derive(Clone, Copy, PartialEq, Eq, Debug)]
pub enum Pointer {
    Bc,
    De,
    Hli,
    Hld,
}

// The conditions of jumps, calls and returns.
#[derive(Clone, Copy, PartialEq, Eq, Debug)]
pub enum Cond {
    Nz,
    Z,
    Nc,
    C,
}

// The instructions, in the grid's order; the names say what each does where the reference's are short. What an instruction
// changes is a place, what it only reads an operand.
#[derive(Clone, Copy, PartialEq, Eq, Debug)]
pub enum Insn {
    Nop,
    StoreSp(u16),
    Stop,
    Jr(u8),
    JrIf(Cond, u8),
    LoadPair(u16, Pair),
    AddHl(Pair),
    StoreAt(Pointer),
    LoadAt(Pointer),
    IncPair(Pair),
    DecPair(Pair),
    Inc(Place),
    Dec(Place),
    Load(Place, Operand),
    RotateA(Rot),
    Daa,
    Cpl,
    Scf,
    Ccf,
    Halt,
    Math(Alu, Operand),
    RetIf(Cond),
    StoreHigh(u8),
    AddSp(u8),
    LoadHigh(u8),
    LoadHlSp(u8),
    Pop(Stacked),
    Ret,
    Reti,
    JumpHl,
    LoadSpHl,
    JumpIf(Cond, u16),
    StoreHighC,
    StoreTo(u16),
    LoadHighC,
    LoadFrom(u16),
    Jump(u16),
    Rotate(Rot, Place),
    Bit(u8, Place),
    Res(u8, Place),
    Set(u8, Place),
    Di,
    Ei,
    CallIf(Cond, u16),
    Push(Stacked),
    Call(u16),
    Rst(u8),
    Undefined,
}

// An instruction with the number of bytes after its first, and its cycles where no branch is taken.
// An undefined one has no cycles.
#[derive(Clone, Copy, PartialEq, Eq, Debug)]
pub struct Decoded {
    pub insn: Insn,
    pub more: u16,
    pub cycles: u8,
}

impl Decoded {
    pub(crate) fn new(insn: Insn, more: u16, cycles: u8) -> Decoded
        ensures { result ≡ record { insn = insn; more = more; cycles = cycles } }
    {
        Decoded { insn, more, cycles }
    }
}
