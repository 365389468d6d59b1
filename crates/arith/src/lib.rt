// Bytes, words and flags: what the instructions reckon with. Nothing here knows the processor's state.
#![tactic(auto)]

pub mod bytes;
pub mod decimal;
pub mod flags;
mod refused;
pub mod rotates;
pub mod words;

// A value and the F that comes with it.
#[derive(Clone, Copy, PartialEq, Eq, Debug)]
pub struct Flagged<T> {
    pub value: T,
    pub flags: u8,
}

pub type Byte = Flagged<u8>;

pub type Word = Flagged<u16>;

// The flags, by their names in F.
#[derive(Clone, Copy, PartialEq, Eq, Debug)]
pub enum Flag {
    Z,
    N,
    H,
    C,
}

// The eight operations on A and an operand.
#[derive(Clone, Copy, PartialEq, Eq, Debug)]
pub enum Alu {
    Add,
    Adc,
    Sub,
    Sbc,
    And,
    Xor,
    Or,
    Cp,
}

// The eight rotates and shifts.
#[derive(Clone, Copy, PartialEq, Eq, Debug)]
pub enum Rot {
    Rlc,
    Rrc,
    Rl,
    Rr,
    Sla,
    Sra,
    Swap,
    Srl,
}

// What is refused, in the order of the numbers.
#[derive(Clone, Copy, PartialEq, Eq, Debug)]
pub enum Refusal {
    MemoryLength,
    LowFlags,
    Stopped,
    Undefined,
    Budget,
    Length,
    Version,
    BlockLength,
    Codes,
    Room,
    Edition,
    Form,
    Nesting,
    Range,
}
