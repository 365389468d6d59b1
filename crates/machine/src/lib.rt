// The machine: the processor's state by value, the memory lent, one step and a budgeted run.
#![tactic(auto)]

mod execute;
mod interrupts;
mod jumps;
mod loads;
mod math;
mod memory;
mod modes;
mod operands;
mod pairs;
pub mod run;
mod stack;
mod state;
mod step;

use arith::Refusal;

// The memory has exactly so many bytes.
pub const MEMORY_SIZE: usize = 65536;

// A budget is at most so many cycles.
pub const LARGEST_BUDGET: u32 = 1048576;

// The interrupt switch: Off 0, Arming 1, On 2.
#[derive(Clone, Copy, PartialEq, Eq, Debug)]
pub enum Ime {
    Off,
    Arming,
    On,
}

// Running 0, Repeat 1, Halted 2, Stopped 3.
#[derive(Clone, Copy, PartialEq, Eq, Debug)]
pub enum Mode {
    Running,
    Repeat,
    Halted,
    Stopped,
}

// The processor's state. An operation takes it by value and hands the next state back.
#[derive(Clone, Copy, PartialEq, Eq, Debug)]
pub struct Cpu {
    pub a: u8,
    pub f: u8,
    pub b: u8,
    pub c: u8,
    pub d: u8,
    pub e: u8,
    pub h: u8,
    pub l: u8,
    pub sp: u16,
    pub pc: u16,
    pub ime: Ime,
    pub mode: Mode,
}

// An instruction that is done: the state after it, and the cycles that a taken branch costs more.
#[derive(Clone, Copy, PartialEq, Eq, Debug)]
pub struct Done {
    pub cpu: Cpu,
    pub extra: u8,
}

// A step that was taken: its cycles and the next state.
#[derive(Clone, Copy, PartialEq, Eq, Debug)]
pub struct Taken {
    pub cycles: u8,
    pub cpu: Cpu,
}

// A step inside a run: what refused it, its cycles and the next state.
// Stays: a Result that holds the state costs a run 7 instructions a step, since the state then goes through memory.
#[derive(Clone, Copy)]
pub(crate) struct Stepped {
    pub refusal: Option<Refusal>,
    pub cycles: u8,
    pub cpu: Cpu,
}

// A run: what ended it before its budget was met, the cycles spent, the steps taken and the state at its end.
#[derive(Clone, Copy, PartialEq, Eq, Debug)]
pub struct Ran {
    pub refusal: Option<Refusal>,
    pub spent: u32,
    pub steps: u32,
    pub cpu: Cpu,
}
