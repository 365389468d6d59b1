// The program's input and output: from the bytes it reads to the two lines it prints.
#![tactic(auto)]

pub mod answer;
mod writing;

// A text has room for so many bytes.
const ROOM: usize = 160;

// A text that grows: its bytes, and how many there are.
// Stays: `answer_unique` says that the promise determines the whole answer; what an ArrayVec holds past its length none can.
#[derive(Clone, Copy, PartialEq, Eq, Debug)]
pub struct Text {
    pub bytes: [u8; ROOM],
    pub len: usize,
}
