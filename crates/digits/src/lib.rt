// Digits in any base: numbers of bytes, and the glyphs that numbers are written with.
#![tactic(auto)]

pub mod glyphs;
pub mod numbers;
