// A text of lines: the bytes of the first, how many all have or which is at fault, and all of them written.
ghost use Rattle.std.specs.Prelude.{◌≡◌, ◌+◌, ◌<◌, ◌^◌, length, position, IfOk, IfErr};
ghost use Rattle.std.specs.Result.{MatchResult};
ghost use Rattle.arith.specs.Numbers.{number_of};
ghost use Rattle.listing.specs.Written.{Writes};
ghost use Rattle.assembler.specs.Text.{outcome_of, Refused};
ghost use Rattle.assembler.specs.Judging.{is_newline, Fits, TakesLine, FaultsLine, WritesAll};

use crate::{Fault, lines};
use arith::{Refusal, words};
use arrayvec::ArrayVec;
use listing::writing::Writer;

const NEWLINE: u8 = b'\n';

// Where the first line ends: at its newline.
#[tactic(auto, unfolding(crate::specs::Judging::is_newline))]
fn line_end(text: &[u8]) -> Option<usize>
    ensures { result ≡ position is_newline text.now }
{
    text.iter().position(|&c| c == NEWLINE)
}

// What is left of a text: its address, and the number of its first line.
#[derive(Clone, Copy)]
struct Left<'a> {
    text: &'a [u8],
    address: u16,
    line: usize,
}

impl<'a> Left<'a> {
    fn new(text: &'a [u8], first: u16) -> Left<'a>
        ensures { result ≡ record { text = text.entry; address = first; line = 1 } }
    {
        Left {
            text,
            address: first,
            line: 1,
        }
    }

    // The bytes of the first line, and what is left behind it. Without its newline it is of no form.
    fn line(self) -> Result<(ArrayVec<u8, 4>, Left<'a>), Fault>
        requires { self.line + length self.text.now < 2 ^ 64 }
        ensures taken { IfOk result (λ r. TakesLine self.entry r.0.items r.1) }
        ensures fault { IfErr result (λ f. FaultsLine self.entry f) }
    {
        let Some(end) = line_end(self.text) else {
            return Err(self.fault(Refusal::Form));
        };
        // Stays: tried as `map_err` and `?`, the proof did not close: it has no name for what the closure gives of a refusal.
        let bytes = match lines::judge(&self.text[..end], self.address) {
            Ok(bytes) => bytes,
            Err(refusal) => return Err(self.fault(refusal)),
        };
        let left = Left {
            text: &self.text[end + 1..],
            // Stays: no plainer, for a line has at most 4 bytes, and `try_from` would ask for an arm that is never taken.
            address: words::further(bytes.len() as u16, self.address),
            line: self.line + 1,
        };
        Ok((bytes, left))
    }

    fn fault(self, refusal: Refusal) -> Fault
        ensures refusal { result.refusal ≡ refusal }
        ensures line { result.line ≡ self.entry.line }
    {
        Fault {
            refusal,
            line: self.line,
        }
    }
}

// How many bytes the whole text has, or the first line at fault.
// Stays: no plainer, for `?` and `else` end the walks here and in `write` at a line at fault, and where there is no room the line of `left`
// is named; an iterator would hand out each line's number and a result beside it.
pub(crate) fn measure(text: &[u8], first: u16, room: usize) -> Result<usize, Fault>
    ensures { MatchResult result (λ n. Fits (outcome_of first text.now room) n) (λ f. outcome_of first text.now room ≡ Refused (number_of f.refusal) f.line) }
{
    let mut left = Left::new(text, first);
    let mut length = 0;
    while !left.text.is_empty() {
        let (bytes, behind) = left.line()?;
        if room - length < bytes.len() {
            return Err(left.fault(Refusal::Room));
        }
        length += bytes.len();
        left = behind;
    }
    Ok(length)
}

fn write_bytes(bytes: &[u8], writer: &mut Writer<'_>)
    ensures { Writes bytes.now writer.old writer.new }
{
    for &b in bytes {
        writer.push(b);
    }
}

// The bytes of a text without a fault.
pub(crate) fn write(text: &[u8], first: u16, writer: &mut Writer<'_>)
    ensures written { WritesAll first text.now writer.old writer.new }
    ensures same { writer.new.out.ghost_name ≡ writer.old.out.ghost_name }
{
    let mut left = Left::new(text, first);
    while !left.text.is_empty() {
        let Ok((bytes, behind)) = left.line() else {
            return;
        };
        write_bytes(bytes.as_slice(), writer);
        left = behind;
    }
}
