// The wording of each refusal number: that of the scope's table.
ghost use Rattle.std.specs.Prelude.{◌≡◌};
ghost use Rattle.machine.specs.Answers.{Gives};
ghost use Rattle.trnadulek.specs.Wording.{wording_of, tell_of};

// The words for a number, and none for a number that the table does not have.
// Stays: the C interface asks for words by any number, 0 and those past the refusals too.
#[tactic(auto, using(crate::proofs::Unnamed::wordless), unfolding(crate::specs::Wording::wordings, crate::specs::Wording::wording_of, digits::specs::Ascii::ascii))]
fn words(code: u8) -> &'static [u8]
    ensures { result.now ≡ wording_of code }
{
    match code {
        0 => b"done",
        1 => b"memory length is not 65,536",
        2 => b"low four bits of F are not 0",
        3 => b"mode is Stopped when a step is due",
        4 => b"the step would run an undefined opcode",
        5 => b"budget above 1,048,576",
        6 => b"head, image or output slice of wrong length",
        7 => b"version byte is not 1",
        8 => b"a block length is not 14, or not 65,536",
        9 => b"IME code above 2, or mode code above 3",
        10 => b"output too short",
        11 => b"edition number is neither 1 nor 2",
        12 => b"a line of no such form",
        13 => b"nesting deeper than 16",
        14 => b"number or value out of range",
        _ => b"",
    }
}

// Writes the wording of a number to the front of a slice that has room for it, and answers how many bytes it has.
pub(crate) fn tell(code: u8, out: &mut [u8]) -> usize
    ensures { Gives (tell_of (wording_of code) out.old) result out.new }
{
    let wording = words(code);
    if wording.len() <= out.len() {
        out[..wording.len()].copy_from_slice(wording);
    }
    wording.len()
}
