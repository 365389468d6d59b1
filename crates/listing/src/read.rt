// What a line reads of the bytes that it begins with.
ghost use Rattle.std.specs.Prelude.{◌≡◌};
ghost use Rattle.digits.specs.Digits.{byte_in};
ghost use Rattle.listing.specs.Forms.{fields_of, is_data_by};

use crate::kinds;

// The byte at a place, and 0 past the end.
#[tactic(auto, unfolding(digits::specs::Digits::byte_in))]
pub(crate) fn byte_at(bytes: &[u8], at: usize) -> u8
    ensures { result ≡ byte_in at bytes.now }
{
    bytes.get(at).copied().unwrap_or(0)
}

// The byte whose fields name the operands.
#[tactic(auto, unfolding(crate::specs::Forms::fields_if, crate::specs::Forms::fields_of))]
pub(crate) fn fields(op: u8, n8: u8) -> u8
    ensures { result ≡ fields_of op n8 }
{
    if op == 0xCB { n8 } else { op }
}

// Nothing to list but the byte: no instruction, one that is cut, or $10 with another byte than 0 after it.
#[tactic(auto, unfolding(crate::specs::Forms::is_data_by))]
pub(crate) fn is_data(form: u8, size: usize, left: usize, op: u8, n8: u8) -> bool
    ensures { result ≡ is_data_by form size left op n8 }
{
    form == kinds::DATA || left < size || (op == 0x10 && n8 != 0)
}
