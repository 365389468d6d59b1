// The form of an opcode, by the fields of the grid: x is its top two bits, y the next three, z the low three. The forms are numbered by
// their place in the table.
// Stays: `form_at` of the definition numbers them, and reckons with the numbers (29 + y, 38 + n8 / 64).
#![tactic(auto, unfolding(crate::specs::Forms::forms))]

ghost use Rattle.std.specs.Prelude.{◌≡◌, ◌<◌};
ghost use Rattle.listing.specs.Forms.{first_form, x0_form, load_form, jump_form, call_form, x3_form, unprefixed_form, form_at, form_size};

// The form of data.
pub(crate) const DATA: u8 = 28;

// x 0 and z 0.
fn first(y: u8) -> u8
    ensures { result ≡ first_form y }
{
    match y {
        0 => 0,
        1 => 42,
        2 => 29,
        3 => 30,
        _ => 31,
    }
}

fn x0(y: u8, z: u8) -> u8
    requires { y < 8 }
    ensures { result ≡ x0_form y z }
{
    match z {
        0 => first(y),
        1 => if y % 2 == 0 { 43 } else { 1 },
        2 => 2 + y % 2,
        3 => 4 + y % 2,
        4 => 6,
        5 => 7,
        6 => 32,
        _ => if y < 4 { 9 } else { 6 + y },
    }
}

// x 3 and z 2.
fn load(y: u8) -> u8
    ensures { result ≡ load_form y }
{
    match y {
        4 => 22,
        5 => 45,
        6 => 23,
        7 => 46,
        _ => 44,
    }
}

// x 3 and z 3.
fn jump(y: u8) -> u8
    ensures { result ≡ jump_form y }
{
    match y {
        0 => 47,
        6 => 24,
        7 => 25,
        _ => DATA,
    }
}

// x 3 and z 5.
fn call(y: u8) -> u8
    ensures { result ≡ call_form y }
{
    if y % 2 == 0 {
        return 26;
    }
    if y == 1 { 49 } else { DATA }
}

fn x3(y: u8, z: u8) -> u8
    requires { y < 8 }
    ensures { result ≡ x3_form y z }
{
    match z {
        0 => if y < 4 { 16 } else { 29 + y },
        1 => if y % 2 == 0 { 17 } else { 18 + y / 2 },
        2 => load(y),
        3 => jump(y),
        4 => if y < 4 { 48 } else { DATA },
        5 => call(y),
        6 => 37,
        _ => 27,
    }
}

fn unprefixed(op: u8) -> u8
    ensures { result ≡ unprefixed_form op }
{
    let x = op / 64;
    let y = op / 8 % 8;
    let z = op % 8;
    match x {
        0 => x0(y, z),
        1 => if op == 0x76 { 14 } else { 8 },
        2 => 15,
        _ => x3(y, z),
    }
}

// The form of an opcode and the byte after it.
pub(crate) fn form(op: u8, n8: u8) -> u8
    ensures { result ≡ form_at op n8 }
{
    if op == 0xCB {
        return 38 + n8 / 64;
    }
    unprefixed(op)
}

// How many bytes a form has.
pub(crate) fn size(form: u8) -> u8
    ensures { result ≡ form_size form }
{
    if form < 29 {
        return 1;
    }
    if form < 42 { 2 } else { 3 }
}
