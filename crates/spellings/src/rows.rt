// The row of an outline by its name and its operands, each by its number in a table.
ghost use Rattle.std.specs.Prelude.{◌≡◌, ◌<◌};
ghost use Rattle.spellings.specs.Rows.{no_row, unless};
ghost use Rattle.spellings.specs.Lookup.{bare_in, name_in, operand_in, alone_row, condition_of, stacked_of, number_row, jump_row, step_row, stack_row, rotate_row, single_row, add_row, math_row, bit_row, place_load_row, store_row, word_load_row, load_row, moved_row, high_row, branch_row, double_row};

use crate::places;

// Names that stand alone, names that operands follow, and operands. The numbers below are their places.
#[rattlefmt::skip]
const BARES: [&str; 15] = [
    "RLCA", "RRCA", "RLA", "RRA", "DAA", "CPL", "SCF", "CCF", "RET", "RETI", "DI", "EI", "NOP", "STOP", "HALT",
];

#[rattlefmt::skip]
const NAMES: [&str; 34] = [
    "ADD", "ADC", "SUB", "SBC", "AND", "XOR", "OR", "CP", "BIT", "RES", "SET", "LD", "LDI", "LDD", "LDH", "LDIO", "JR", "CALL", "JP",
    "RET", "RST", "DB", "RLC", "RRC", "RL", "RR", "SLA", "SRA", "SWAP", "SRL", "INC", "DEC", "POP", "PUSH",
];

#[rattlefmt::skip]
const OPERANDS: [&str; 24] = [
    "B", "C", "D", "E", "H", "L", "[HL]", "A", "BC", "DE", "HL", "SP", "AF", "[BC]", "[DE]", "[HLI]", "[HLD]", "NZ", "Z", "NC", "[C]",
    "$", "[$]", "SP+$",
];

// Operands: the eight places, from B to A; four pairs, from BC to SP, and AF; four pointers, from [BC] on; the conditions from NZ on,
// where the fourth is C, as the register; and constants.
// Stays: numbers, and not an enum, since a row is reckoned from them, as in `0x80 + 8 * k + b`.
const C: u16 = 1;

const AT_HL: u16 = 6;

const A: u16 = 7;

const BC: u16 = 8;

const HL: u16 = 10;

const SP: u16 = 11;

const AF: u16 = 12;

const AT_BC: u16 = 13;

const NZ: u16 = 17;

const AT_C: u16 = 20;

const NUMBER: u16 = 21;

const AT_NUMBER: u16 = 22;

const SP_NUMBER: u16 = 23;

// Names: the eight operations on A, and then the first of each group.
// Stays: numbers, and not an enum, since a row is reckoned from a name's place in its group, as in `256 + 8 * k + a`.
const BIT: u16 = 8;

const LD: u16 = 11;

const LDI: u16 = 12;

const LDH: u16 = 14;

const JR: u16 = 16;

const CALL: u16 = 17;

const JP: u16 = 18;

const RET: u16 = 19;

const RST: u16 = 20;

const DB: u16 = 21;

const RLC: u16 = 22;

const INC: u16 = 30;

const POP: u16 = 32;

const PUSH: u16 = 33;

// A name that stands alone, by its place.
// Stays: a function for each table, since each has a definition of its own, `bare_in` and its like; `place` is what they share.
pub(crate) fn bare(text: &[u8]) -> Option<u16>
    ensures { result ≡ unless 15 (bare_in text.now) }
{
    places::place(&BARES, text)
}

// A name that operands follow.
pub(crate) fn name(text: &[u8]) -> Option<u16>
    ensures { result ≡ unless 34 (name_in text.now) }
{
    places::place(&NAMES, text)
}

pub(crate) fn operand(text: &[u8]) -> Option<u16>
    ensures { result ≡ unless 24 (operand_in text.now) }
{
    places::place(&OPERANDS, text)
}

// The row of a name that stands alone.
#[tactic(auto, unfolding(crate::specs::Lookup::alone_row, listing::specs::Forms::number_if))]
pub(crate) fn alone(k: u16) -> Option<u16>
    ensures { result ≡ unless no_row (alone_row k) }
{
    match k {
        0..8 => Some(0x07 + 8 * k),
        8..10 => Some(0xC9 + 16 * (k - 8)),
        10..12 => Some(0xF3 + 8 * (k - 10)),
        12..14 => Some(16 * (k - 12)),
        14 => Some(0x76),
        _ => None,
    }
}

// A condition by an operand.
#[tactic(auto, unfolding(crate::specs::Lookup::condition_of, listing::specs::Forms::number_if))]
fn condition(a: u16) -> Option<u16>
    ensures { result ≡ unless 4 (condition_of a) }
{
    match a {
        C => Some(3),
        NZ..AT_C => Some(a - NZ),
        _ => None,
    }
}

// A pair on the stack.
#[tactic(auto, unfolding(crate::specs::Lookup::stacked_of, listing::specs::Forms::number_if))]
fn stacked(a: u16) -> Option<u16>
    ensures { result ≡ unless 4 (stacked_of a) }
{
    match a {
        AF => Some(3),
        BC..SP => Some(a - BC),
        _ => None,
    }
}

// A name with a constant: JR, CALL, JP, RST and DB.
#[tactic(auto, unfolding(crate::specs::Lookup::number_row, listing::specs::Forms::number_if))]
fn number(name: u16) -> Option<u16>
    ensures { result ≡ unless no_row (number_row name) }
{
    match name {
        JR => Some(0x18),
        CALL => Some(0xCD),
        JP => Some(0xC3),
        RST => Some(0xC7),
        DB => Some(512),
        _ => None,
    }
}

// JP HL, RET with a condition, and a name with a constant.
#[tactic(auto, unfolding(crate::specs::Lookup::jump_row, crate::specs::Lookup::condition_of, listing::specs::Forms::number_if))]
fn jump(name: u16, a: u16) -> Option<u16>
    ensures { result ≡ unless no_row (jump_row name a) }
{
    match (name, a) {
        (_, NUMBER) => number(name),
        (JP, HL) => Some(0xE9),
        (RET, _) => Some(0xC0 + 8 * condition(a)?),
        _ => None,
    }
}

// INC and DEC.
// Stays: `k < 2` here, in `stack` and in `moved`, since each `k` is a place in a group of its own: no value has it in common.
#[tactic(auto, unfolding(crate::specs::Lookup::step_row, listing::specs::Forms::number_if))]
fn step(k: u16, a: u16) -> Option<u16>
    requires { k < 2 }
    ensures { result ≡ unless no_row (step_row k a) }
{
    match a {
        0..BC => Some(0x04 + k + 8 * a),
        BC..AF => Some(0x03 + 8 * k + 16 * (a - BC)),
        _ => None,
    }
}

// POP and PUSH.
#[tactic(auto, unfolding(crate::specs::Lookup::stack_row, crate::specs::Lookup::stacked_of, listing::specs::Forms::number_if))]
fn stack(k: u16, a: u16) -> Option<u16>
    requires { k < 2 }
    ensures { result ≡ unless no_row (stack_row k a) }
{
    Some(0xC1 + 4 * k + 16 * stacked(a)?)
}

// The rotates.
#[tactic(auto, unfolding(crate::specs::Lookup::rotate_row, listing::specs::Forms::number_if))]
fn rotate(k: u16, a: u16) -> Option<u16>
    requires { k < 8 }
    ensures { result ≡ unless no_row (rotate_row k a) }
{
    if a < BC { Some(256 + 8 * k + a) } else { None }
}

// The row of a name and an operand.
#[tactic(auto, unfolding(crate::specs::Lookup::single_row, listing::specs::Forms::number_if))]
pub(crate) fn single(name: u16, a: u16) -> Option<u16>
    ensures { result ≡ unless no_row (single_row name a) }
{
    match name {
        0..RLC => jump(name, a),
        RLC..INC => rotate(name - RLC, a),
        INC..POP => step(name - INC, a),
        POP..=PUSH => stack(name - POP, a),
        _ => None,
    }
}

// ADD with a pair, or with SP.
#[tactic(auto, unfolding(crate::specs::Lookup::add_row, listing::specs::Forms::number_if))]
fn add(a: u16, b: u16) -> Option<u16>
    ensures { result ≡ unless no_row (add_row a b) }
{
    match (a, b) {
        (HL, BC..AF) => Some(0x09 + 16 * (b - BC)),
        (SP, NUMBER) => Some(0xE8),
        _ => None,
    }
}

// The eight operations on A.
#[tactic(auto, unfolding(crate::specs::Lookup::math_row, listing::specs::Forms::number_if))]
fn math(k: u16, a: u16, b: u16) -> Option<u16>
    requires { k < 8 }
    ensures { result ≡ unless no_row (math_row k a b) }
{
    match (k, a, b) {
        (_, A, 0..BC) => Some(0x80 + 8 * k + b),
        (_, A, NUMBER) => Some(0xC6 + 8 * k),
        (_, A, _) => None,
        (0, _, _) => add(a, b),
        _ => None,
    }
}

// BIT, RES and SET.
#[tactic(auto, unfolding(crate::specs::Lookup::bit_row, listing::specs::Forms::number_if))]
fn bit(k: u16, a: u16, b: u16) -> Option<u16>
    requires { k < 3 }
    ensures { result ≡ unless no_row (bit_row k a b) }
{
    match (a, b) {
        (NUMBER, 0..BC) => Some(320 + 64 * k + b),
        _ => None,
    }
}

// LD from a place or a constant to a place, and by a pointer to A.
#[tactic(auto, unfolding(crate::specs::Lookup::place_load_row, listing::specs::Forms::number_if))]
fn place_load(a: u16, b: u16) -> Option<u16>
    requires { a < 8 }
    ensures { result ≡ unless no_row (place_load_row a b) }
{
    match (a, b) {
        (AT_HL, AT_HL) => None,
        (_, 0..BC) => Some(0x40 + 8 * a + b),
        (_, NUMBER) => Some(0x06 + 8 * a),
        (A, AT_BC..NZ) => Some(0x0A + 16 * (b - AT_BC)),
        (A, AT_NUMBER) => Some(0xFA),
        _ => None,
    }
}

// LD from A by a pointer or to an address.
#[tactic(auto, unfolding(crate::specs::Lookup::store_row, listing::specs::Forms::number_if))]
fn store(a: u16) -> Option<u16>
    ensures { result ≡ unless no_row (store_row a) }
{
    match a {
        AT_BC..NZ => Some(0x02 + 16 * (a - AT_BC)),
        AT_NUMBER => Some(0xEA),
        _ => None,
    }
}

// LD with a pair.
#[tactic(auto, unfolding(crate::specs::Lookup::word_load_row, listing::specs::Forms::number_if))]
fn word_load(a: u16, b: u16) -> Option<u16>
    ensures { result ≡ unless no_row (word_load_row a b) }
{
    match (a, b) {
        (BC..AF, NUMBER) => Some(0x01 + 16 * (a - BC)),
        (AT_NUMBER, SP) => Some(0x08),
        (HL, SP_NUMBER) => Some(0xF8),
        (SP, HL) => Some(0xF9),
        _ => None,
    }
}

#[tactic(auto, unfolding(crate::specs::Lookup::load_row, listing::specs::Forms::number_if))]
fn load(a: u16, b: u16) -> Option<u16>
    ensures { result ≡ unless no_row (load_row a b) }
{
    match (a, b) {
        (0..BC, _) => place_load(a, b),
        (_, A) => store(a),
        _ => word_load(a, b),
    }
}

// LDI and LDD.
#[tactic(auto, unfolding(crate::specs::Lookup::moved_row, listing::specs::Forms::number_if))]
fn moved(k: u16, a: u16, b: u16) -> Option<u16>
    requires { k < 2 }
    ensures { result ≡ unless no_row (moved_row k a b) }
{
    match (a, b) {
        (AT_HL, A) => Some(0x22 + 16 * k),
        (A, AT_HL) => Some(0x2A + 16 * k),
        _ => None,
    }
}

// LDH and LDIO.
#[tactic(auto, unfolding(crate::specs::Lookup::high_row, listing::specs::Forms::number_if))]
fn high(a: u16, b: u16) -> Option<u16>
    ensures { result ≡ unless no_row (high_row a b) }
{
    match (a, b) {
        (AT_NUMBER, A) => Some(0xE0),
        (A, AT_NUMBER) => Some(0xF0),
        (AT_C, A) => Some(0xE2),
        (A, AT_C) => Some(0xF2),
        _ => None,
    }
}

// JR, CALL and JP with a condition.
#[tactic(auto, unfolding(crate::specs::Lookup::branch_row, crate::specs::Lookup::condition_of, listing::specs::Forms::number_if))]
fn branch(name: u16, a: u16, b: u16) -> Option<u16>
    ensures { result ≡ unless no_row (branch_row name a b) }
{
    let c = condition(a)?;
    match (name, b) {
        (JR, NUMBER) => Some(0x20 + 8 * c),
        (CALL, NUMBER) => Some(0xC4 + 8 * c),
        (JP, NUMBER) => Some(0xC2 + 8 * c),
        _ => None,
    }
}

// The row of a name and two operands.
#[tactic(auto, unfolding(crate::specs::Lookup::double_row, listing::specs::Forms::number_if))]
pub(crate) fn double(name: u16, a: u16, b: u16) -> Option<u16>
    ensures { result ≡ unless no_row (double_row name a b) }
{
    match name {
        0..BIT => math(name, a, b),
        BIT..LD => bit(name - BIT, a, b),
        LD => load(a, b),
        LDI..LDH => moved(name - LDI, a, b),
        LDH..JR => high(a, b),
        _ => branch(name, a, b),
    }
}
