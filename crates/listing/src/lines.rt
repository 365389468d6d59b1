// The lines of a part, one after the other: what each reads, the length of all, and all of them written.
ghost use Rattle.std.specs.Prelude.{◌≡◌, ◌<◌, length};
ghost use Rattle.std.specs.Iterator.{YieldsFirstBy, item_count};
ghost use Rattle.listing.specs.Forms.{measured_of};
ghost use Rattle.listing.specs.Left.{line_in, line_next, lines_left, text_left, Puts, Wide};
ghost use Rattle.listing.specs.Lines.{line_text};
ghost use Rattle.listing.specs.Written.{Writes};

use crate::table::Table;
use crate::writing::Writer;
use crate::{Edition, Operands, Reading, kinds, read};
use arith::{Refusal, words};

const SPACE: u8 = b' ';

const NEWLINE: u8 = b'\n';

// What is left of a part: the bytes, the address of the first, and what spells them.
#[derive(Clone, Copy)]
pub(crate) struct Lines<'a> {
    table: Table<'a>,
    edition: Edition,
    rest: &'a [u8],
    address: u16,
}

impl Reading<'_> {
    // Its text, by a writer. A writer of its own keeps its place in a register.
    fn write(&self, writer: &mut Writer<'_>)
        ensures { Writes (line_text (line_in self.now)) writer.old writer.new }
    {
        let mut own = Writer {
            out: &mut *writer.out,
            at: writer.at,
        };
        own.word(self.address);
        own.push(SPACE);
        own.bytes(self.bytes);
        own.push(SPACE);
        self.operands.marks(self.form, &mut own);
        own.push(NEWLINE);
        writer.at = own.at;
    }
}

impl<'a> Lines<'a> {
    pub(crate) fn new(table: Table<'a>, edition: Edition, part: &'a [u8], first: u16) -> Lines<'a>
        ensures { result ≡ record { table = table.entry; edition = edition; rest = part.entry; address = first } }
    {
        Lines {
            table,
            edition,
            rest: part,
            address: first,
        }
    }

    // What the line reads that the rest begins with; there must be one.
    fn first(&self) -> Reading<'a>
        requires { 0 < length self.now.rest.now }
        ensures { line_in result ≡ line_next self.now }
    {
        let bytes = self.rest;
        let op = read::byte_at(bytes, 0);
        let n8 = read::byte_at(bytes, 1);
        let form = kinds::form(op, n8);
        let size = kinds::size(form);
        if read::is_data(form, usize::from(size), bytes.len(), op, n8) {
            return Reading {
                address: self.address,
                bytes: &bytes[..1],
                form: self.table.form(kinds::DATA),
                operands: Operands {
                    edition: self.edition,
                    op: 0,
                    n8: op,
                    n16: 0,
                    next: 0,
                },
            };
        }
        Reading {
            address: self.address,
            bytes: &bytes[..usize::from(size)],
            form: self.table.form(form),
            operands: Operands {
                edition: self.edition,
                op: read::fields(op, n8),
                n8,
                n16: words::word(read::byte_at(bytes, 2), n8),
                next: words::further(u16::from(size), self.address),
            },
        }
    }

    // The text of the first line, by a writer, and on behind it; there must be one. Both walks call it and nothing else, so what is read of
    // a line stays in registers.
    fn put(&mut self, writer: &mut Writer<'_>)
        requires { 0 < length self.old.rest.now }
        ensures { Puts self.old self.new writer.old writer.new }
    {
        if let Some(reading) = self.next() {
            reading.write(writer);
        }
    }

    // How long it is, tried where there is room for any.
    fn width(&mut self) -> usize
        requires { 0 < length self.old.rest.now }
        ensures { Wide self.old self.new result }
    {
        let mut room = [0u8; 26];
        let mut writer = Writer {
            out: &mut room,
            at: 0,
        };
        self.put(&mut writer);
        writer.at
    }

    // The length of the whole text, where there is room for it.
    pub(crate) fn measure(mut self, room: usize) -> Result<usize, Refusal>
        ensures { result ≡ measured_of (length (text_left self.entry)) room }
    {
        let mut length = 0;
        while !self.rest.is_empty() {
            let wide = self.width();
            if room - length < wide {
                return Err(Refusal::Room);
            }
            length += wide;
        }
        Ok(length)
    }

    // The whole text, by a writer.
    pub(crate) fn write(mut self, writer: &mut Writer<'_>)
        ensures { Writes (text_left self.entry) writer.old writer.new }
    {
        while !self.rest.is_empty() {
            self.put(writer);
        }
    }
}

impl<'a> Iterator for Lines<'a> {
    type Item = Reading<'a>;

    ghost next_gives = { YieldsFirstBy line_in lines_left };

    ghost remaining = { item_count lines_left };

    fn next(&mut self) -> Option<Reading<'a>> {
        if self.rest.is_empty() {
            return None;
        }
        let reading = self.first();
        let count = reading.bytes.len();
        self.rest = &self.rest[count..];
        // Stays: `as`, since at most 3 is known to the proof, and `try_from` would ask for an arm that is never taken.
        self.address = words::further(count as u16, self.address);
        Some(reading)
    }
}
