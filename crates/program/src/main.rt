// Document 01's program: a budget, a head and a memory from standard input, two lines to standard output. Where the input cannot be
// read or the output not be written, a line on standard error says so.
#![tactic(auto)]

ghost use Rattle.std.specs.Prelude.{◌≤◌, length};

use std::io::{self, ErrorKind, Read, Stdin, Stdout, Write};
use text::Text;
use text::answer::{self, LEAD_SIZE};

// Reads until buf is full, the input ends or a read fails, and says how many bytes it put at the start of buf.
// Stays: `read_exact` does not say how many bytes it read, and what follows the end of an input that goes on counts with them.
fn read_full(input: &mut Stdin, buf: &mut [u8]) -> usize
    ensures { result ≤ length buf.new }
{
    let mut done = 0;
    for _ in 0..u64::MAX {
        if done >= buf.len() {
            break;
        }
        match input.read(&mut buf[done..]) {
            Ok(0) => break,
            Ok(n) => done += n,
            Err(error) if error.kind() == ErrorKind::Interrupted => {}
            Err(_) => break,
        }
    }
    done
}

// The text, which fits whole (the law `two_lines`), to standard output.
fn print(output: &mut Stdout, text: &Text) -> io::Result<()> {
    let len = text.len.min(text.bytes.len());
    output.write_all(&text.bytes[..len])
}

fn main(rt: HostRuntime) {
    let mut lead = [0u8; LEAD_SIZE];
    let mut memory = [0u8; 65536];
    // One byte more than the input has, to see that it is too long.
    let mut past = [0u8; 1];
    let mut input = rt.stdin();
    let first = read_full(&mut input, &mut lead);
    let second = read_full(&mut input, &mut memory);
    let third = match input.read_exact(&mut past) {
        Ok(()) => 1,
        Err(error) => {
            if error.kind() != ErrorKind::UnexpectedEof {
                let _ = rt
                    .stderr()
                    .write_all(b"program: the input cannot be read\n");
            }
            0
        }
    };
    let text = answer::answer(first + second + third, &lead, &mut memory);
    if print(&mut rt.stdout(), &text).is_err() {
        let _ = rt
            .stderr()
            .write_all(b"program: the output cannot be written\n");
    }
}
