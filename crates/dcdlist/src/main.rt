// Reads one body from standard input and writes its listing to standard output (document 01, "Listing").
//
// The body ends where the input does, however many reads it takes; what comes after its first 1,501 bytes is not read, since a
// body of more than 1,500 is refused whatever it holds. Where a read fails nothing is written; where a write fails the
// program ends.
#![tactic(auto)]

ghost use Rattle.std.specs.Prelude.{◌≤◌, length, IfOk};

use notices::LISTING_BYTES;
use std::io;
use std::io::{Read, Write};

// Reads to the end of the input, or until the buffer is full: how many bytes.
fn read_input<R: Read>(from: &mut R, buffer: &mut [u8]) -> io::Result<usize>
    ensures { IfOk result (λ n. n ≤ length buffer.new) }
{
    let mut n = 0;
    // Kept: no count of turns, since a read says how many bytes came.
    while n < buffer.len() {
        let more = from.read(&mut buffer[n..])?;
        if more == 0 {
            break;
        }
        n += more;
    }
    Ok(n)
}

// Writes the listing of a body.
fn write_listing<W: Write>(to: &mut W, body: &[u8]) {
    let mut text = [0u8; LISTING_BYTES];
    if let Ok(n) = bodies::list_body(body, &mut text) {
        let _ = to.write_all(&text[..n]);
    }
}

fn main(rt: HostRuntime) {
    let mut body = [0u8; 1501];
    if let Ok(n) = read_input(&mut rt.stdin(), &mut body) {
        write_listing(&mut rt.stdout(), &body[..n]);
    }
}
