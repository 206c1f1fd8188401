// Captured frames on standard input, a line of capital hexadecimal each; the fields of each by name on standard output.
#![tactic(auto)]

use hexadecimal::Line;
use refusal::Refusal;
use std::io::{self, Read, Write};

// Prints the text at a buffer's start, if there is any. It is called for each byte of the input, of which most print
// nothing: as a function of its own, or with a call that writes nothing, it takes the program up to twice as long.
// (`player::print` does so above the crates of a rehearsal, of which this program needs none.)
#[inline]
fn print<W: Write>(to: &mut W, out: &[u8], written: Result<usize, Refusal>) -> io::Result<()> {
    match written {
        Ok(n) if 0 < n => to.write_all(text::part(out, 0, n)),
        _ => Ok(()),
    }
}

// Prints each line that ends in a piece of the input, and answers the line so far.
fn feed<W: Write>(
    to: &mut W,
    line: Line,
    input: &[u8],
    frame: &mut [u8],
    out: &mut [u8],
) -> io::Result<Line> {
    let mut at = line;
    for c in input {
        let fed = listing::feed(at, *c, frame, out);
        print(to, out, fed.written)?;
        at = fed.line;
    }
    Ok(at)
}

// Reads the input to its end. A proved loop ends by a count, here one that no run uses up.
fn read_all<R: Read, W: Write>(
    from: &mut R,
    to: &mut W,
    input: &mut [u8],
    frame: &mut [u8],
    out: &mut [u8],
) -> io::Result<Line> {
    let mut line = hexadecimal::start();
    for _ in 0..u64::MAX {
        let n = from.read(input)?;
        if n == 0 {
            return Ok(line);
        }
        line = feed(to, line, &input[..n], frame, out)?;
    }
    Ok(line)
}

fn main(rt: HostRuntime) -> io::Result<()> {
    let mut to = io::writer(&rt);
    let mut input = [0u8; 65536];
    let mut frame = [0u8; 1501];
    let mut out = [0u8; 3200];
    let line = read_all(&mut rt.reader(), &mut to, &mut input, &mut frame, &mut out)?;
    let last = listing::close(line, &frame, &mut out);
    print(&mut to, &out, last)
}
