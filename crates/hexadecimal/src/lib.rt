// Bytes in capital hexadecimal, two digits each: written, and read.
#![tactic(auto)]

ghost use Rattle.std.specs.Prelude.{◌≡◌, ◌++◌, ◌+◌, ◌*◌, length, ltb};
ghost use Rattle.buffer.specs.Lay.{Came, written_of};
ghost use Rattle.text.specs.Text.{placed, Added};
ghost use Rattle.hexadecimal.specs.Hexadecimal.{pairs, address, hexadecimal, is_hexadecimal, decoded};
ghost use Rattle.hexadecimal.specs.Line.{fresh, next, kept, is_foul, opened, run};

use refusal::Refusal;

// ---- Written, into lent buffers from a place on: `text` says why.

// Adds bytes to a text.
pub fn pairs(s: &[u8], out: &mut [u8], at: usize) -> usize
    ensures { Added (pairs s.now) at out.old result out.new }
{
    if out.len() < at {
        return out.len() + 1;
    }
    if (out.len() - at) / 2 < s.len() {
        return out.len() + 1;
    }
    let mut to = at;
    for b in s {
        let two = digits::pair(*b);
        to = text::add(&two, out, to);
    }
    to
}

// Adds an address of eight digits to a text.
pub fn address(n: usize, out: &mut [u8], at: usize) -> usize
    ensures { Added (address n) at out.old result out.new }
{
    let d = digits::eight(n);
    text::add(&d, out, at)
}

// Whether a line's parts take more than the room there is.
fn lacks(head: usize, bytes: usize, tail: usize, room: usize) -> bool
    ensures { result ≡ ltb room (head + (2 * bytes + tail)) }
{
    room < head || room - head < tail || (room - head - tail) / 2 < bytes
}

// A text, bytes, a text. `Refusal::Buffer` for a buffer that is too short.
pub fn print(head: &[u8], s: &[u8], tail: &[u8], out: &mut [u8]) -> Result<usize, Refusal>
    ensures { Came (placed (head.now ++ (pairs s.now ++ tail.now)) out.old) (written_of result) out.new }
{
    if lacks(head.len(), s.len(), tail.len(), out.len()) {
        return Err(Refusal::Buffer);
    }
    let a = text::add(head, out, 0);
    let b = pairs(s, out, a);
    let end = text::add(tail, out, b);
    Ok(end)
}

// ---- Read, character by character.

// A line so far. Its bytes lie in a buffer that is lent at each step, since there is no heap.
#[derive(Clone, Copy)]
pub struct Line {
    // The bytes that the buffer keeps.
    pub length: usize,
    // A digit that waits for the second one of its byte.
    pub high: Option<u8>,
    // Some character is no digit.
    pub foul: bool,
    // There is a character.
    pub begun: bool,
}

// A line before its first character.
pub fn start() -> Line
    ensures { result ≡ fresh }
{
    Line {
        length: 0,
        high: None,
        foul: false,
        begun: false,
    }
}

// One more character of a line. The buffer keeps as many of the first bytes as it has room for.
pub fn step(line: Line, c: u8, buffer: &mut [u8]) -> Line
    ensures { (result ≡ next (length buffer.old) line c)
        × (buffer.new ≡ kept line c buffer.old) }
{
    let line = Line {
        begun: true,
        ..line
    };
    let Some(low) = digits::nibble(c) else {
        return Line { foul: true, ..line };
    };
    let Some(high) = line.high else {
        return Line {
            high: Some(low),
            ..line
        };
    };
    let at = line.length;
    if buffer.len() <= at {
        return Line { high: None, ..line };
    }
    buffer[at] = high % 16 * 16 + low;
    Line {
        length: at + 1,
        high: None,
        ..line
    }
}

// A line that ends here is no hexadecimal: a character is no digit, or a digit waits for the second one.
pub fn is_foul(line: Line) -> bool
    ensures { result ≡ is_foul line }
{
    line.foul || line.high.is_some()
}

// All characters of a line.
fn run(s: &[u8], buffer: &mut [u8]) -> Line
    ensures { (result ≡ (run s.now (opened buffer.old)).line)
        × (buffer.new ≡ (run s.now (opened buffer.old)).buffer) }
{
    let mut line = start();
    for c in s {
        line = step(line, *c, buffer);
    }
    line
}

// An even number of digits, and nothing else.
pub fn is_hexadecimal(s: &[u8]) -> bool
    ensures { result ≡ is_hexadecimal (hexadecimal s.now) }
{
    let mut none = [0u8; 0];
    let line = run(s, &mut none);
    !is_foul(line)
}

// The bytes that digits spell, into a lent buffer: `Refusal::Setting` for what is no hexadecimal, then `Refusal::Buffer`
// for a buffer that is too short. A refusal leaves the buffer as it was; bytes past the written ones stay.
pub fn decode(s: &[u8], out: &mut [u8]) -> Result<usize, Refusal>
    ensures { Came (decoded (hexadecimal s.now) out.old) (written_of result) out.new }
{
    if !is_hexadecimal(s) {
        return Err(Refusal::Setting);
    }
    if out.len() < s.len() / 2 {
        return Err(Refusal::Buffer);
    }
    let line = run(s, out);
    Ok(line.length)
}
