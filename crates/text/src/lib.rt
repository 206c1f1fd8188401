// Texts in lent buffers: a part of one, the place of a byte in one, one laid whole, and one added behind what stands there.
// Lines are printed by these and not by Display: a text that does not fit leaves the buffer as it was (`placed`, `Added`),
// where a writer over the buffer would lay its beginning.
#![tactic(auto)]

ghost use Rattle.std.specs.Prelude.{◌≡◌, ◌+◌, ◌≤◌, length, take, drop, position, eqb};
ghost use Rattle.buffer.specs.Lay.{Came, written_of};
ghost use Rattle.text.specs.Text.{placed, Added};
ghost use Rattle.text.specs.Find.{index_of, slice};

use refusal::Refusal;

// A part of some bytes, cut at their end: a length that came beside a buffer, as a `Result` or in a struct that is copied,
// needs no proof there that it is within.
pub fn part(s: &[u8], from: usize, length: usize) -> &[u8]
    ensures { result.now ≡ take length (drop from s.now) }
{
    let from = from.min(s.len());
    let length = length.min(s.len() - from);
    &s[from..from + length]
}

// Lays a text at a buffer's start: its length, or `Refusal::Buffer` with the buffer as it was.
pub fn place(src: &[u8], out: &mut [u8]) -> Result<usize, Refusal>
    ensures { Came (placed src.now out.old) (written_of result) out.new }
{
    if buffer::put(src, out, 0) {
        return Ok(src.len());
    }
    Err(Refusal::Buffer)
}

// Adds a text from a place on, and answers the place behind it. If it does not fit there nothing changes, and the answer is
// a place beyond the buffer's end, where nothing fits any more.
// A place and no Option: the part behind takes it as it is, so that a text of many parts is tested once, at its end.
pub fn add(src: &[u8], out: &mut [u8], at: usize) -> usize
    ensures { Added src.now at out.old result out.new }
{
    if buffer::put(src, out, at) {
        return at + src.len();
    }
    out.len() + 1
}

// The index of the first b.
fn index(s: &[u8], b: u8) -> Option<usize>
    ensures { result ≡ position (λ x. eqb x b) s.now }
{
    s.iter().position(|x| *x == b)
}

// The place of the first b from a place on, or the text's end; a place behind the end is answered itself. A place and no
// Option: a part without a b ends where its text does, and is cut there without a test.
pub fn find(s: &[u8], from: usize, b: u8) -> usize
    ensures { (result ≡ from + index_of b (slice from (length s.now) s.now))
        × (from ≤ length s.now → result ≤ length s.now) }
{
    if s.len() <= from {
        return from;
    }
    match index(&s[from..], b) {
        Some(i) => from + i,
        None => s.len(),
    }
}
