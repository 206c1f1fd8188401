// Texts from tables: a row with numbers, addresses and bytes in the places of its marks, in a lent buffer from a place on:
// `text` says why.
#![tactic(auto)]

ghost use Rattle.std.specs.Prelude.{◌≡◌, ◌-◌, ◌≤◌, ◌<◌, length, get_or, drop};
ghost use Rattle.buffer.specs.Lay.{Came, written_of};
ghost use Rattle.text.specs.Text.{Added};
ghost use Rattle.text.specs.Inner.{Adds};
ghost use Rattle.pattern.specs.Pattern.{behind, skip, row, bytes, value, piece, after, filled, sentenced};
ghost use Rattle.pattern.specs.Marks.{code, code_of};

use refusal::Refusal;

// The place behind the row that begins at a place of a table: the table's end behind its last row, as `text::find` answers.
fn next_row(table: &[u8], at: usize) -> usize
    requires { at ≤ length table.now }
    ensures { (result ≤ length table.now) × (drop result table.now ≡ behind (drop at table.now)) }
{
    let feed = text::find(table, at, b'\n');
    if feed < table.len() {
        return feed + 1;
    }
    feed
}

// Where row k of a table begins.
fn row_at(table: &[u8], k: usize) -> usize
    ensures { (result ≤ length table.now) × (drop result table.now ≡ skip k table.now) }
{
    let mut at = 0;
    for _ in 0..k {
        at = next_row(table, at);
    }
    at
}

// Row k of a table, without its line feed.
fn row(table: &[u8], k: usize) -> &[u8]
    ensures { result.now ≡ row (skip k table.now) }
{
    let from = row_at(table, k);
    let to = text::find(table, from, b'\n');
    &table[from..to]
}

// Adds bytes in hexadecimal to a text, or a hyphen if there are none.
fn bytes(s: &[u8], out: &mut [u8], at: usize) -> usize
    ensures { Added (bytes s.now) at out.old result out.new }
{
    if s.is_empty() {
        return text::add(b"-", out, at);
    }
    hexadecimal::pairs(s, out, at)
}

// What a mark asks for.
#[derive(Clone, Copy)]
enum Mark {
    Number,
    Address,
    Bytes,
    Row,
}

impl Mark {
    // The mark that a character is, if it is one.
    fn of(c: u8) -> Option<Mark>
        ensures { code_of result ≡ after 0 c }
    {
        match c {
            b'#' => Some(Mark::Number),
            b'@' => Some(Mark::Address),
            b'%' => Some(Mark::Bytes),
            b'&' => Some(Mark::Row),
            _ => None,
        }
    }
}

// The mark that the next character stands behind.
fn after(before: Option<Mark>, c: u8) -> Option<Mark>
    ensures { code_of result ≡ after (code_of before) c }
{
    if before.is_some() {
        return None;
    }
    Mark::of(c)
}

// The place of a letter's number.
fn slot(letter: u8) -> usize
    ensures { (result ≡ letter - 97) × (result < 256) }
{
    usize::from(letter.saturating_sub(b'a'))
}

// What the marks of a pattern name: a table's rows, bytes, and numbers.
#[derive(Clone, Copy)]
pub struct Source<'a> {
    pub table: &'a [u8],
    pub bytes: &'a [u8],
    pub numbers: &'a [usize],
}

impl<'a> Source<'a> {
    // Number k, or 0.
    fn number(self, k: usize) -> usize
        ensures { result ≡ get_or self.entry.numbers.now k 0 }
    {
        self.numbers.get(k).copied().unwrap_or(0)
    }

    // Adds what a mark stands for in front of number k to a text.
    fn value(self, mark: Mark, k: usize, out: &mut [u8], at: usize) -> usize
        requires { k < 256 }
        ensures { Added (value self.entry.table.now self.entry.bytes.now self.entry.numbers.now (code mark) k) at out.old result out.new }
    {
        let n = self.number(k);
        match mark {
            Mark::Number => decimal::write(n, out, at),
            Mark::Address => hexadecimal::address(n, out, at),
            Mark::Bytes => bytes(text::part(self.bytes, n, self.number(k + 1)), out, at),
            Mark::Row => text::add(row(self.table, n), out, at),
        }
    }

    // Adds a character of a pattern to a text: itself, or what it stands for behind a mark.
    fn piece(self, before: Option<Mark>, c: u8, out: &mut [u8], at: usize) -> usize
        ensures { Added (piece self.entry.table.now self.entry.bytes.now self.entry.numbers.now (code_of before) c) at out.old result out.new }
    {
        if let Some(mark) = before {
            return self.value(mark, slot(c), out, at);
        }
        if Mark::of(c).is_some() {
            return text::add(b"", out, at);
        }
        text::add(&[c], out, at)
    }

    // Fills a pattern at the start of a buffer, and answers the place behind it.
    fn fill(self, pattern: &[u8], out: &mut [u8]) -> usize
        ensures { Adds (filled self.entry.table.now self.entry.bytes.now self.entry.numbers.now 0 pattern.now) 0 out.old result out.new }
    {
        let mut before = None;
        let mut at = 0;
        for c in pattern {
            at = self.piece(before, *c, out, at);
            before = after(before, *c);
        }
        at
    }

    // Row k of the table, filled; then bytes in hexadecimal, then a text. `Refusal::Buffer` for a buffer that is too short,
    // or for a filled row above 6,600 characters.
    pub fn sentence(
        self,
        k: usize,
        data: &[u8],
        tail: &[u8],
        out: &mut [u8],
    ) -> Result<usize, Refusal>
        ensures { Came (sentenced self.entry.table.now k self.entry.numbers.now self.entry.bytes.now «data».now tail.now out.old) (written_of result) out.new }
    {
        let mut space = [0u8; 6600];
        let n = self.fill(row(self.table, k), &mut space);
        if 6600 < n {
            return Err(Refusal::Buffer);
        }
        hexadecimal::print(&space[..n], data, tail, out)
    }
}
