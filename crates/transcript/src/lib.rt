// The lines of a rehearsal's transcript (PROTOCOL 8, 'Rehearsal'), in lent buffers: `text` says why. Each function answers
// `Refusal::Buffer` for a buffer that is too short.
#![tactic(auto)]

ghost use Rattle.std.specs.Prelude.{◌≡◌, cond, ◌++◌};
ghost use Rattle.buffer.specs.Lay.{Came, written_of};
ghost use Rattle.text.specs.Text.{chars, placed, Added};
ghost use Rattle.text.specs.Inner.{Adds};
ghost use Rattle.decimal.specs.Decimal.{decimal};
ghost use Rattle.hexadecimal.specs.Hexadecimal.{address};
ghost use Rattle.transcript.specs.Transcript.{initial, sent_line, report, last_line, bad_line};

use refusal::Refusal;

// H for the host, T for the machine. A bool says which end it is: `job::host_sends` answers one, as the definition `initial`
// takes it.
pub fn initial(host: bool) -> u8
    ensures { result ≡ initial host }
{
    if host { b'H' } else { b'T' }
}

// The line of a frame that the host sent, or the machine; no line for no bytes.
pub fn sent(host: bool, frame: &[u8], out: &mut [u8]) -> Result<usize, Refusal>
    ensures { Came (placed (sent_line host frame.now) out.old) (written_of result) out.new }
{
    if frame.is_empty() {
        return Ok(0);
    }
    let head = [initial(host), b' '];
    hexadecimal::print(&head, frame, b"\n", out)
}

// Adds the transfer address if the machine is Started, else a hyphen. Two values, as the definition `report` has them.
fn entry(started: bool, transfer: u32, out: &mut [u8], at: usize) -> usize
    ensures { Added (cond started (address transfer) (chars "-")) at out.old result out.new }
{
    if started {
        return hexadecimal::address(transfer as usize, out, at);
    }
    text::add(b"-", out, at)
}

// The last line up to the memory, at the start of a buffer; the place behind it. Its four values come one by one, as `last`
// takes them for the definition `last_line`; the verdict is a number, since C's record may hold any, and each has a line.
fn report(verdict: u8, sent: u64, started: bool, transfer: u32, out: &mut [u8]) -> usize
    ensures { Adds (report verdict sent started transfer) 0 out.old result out.new }
{
    let a = text::add(b"END ", out, 0);
    let b = decimal::write(usize::from(verdict), out, a);
    let c = text::add(b" ", out, b);
    let d = decimal::write(sent as usize, out, c);
    let e = text::add(b" ", out, d);
    let f = entry(started, transfer, out, e);
    text::add(b" ", out, f)
}

// The last line.
pub fn last(
    verdict: u8,
    sent: u64,
    started: bool,
    transfer: u32,
    memory: &[u8],
    out: &mut [u8],
) -> Result<usize, Refusal>
    ensures { Came (placed (last_line verdict sent started transfer memory.now) out.old) (written_of result) out.new }
{
    let mut head = [0u8; 64];
    let n = report(verdict, sent, started, transfer, &mut head);
    hexadecimal::print(text::part(&head, 0, n), memory, b"\n", out)
}

// The text of a refusal, at the start of a buffer; the place behind it.
fn refused(refusal: u8, out: &mut [u8]) -> usize
    ensures { Adds (chars "BAD " ++ (decimal refusal ++ chars "\n")) 0 out.old result out.new }
{
    let a = text::add(b"BAD ", out, 0);
    let b = decimal::write(usize::from(refusal), out, a);
    text::add(b"\n", out, b)
}

// A refusal's line; none for refusal 0. It takes a number and no `Refusal`, since it promises a line for each number.
pub fn bad(refusal: u8, out: &mut [u8]) -> Result<usize, Refusal>
    ensures { Came (placed (bad_line refusal) out.old) (written_of result) out.new }
{
    if refusal == 0 {
        return Ok(0);
    }
    let mut space = [0u8; 64];
    let n = refused(refusal, &mut space);
    text::place(text::part(&space, 0, n), out)
}
