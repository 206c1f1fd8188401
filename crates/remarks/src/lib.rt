// The lines of `make explain`: words beside a rehearsal's transcript, in lent buffers: `text` says why. Each function
// answers `Refusal::Buffer` for a buffer that is too short. Letters are bytes: a remark prints its letter, and any byte has
// words. Letter, ends and frame come one by one: of the functions here `remark` alone needs all four.
#![tactic(auto)]

ghost use Rattle.std.specs.Prelude.{◌≡◌};
ghost use Rattle.buffer.specs.Lay.{Came, written_of};
ghost use Rattle.text.specs.Text.{placed};
ghost use Rattle.remarks.specs.Remarks.{beside_line, noted_line, silent_row, sent_words, remark, full_before, lost, meaning, reason};

use job::Ends;
use machine_record::State;
use message::Fields;
use refusal::Refusal;
use words::Words;

// A letter and bytes in hexadecimal, and words beside them, from column 24 on or two places behind the bytes.
fn beside(letter: u8, bytes: &[u8], w: Words, out: &mut [u8]) -> Result<usize, Refusal>
    ensures { Came (placed (beside_line letter bytes.now w) out.old) (written_of result) out.new }
{
    let head = [letter, b' '];
    let gap = 22 - 2 * bytes.len().min(10);
    let mut tail = [b' '; 330];
    let end = gap + words::said(w, &mut tail[gap..]).unwrap_or(0);
    hexadecimal::print(&head, bytes, &tail[..end], out)
}

// An event's letter, and words without numbers.
pub fn noted(letter: u8, row: usize, out: &mut [u8]) -> Result<usize, Refusal>
    ensures { Came (placed (noted_line letter row) out.old) (written_of result) out.new }
{
    beside(letter, &[], words::phrase(row), out)
}

// The row of why an event sent no frame, from the ends before and after it.
fn silent_row(letter: u8, before: Ends, after: Ends) -> usize
    ensures { result ≡ silent_row letter before after }
{
    let from_host = 0 < before.from_host.length();
    let from_machine = 0 < before.from_machine.length();
    let verdict = before.session.verdict;
    let next = after.session.verdict;
    match letter {
        b'h' | b'k' if from_host => words::machine(false),
        b'h' | b'k' => words::line(true, false),
        b'x' => words::line(true, from_host),
        b't' | b'u' if from_machine => words::host(false, verdict, next),
        b't' | b'u' => words::line(false, false),
        b'y' => words::line(false, from_machine),
        b'm' => words::host(true, verdict, next),
        _ => words::machine(true),
    }
}

// The words of a frame that was sent, from the ends after it.
fn sent_words(letter: u8, after: Ends, frame: &[u8]) -> Words
    ensures { result ≡ sent_words letter after frame.now }
{
    let machine = after.machine;
    let f = reader::read(version::V3_0, frame).unwrap_or_else(Fields::from);
    let again = job::host_sends(letter) && 0 < after.session.repeats;
    words::frame(f, machine.is(State::Started), machine.transfer, again)
}

// An event and the frame that it sent, if any, in words.
pub fn remark(
    letter: u8,
    before: Ends,
    after: Ends,
    frame: &[u8],
    out: &mut [u8],
) -> Result<usize, Refusal>
    ensures { Came (placed (remark letter before after frame.now) out.old) (written_of result) out.new }
{
    if frame.is_empty() {
        return noted(letter, silent_row(letter, before, after), out);
    }
    let first = transcript::initial(job::host_sends(letter));
    beside(first, frame, sent_words(letter, after, frame), out)
}

// Whether the queue of the end that sends at an event was full.
fn full_before(letter: u8, before: Ends) -> bool
    ensures { result ≡ full_before letter before }
{
    if job::host_sends(letter) {
        before.from_host.is_full()
    } else {
        before.from_machine.is_full()
    }
}

// A frame that was sent and is lost, since its queue was full; no line otherwise.
pub fn lost(letter: u8, before: Ends, frame: &[u8], out: &mut [u8]) -> Result<usize, Refusal>
    ensures { Came (placed (lost letter before frame.now) out.old) (written_of result) out.new }
{
    if !frame.is_empty() && full_before(letter, before) {
        return noted(letter, words::FULL, out);
    }
    Ok(0)
}

// What the last line means of an image of so many segments.
pub fn meaning(ends: Ends, segments: u64, out: &mut [u8]) -> Result<usize, Refusal>
    ensures { Came (placed (meaning ends segments) out.old) (written_of result) out.new }
{
    let session = ends.session;
    let w = words::report(
        session.waiting == 1,
        session.verdict,
        session.position,
        segments,
        session.sent,
        ends.machine.transfer,
    );
    words::said(w, out)
}

// What a refusal means, by its number; any number has words.
pub fn reason(refusal: u8, out: &mut [u8]) -> Result<usize, Refusal>
    ensures { Came (placed (reason refusal) out.old) (written_of result) out.new }
{
    words::said(words::phrase(words::refusal(refusal)), out)
}
