// The words beside a rehearsal's transcript: which phrase, with which numbers, and the phrase as a line.
#![tactic(auto)]

ghost use Rattle.std.specs.Prelude.{◌≡◌, cond};
ghost use Rattle.buffer.specs.Lay.{Came, written_of};
ghost use Rattle.text.specs.Text.{placed};
ghost use Rattle.words.specs.Words.{phrase, frame_row, frame_words, line_row, machine_row, host_row, refusal_row, report_row, further, report_words, spoken};

use message::Fields;
use pattern::Source;
use refusal::Refusal;

// A frame for which there is no place.
pub const FULL: usize = 13;

// A phrase by its row, and the numbers that it can name. A row is a number and no enum: those of verdicts are counted on
// from the first of them, and 33 names would say again what the phrases say.
#[derive(Clone, Copy)]
pub struct Words {
    pub row: usize,
    pub v: [usize; 5],
}

// A phrase without numbers.
pub fn phrase(row: usize) -> Words
    ensures { result ≡ phrase row }
{
    Words { row, v: [0; 5] }
}

// One of two rows. (`parameters::later` is one of two slices, another type; a generic one would be no plainer than either.)
pub fn either(test: bool, a: usize, b: usize) -> usize
    ensures { result ≡ cond test a b }
{
    if test { a } else { b }
}

// The row of a frame that was sent; the machine is Started, or not, and the host sends a segment, or sends it again.
fn frame_row(code: u8, error: u8, started: bool, again: bool) -> usize
    ensures { result ≡ frame_row code error started again }
{
    match code {
        8 => 0,
        10 => either(error == 0, either(started, 2, 1), 3),
        2 => either(again, 6, 4),
        0 => either(again, 7, 5),
        _ => 8,
    }
}

// A frame that was sent, by a machine with this transfer address or to it.
pub fn frame(f: Fields, started: bool, transfer: u32, again: bool) -> Words
    ensures { result ≡ frame_words f started transfer again }
{
    Words {
        row: frame_row(f.code, f.error, started, again),
        v: [
            usize::from(f.number.wrapping_sub(1)),
            usize::from(f.number),
            f.data_length,
            f.address as usize,
            transfer as usize,
        ],
    }
}

// An end's first frame on the line: there is none, or it is dropped.
pub fn line(host: bool, some: bool) -> usize
    ensures { result ≡ line_row host some }
{
    either(host, either(some, 10, 9), either(some, 12, 11))
}

// The machine sends nothing: at its timer, or at a frame.
pub fn machine(timer: bool) -> usize
    ensures { result ≡ machine_row timer }
{
    if timer { 15 } else { 14 }
}

// The host sends nothing; its verdict before and after, numbers, since C's record may hold any, and each has a row.
pub fn host(timer: bool, verdict: u8, next: u8) -> usize
    ensures { result ≡ host_row timer verdict next }
{
    if verdict == next {
        return either(timer, 17, 16);
    }
    17 + usize::from(next.min(4))
}

// A refusal. It takes a number and no `Refusal`, since it promises a row for each number.
pub fn refusal(refusal: u8) -> usize
    ensures { result ≡ refusal_row refusal }
{
    match refusal {
        5 => 23,
        6 => 24,
        7 => 25,
        8 => 26,
        _ => 22,
    }
}

// The row of what a record means of the machine; the verdict is a number as above.
fn report_row(waiting: bool, verdict: u8) -> usize
    ensures { result ≡ report_row waiting verdict }
{
    if waiting {
        return 27;
    }
    28 + usize::from(verdict.min(4))
}

// One segment more, where there is one.
fn further(c: u64, n: u64) -> u64
    ensures { result ≡ further c n }
{
    c.saturating_add(1).min(n)
}

// What a record means of the machine: c segments are answered of n, `sent` frames are sent; the machine's transfer address.
pub fn report(waiting: bool, verdict: u8, c: u64, n: u64, sent: u64, transfer: u32) -> Words
    ensures { result ≡ report_words waiting verdict c n sent transfer }
{
    Words {
        row: report_row(waiting, verdict),
        v: [
            n as usize,
            c as usize,
            further(c, n) as usize,
            sent as usize,
            transfer as usize,
        ],
    }
}

// A phrase and its numbers, with a line feed. `Refusal::Buffer` for a buffer that is too short. The function is as long as
// its table, a row a line.
pub fn said(w: Words, out: &mut [u8]) -> Result<usize, Refusal>
    ensures { Came (placed (spoken w) out.old) (written_of result) out.new }
{
    let table = b"the machine asks for its program\n\
        the machine has segment number #a and asks for number #b\n\
        the machine has the last segment and starts at @e\n\
        the machine has no room for segment number #a\n\
        the host sends segment number #b, length #c, for address @d\n\
        the host sends the last segment, number #b, length #c, for address @d\n\
        the host repeats segment number #b, length #c, for address @d\n\
        the host repeats the last segment, number #b, length #c, for address @d\n\
        another frame\n\
        no frame of the host is on the line\n\
        the host's frame is lost on the line\n\
        no frame of the machine is on the line\n\
        the machine's frame is lost on the line\n\
        the line is full: this frame is lost\n\
        the machine ignores the frame\n\
        the machine has nothing to ask\n\
        the host ignores the frame\n\
        the host has nothing to repeat\n\
        the host has the last answer: finished\n\
        the host hears of the error: rejected\n\
        the host has no repeats left: given up\n\
        the host has no repeats left for the last segment: unconfirmed\n\
        The input is malformed.\n\
        The image file's length is wrong.\n\
        The image's entry count or directory offset is wrong.\n\
        An entry of the image breaks its own rule.\n\
        An entry of the image begins before the last one's end.\n\
        The host still waits: nothing of the program is in the machine. Frames sent: #d.\n\
        The load is not finished: of #a segments the machine holds the first #b or the first #c. Frames sent: #d.\n\
        The machine holds the catalogued program and was started at @e. Frames sent: #d.\n\
        The machine rejected a segment: of #a it holds exactly the first #b and was not started. Frames sent: #d.\n\
        The host gave up: of #a segments the machine holds the first #b or the first #c and was not started. Frames sent: #d.\n\
        Unconfirmed: the machine holds all #a segments and was started, or all but the last and was not. Frames sent: #d.\n";
    let source = Source {
        table,
        bytes: b"",
        numbers: &w.v,
    };
    source.sentence(w.row, b"", b"\n", out)
}
