// Captured frames as text: lines of capital hexadecimal in, a line of fields by name out for each.
#![tactic(auto)]

ghost use Rattle.std.specs.Prelude.{◌≡◌, ◌++◌, ◌≤◌, length};
ghost use Rattle.buffer.specs.Lay.{Came, written_of};
ghost use Rattle.text.specs.Text.{chars, placed};
ghost use Rattle.pattern.specs.Pattern.{filling};
ghost use Rattle.refusal.specs.Refusal.{number};
ghost use Rattle.hexadecimal.specs.Hexadecimal.{spelled};
ghost use Rattle.hexadecimal.specs.Line.{held, ended};
ghost use Rattle.listing.specs.Frame.{program_row, form_row, reason_row, numbers, patterns};
ghost use Rattle.listing.specs.Listing.{printed, fed, closed, Feeds};

use hexadecimal::Line;
use message::Fields;
use pattern::Source;
use refusal::Refusal;

// The row of the words behind a program type. Rows are numbers: `line` says why.
fn program_row(program: u8) -> usize
    ensures { result ≡ program_row program }
{
    match program {
        0..=2 => 33 + usize::from(program),
        _ => 32,
    }
}

// The row of the words behind a software form.
fn form_row(form: u8) -> usize
    ensures { result ≡ form_row form }
{
    match form {
        0 => 36,
        254 => 37,
        255 => 38,
        _ => 32,
    }
}

// The row of a refusal.
fn reason_row(refusal: Refusal) -> usize
    ensures { result ≡ reason_row (number refusal) }
{
    match refusal {
        Refusal::Short => 28,
        Refusal::Long => 29,
        Refusal::Code => 30,
        Refusal::Field => 31,
        _ => 27,
    }
}

// The numbers of a frame, in the order of the letters that stand for them in the rows.
fn numbers(f: Fields) -> [usize; 19]
    ensures { result ≡ numbers f }
{
    let words = program_row(f.program);
    let remark = form_row(f.form);
    [
        f.address as usize,
        words,
        usize::from(f.count),
        f.data_at,
        f.data_length,
        usize::from(f.format),
        remark,
        usize::from(f.form),
        f.id_at,
        f.id_length,
        usize::from(f.compatibility),
        f.transfer as usize,
        f.memory_size as usize,
        usize::from(f.number),
        usize::from(f.processor),
        usize::from(f.program),
        usize::from(f.error),
        usize::from(f.receipt),
        usize::from(f.device),
    ]
}

// A row filled, with its line feed: a row for each code, for each refusal, and for words behind a number. Rows go by number,
// since a frame's code is its row, and the marks of other rows name theirs by number. The function is as long as its table.
fn line(k: usize, v: &[usize], s: &[u8], out: &mut [u8]) -> Result<usize, Refusal>
    requires { length s.now ≤ 1500 }
    ensures { Came (placed (filling patterns k v.now s.now ++ chars "\n") out.old) (written_of result) out.new }
{
    let table =
        b"0 memory load with transfer: number #n, address @a, data %d, transfer address @l\n\
        1 dump complete\n\
        2 memory load: number #n, address @a, data %d\n\
        3 assistance volunteer\n\
        4 request memory dump: address @a, count #c\n\
        \n\
        \n\
        \n\
        8 request program: device #s, format #f, program type #p&b, software form #h&g, software id %i, processor #o, info %d\n\
        \n\
        10 request memory load: number #n, error #q\n\
        \n\
        12 request dump service: device #s, format #f, memory size #m, compatibility #k, info %d\n\
        \n\
        14 memory dump data: address @a, data %d\n\
        \n\
        \n\
        \n\
        \n\
        \n\
        20 parameter load with transfer: number #n, entries %d, transfer address @l\n\
        \n\
        \n\
        \n\
        24 loop data: receipt #r, data %d\n\
        \n\
        26 looped data: receipt #r, data %d\n\
        refused\n\
        refused 1: empty, or ends too early\n\
        refused 2: bytes left over, or above 1,500\n\
        refused 3: code not listed\n\
        refused 4: a program type, software form, entry type, entry length or time field outside the list\n\
        \n\
        \x20(secondary)\n\
        \x20(tertiary)\n\
        \x20(operating system)\n\
        \x20(none)\n\
        \x20(maintenance system)\n\
        \x20(standard system)\n";
    let source = Source {
        table,
        bytes: s,
        numbers: v,
    };
    source.sentence(k, b"", b"\n", out)
}

// The line of a frame, with its line feed.
pub fn show(s: &[u8], out: &mut [u8]) -> Result<usize, Refusal>
    ensures { Came (placed (printed (spelled s.now)) out.old) (written_of result) out.new }
{
    match reader::read(version::V3_0, s) {
        Ok(f) => line(usize::from(f.code), &numbers(f), s, out),
        Err(refusal) => line(reason_row(refusal), &[], b"", out),
    }
}

// The line that is printed if a line ends here, into a lent buffer: `text` says why.
fn finish(at: Line, buffer: &[u8], out: &mut [u8]) -> Result<usize, Refusal>
    ensures { Came (placed (printed (ended (held at buffer.now))) out.old) (written_of result) out.new }
{
    if hexadecimal::is_foul(at) {
        return text::place(b"not hexadecimal\n", out);
    }
    show(text::part(buffer, 0, at.length), out)
}

// What a character of the input leaves: the line so far, and what is to be printed now.
#[derive(Clone, Copy)]
pub struct Fed {
    pub line: Line,
    pub written: Result<usize, Refusal>,
}

// One more character of the input: a line feed prints the line's.
pub fn feed(at: Line, c: u8, buffer: &mut [u8], out: &mut [u8]) -> Fed
    ensures { Feeds (fed (held at buffer.old) c) out.old result buffer.new out.new }
{
    if c == b'\n' {
        let written = finish(at, buffer, out);
        return Fed {
            line: hexadecimal::start(),
            written,
        };
    }
    Fed {
        line: hexadecimal::step(at, c, buffer),
        written: Ok(0),
    }
}

// The end of the input: a last line without a line feed is printed if it has a character.
pub fn close(at: Line, buffer: &[u8], out: &mut [u8]) -> Result<usize, Refusal>
    ensures { Came (placed (closed (held at buffer.now)) out.old) (written_of result) out.new }
{
    if at.begun {
        return finish(at, buffer, out);
    }
    Ok(0)
}
