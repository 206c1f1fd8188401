// The calls of the host's end of a dump (PROTOCOL 5, 'Host end'): the bytes that go in and out.
#![tactic(auto)]

ghost use Rattle.std.specs.Prelude.{◌≡◌, List, ℕ, ◌+◌, ◌≤◌, ◌<◌, ◌^◌, length};
ghost use Rattle.buffer.specs.Lay.{Came, written_of};
ghost use Rattle.message.specs.Message.{request_dump};
ghost use Rattle.message.specs.Write.{sent};
ghost use Rattle.step.specs.Step.{gives, Leaves};
ghost use Rattle.dump_record.specs.Record.{fresh, place, asked};
ghost use Rattle.dump.specs.Dump.{counted, filled, does, dump_frame, dump_timer};
ghost use Rattle.dump.specs.Inner.{Room, Ready};

use buffer::Written;
use dump_record::{Next, Sends, Session, Settings};
use refusal::Refusal;

// What C is given by a step: the next record, and the length of the frame to send, 0 for none, or a refusal.
#[repr(C)]
#[derive(Clone, Copy)]
pub struct Stepped {
    pub session: Session,
    pub answer: Written,
}

// A waiting host.
pub fn start() -> Session
    ensures { result ≡ fresh }
{
    dump_record::start()
}

// The record with its replies and its frames sent counted.
fn counted(n: Next) -> Session
    requires { (n.session.replies < 2 ^ 62) × (n.session.sent < 2 ^ 62) }
    ensures { result ≡ counted n }
{
    Session {
        replies: n.session.replies + dump_count::replies(n.takes),
        sent: n.session.sent + dump_count::frames(n.sends),
        ..n.session
    }
}

// Code 4 for what is missing. The writers take any buffer: one known to have 1,500 bytes would be opened again for them.
fn request(s: Settings, h: Session, reply: &mut [u8]) -> Result<usize, Refusal>
    requires { (s.request_bytes ≤ 1495) × (s.address + s.length ≤ 4294967296) × (h.filled < s.length) × (1500 ≤ length reply.old) }
    ensures { Came (sent (request_dump (place s h) (asked s h)) reply.old) (written_of result) reply.new }
{
    let place = (u64::from(s.address) + h.filled) as u32;
    let count = h.asked(s) as u16;
    writer::request_dump(place, count, reply)
}

// What goes out is counted and stands in the reply buffer.
fn tell(s: Settings, n: Next, session: &mut Session, reply: &mut [u8]) -> Result<usize, Refusal>
    requires { Ready s n (length reply.old) }
    ensures { (buffer : List ℕ) → Leaves (gives (does s n buffer) reply.old) session.new (written_of result) buffer reply.new }
{
    *session = counted(n);
    match n.sends {
        Sends::Nothing => Ok(0),
        Sends::Request => request(s, n.session, reply),
        Sends::Complete => writer::dump_complete(reply),
    }
}

// A reply's bytes, if they are taken, go into the buffer from the reached place on. What takes none fills nothing, as
// `filled` of specs/Dump.antt says.
fn fill(takes: bool, part: &[u8], at: u64, buffer: &mut [u8])
    requires { Room takes at (length part.now) (length buffer.old) }
    ensures { buffer.new ≡ filled takes part.now at buffer.old }
{
    if !takes {
        return;
    }
    let at = at as usize;
    buffer[at..at + part.len()].copy_from_slice(part);
}

// A step on a frame: the length of the frame to send, 0 for none.
#[tactic(auto, unfolding(step::specs::Step::first))]
pub fn frame(
    settings: Settings,
    session: &mut Session,
    frame: &[u8],
    buffer: &mut [u8],
    reply: &mut [u8],
) -> Result<usize, Refusal>
    ensures { Leaves (dump_frame settings session.old frame.now buffer.old reply.old) session.new (written_of result) buffer.new reply.new }
{
    dump_checks::refusal(settings, *session, buffer.len(), reply.len())?;
    let heard = heard::hear(settings.version, frame)?;
    let next = dump_next::react(settings, *session, heard.f);
    fill(next.takes, heard.data(), session.filled, buffer);
    let next = session.tallied(next);
    tell(settings, next, session, reply)
}

// A step on a timer. The buffer stays as it is.
pub fn timer(
    settings: Settings,
    session: &mut Session,
    buffer: &[u8],
    reply: &mut [u8],
) -> Result<usize, Refusal>
    ensures { Leaves (dump_timer settings session.old buffer.now reply.old) session.new (written_of result) buffer.now reply.new }
{
    dump_checks::refusal(settings, *session, buffer.len(), reply.len())?;
    let next = dump_timer::on_timer(settings, *session);
    tell(settings, next, session, reply)
}
