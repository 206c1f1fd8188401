// The calls of the host's end of a load (PROTOCOL 5, 'Host end'). Settings, file, parameters and buffer come one by one, as
// C gives them.
#![tactic(auto)]

ghost use Rattle.std.specs.Prelude.{◌≡◌, true, ◌+◌, ◌*◌, ◌≤◌, MatchResult};
ghost use Rattle.refusal.specs.Refusal.{number};
ghost use Rattle.buffer.specs.Lay.{Came, written_of};
ghost use Rattle.message.specs.Read.{refused_fields};
ghost use Rattle.message.specs.Write.{sent};
ghost use Rattle.directory.specs.Directory.{addresses};
ghost use Rattle.step.specs.Step.{gives, Leaves};
ghost use Rattle.load_record.specs.Record.{fresh};
ghost use Rattle.load_next.specs.Inner.{ahead};
ghost use Rattle.load.specs.Load.{numbered, load_frame, load_timer};
ghost use Rattle.load.specs.Inner.{piece, acting, Sendable};

use buffer::Written;
use load_checks::{Ruling, rule};
use load_record::{Next, Session, Settings};
use message::Fields;
use refusal::Refusal;

// What C is given by a step: the next record, and the length of the frame to send, 0 for none, or a refusal.
#[repr(C)]
#[derive(Clone, Copy)]
pub struct Stepped {
    pub session: Session,
    pub answer: Written,
}

// A waiting host.
pub fn start() -> Session
    ensures { result ≡ fresh }
{
    load_record::start()
}

// The frame that might go out on a frame; no load has more than one frame more than there are addresses. The code of a
// frame is a number for C.
fn ahead(session: Session, f: Result<Fields, Refusal>) -> u64
    ensures { session.position ≤ addresses + 1
        → MatchResult f (λ g. result ≡ ahead session g) (λ r. result ≡ ahead session (refused_fields (number r))) }
{
    if matches!(f, Ok(f) if f.code == 8) {
        return 0;
    }
    session.position.min(directory::ADDRESSES + 1) + 1
}

// Writes frame `index` of the load: a segment as code 2; the last is the parameters as code 20, or a segment as code 0. The
// writers take any buffer: one known to have 1,500 bytes would be made by `rule` and opened again for them.
fn send(
    settings: Settings,
    file: &[u8],
    parameters: &[u8],
    index: u64,
    k: Ruling,
    reply: &mut [u8],
) -> Result<usize, Refusal>
    requires { Sendable settings file.now parameters.now index k reply.old }
    ensures { Came (sent (numbered settings parameters.now k.many k.transfer index (piece file.now k.segment)) reply.old) (written_of result) reply.new }
{
    let number = (index % 256) as u8;
    let at = k.segment.place as usize;
    let end = at + k.segment.length as usize;
    let bytes = &file[at..end];
    if index + 1 != k.many {
        return writer::memory_load(number, k.segment.address, bytes, reply);
    }
    if settings.with_parameters == 1 {
        return writer_listed::parameters(settings.version, number, parameters, k.transfer, reply);
    }
    writer::memory_load_transfer(number, k.segment.address, bytes, k.transfer, reply)
}

// Does what the host does next, and lays its frame if it sends one; of none C is given the length 0.
fn give(
    settings: Settings,
    file: &[u8],
    parameters: &[u8],
    k: Ruling,
    next: Next,
    session: &mut Session,
    reply: &mut [u8],
) -> Result<usize, Refusal>
    requires { (next.session.sent ≤ 65536 * (256 * (addresses + 1)))
        × (next.sends ≡ true → Sendable settings file.now parameters.now next.session.position k reply.old) }
    ensures { Leaves (gives (acting settings file.now parameters.now k next) reply.old) session.new (written_of result) tt reply.new }
{
    *session = next.session;
    if next.sends {
        session.sent += 1;
        return send(settings, file, parameters, session.position, k, reply);
    }
    Ok(0)
}

// A step on a frame: the length of the frame to send, 0 for none.
pub fn frame(
    settings: Settings,
    session: &mut Session,
    file: &[u8],
    parameters: &[u8],
    frame: &[u8],
    reply: &mut [u8],
) -> Result<usize, Refusal>
    ensures { Leaves (load_frame settings session.old file.now parameters.now frame.now reply.old) session.new (written_of result) tt reply.new }
{
    let f = reader::read(settings.version, frame);
    let index = ahead(*session, f);
    let k = rule(settings, *session, file, parameters, reply, index)?;
    let f = f?;
    let next = load_next::react(k.many, settings.restart, *session, f);
    let next = session.tallied(next);
    give(settings, file, parameters, k, next, session, reply)
}

// A step on a timer.
pub fn timer(
    settings: Settings,
    session: &mut Session,
    file: &[u8],
    parameters: &[u8],
    reply: &mut [u8],
) -> Result<usize, Refusal>
    ensures { Leaves (load_timer settings session.old file.now parameters.now reply.old) session.new (written_of result) tt reply.new }
{
    let index = session.position;
    let k = rule(settings, *session, file, parameters, reply, index)?;
    let next = load_timer::on_timer(k.many, settings.repeats, *session);
    give(settings, file, parameters, k, next, session, reply)
}
