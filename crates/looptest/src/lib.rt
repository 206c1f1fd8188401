// The calls of the host's loop test (PROTOCOL 5, 'Host end').
#![tactic(auto)]

ghost use Rattle.std.specs.Prelude.{◌≡◌, ◌≤◌, ◌<◌, length};
ghost use Rattle.refusal.specs.Refusal.{number_of};
ghost use Rattle.buffer.specs.Lay.{Came, written_of};
ghost use Rattle.message.specs.Message.{loop_data};
ghost use Rattle.message.specs.Write.{sent};
ghost use Rattle.step.specs.Step.{Leaves};
ghost use Rattle.looptest.specs.Loop.{begun, settled, sound, refusal, loop_start, loop_frame, loop_timer};

use buffer::Written;
use looptest_record::{Session, Settings, Verdict};
use refusal::Refusal;

// What C is given by a step: the next record, and the length of the frame to send, 0 for none, or a refusal.
#[repr(C)]
#[derive(Clone, Copy)]
pub struct Stepped {
    pub session: Session,
    pub answer: Written,
}

// The test has sent its frame once.
pub fn begun() -> Session
    ensures { result ≡ begun }
{
    Session {
        sent: 1,
        repeats: 0,
        verdict: Verdict::Open.into(),
    }
}

// R and the data are within their ranges, and the version is known.
fn settled(s: Settings, size: usize) -> bool
    ensures { result ≡ settled s size }
{
    s.repeats <= 255 && size <= 1497 && version::known(s.version)
}

// The record is not bad.
fn sound(s: Settings, h: Session) -> bool
    ensures { result ≡ sound s h }
{
    h.verdict <= Verdict::GivenUp.into()
        && h.repeats <= s.repeats
        && h.sent <= u64::from(s.repeats) + 1
}

// A call's refusal: `Refusal::Setting` for R, the data, the version or the record, then `Refusal::Buffer`. A trait for this
// and the dump's would name both tests of each, and be longer than the two functions.
#[tactic(auto, unfolding(step::specs::Step::first))]
fn refusal(s: Settings, h: Session, size: usize, room: usize) -> Result<(), Refusal>
    ensures { number_of result ≡ refusal s h size room }
{
    if !settled(s, size) || !sound(s, h) {
        return Err(Refusal::Setting);
    }
    if room < 1500 {
        return Err(Refusal::Buffer);
    }
    Ok(())
}

// The test's frame goes out. The writer takes any buffer: one known to have 1,500 bytes would be opened again for it.
fn goes_out(s: Settings, bytes: &[u8], reply: &mut [u8]) -> Result<usize, Refusal>
    requires { (length bytes.now ≤ 1497) × (1500 ≤ length reply.old) }
    ensures { Came (sent (loop_data s.receipt bytes.now) reply.old) (written_of result) reply.new }
{
    writer::loop_data(s.receipt, bytes, reply)
}

// The start: the first frame, for a test that has begun.
pub fn start(settings: Settings, bytes: &[u8], reply: &mut [u8]) -> Result<usize, Refusal>
    ensures { Leaves (loop_start settings bytes.now reply.old) begun (written_of result) tt reply.new }
{
    refusal(settings, begun(), bytes.len(), reply.len())?;
    goes_out(settings, bytes, reply)
}

// A step on a frame: nothing is sent, and the reply buffer stays as it is.
#[tactic(auto, unfolding(step::specs::Step::first))]
pub fn frame(
    settings: Settings,
    session: &mut Session,
    bytes: &[u8],
    frame: &[u8],
    reply: &[u8],
) -> Result<usize, Refusal>
    ensures { Leaves (loop_frame settings session.old bytes.now frame.now reply.now) session.new (written_of result) tt reply.now }
{
    refusal(settings, *session, bytes.len(), reply.len())?;
    let heard = heard::hear(settings.version, frame)?;
    *session = looptest_next::react(settings, *session, bytes, heard.f, heard.data());
    Ok(0)
}

// A step on a timer: the length of the frame to send, 0 for none.
pub fn timer(
    settings: Settings,
    session: &mut Session,
    bytes: &[u8],
    reply: &mut [u8],
) -> Result<usize, Refusal>
    ensures { Leaves (loop_timer settings session.old bytes.now reply.old) session.new (written_of result) tt reply.new }
{
    refusal(settings, *session, bytes.len(), reply.len())?;
    let next = looptest_timer::on_timer(settings, *session);
    *session = next.session;
    if next.sends {
        session.sent += 1;
        return goes_out(settings, bytes, reply);
    }
    Ok(0)
}
