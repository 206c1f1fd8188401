// What a call of the host's end of a load refuses, but for its frame (PROTOCOL 5, 'Host end', and 7, 'Refusals').
#![tactic(auto)]

ghost use Rattle.std.specs.Prelude.{◌≡◌, ◌+◌, ◌≤◌};
ghost use Rattle.directory.specs.Directory.{addresses};
ghost use Rattle.load_checks.specs.Checks.{frames_of, few, consistent, string_refusal, refusal, accepts};
ghost use Rattle.refusal.specs.Refusal.{number_of, Answers};

use directory::Region;
use load_record::{Session, Settings};
use refusal::Refusal;
use verdict::Verdict;

// What an accepted call needs: n, the number of frames, the image's transfer address, and the segment that might go out.
#[derive(Clone, Copy)]
pub struct Ruling {
    pub many: u64,
    pub transfer: u32,
    pub segment: Region,
}

// The number of frames: one for each segment, and one more for a parameter string. The marks of C's settings are numbers
// here and below.
fn frames(settings: Settings, segments: u64) -> u64
    requires { segments ≤ addresses }
    ensures { result ≡ frames_of settings segments }
{
    if settings.with_parameters == 1 {
        return segments + 1;
    }
    segments
}

// Whether a load has not too many frames to begin again, if it may.
fn few(settings: Settings, many: u64) -> bool
    ensures { result ≡ few settings many }
{
    settings.restart != 1 || many <= 256
}

// Whether a record is sound with so many frames.
fn consistent(many: u64, settings: Settings, session: Session) -> bool
    requires { (many ≤ addresses + 1) × (settings.repeats ≤ 255) × (session.restarts ≤ 65535) }
    ensures { result ≡ consistent many settings session }
{
    let round = many * (u64::from(settings.repeats) + 1);
    let limit = (u64::from(session.restarts) + 1) * round;
    session.position <= many
        && session.sent <= limit
        && (session.verdict == Verdict::Finished.into()) == (session.position == many)
}

// The parameter string's refusal.
#[tactic(auto, unfolding(step::specs::Step::first))]
fn string_refusal(settings: Settings, parameters: &[u8]) -> Result<(), Refusal>
    ensures { number_of result ≡ string_refusal settings parameters.now }
{
    if settings.with_parameters != 1 {
        return Ok(());
    }
    if !writer_listed::listed(settings.version, parameters) {
        return Err(Refusal::Field);
    }
    if 1493 < parameters.len() {
        return Err(Refusal::Long);
    }
    Ok(())
}

// Whether a call is accepted, but for its frame; `index` is the segment that might go out.
pub fn rule(
    settings: Settings,
    session: Session,
    file: &[u8],
    parameters: &[u8],
    reply: &[u8],
    index: u64,
) -> Result<Ruling, Refusal>
    ensures { Answers result (refusal settings session file.now parameters.now reply.now) (accepts settings file.now index) }
{
    if !load_valid::valid(settings, session) {
        return Err(Refusal::Setting);
    }
    if reply.len() < 1500 {
        return Err(Refusal::Buffer);
    }
    let a = image::survey(file, settings.segment_size, index)?;
    let many = frames(settings, a.segments);
    if !few(settings, many) {
        return Err(Refusal::Frames);
    }
    if !consistent(many, settings, session) {
        return Err(Refusal::Setting);
    }
    string_refusal(settings, parameters)?;
    Ok(Ruling {
        many,
        transfer: a.transfer,
        segment: a.segment,
    })
}
