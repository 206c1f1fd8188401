// What a call of the host's end of a dump refuses of its record, of the settings and of the buffers (PROTOCOL 5, 'Host end',
// and 7, 'Refusals').
#![tactic(auto)]

ghost use Rattle.std.specs.Prelude.{◌≡◌, true, not, cond, ◌≤◌, eqb};
ghost use Rattle.dump_checks.specs.Checks.{settled, blank, sound, refusal};
ghost use Rattle.refusal.specs.Refusal.{number_of};

use dump_record::{Session, Settings};
use refusal::Refusal;
use verdict::Verdict;

// The bytes of the address space; `directory` has the number too, but is about image files, which a dump has none of.
const SPACE: u64 = 4294967296;

// The settings are within their ranges, and the dump buffer has just the range's length.
fn settled(s: Settings, size: usize) -> bool
    ensures { result ≡ settled s size }
{
    (1..=1495).contains(&s.request_bytes)
        && s.repeats <= 255
        && (1..=SPACE).contains(&s.length)
        && u64::from(s.address) + s.length <= SPACE
        && size as u64 == s.length
        && version::known(s.version)
}

// A waiting record has every number 0 but that of ignored frames.
fn unstarted(h: Session) -> bool
    ensures { result ≡ cond (eqb h.waiting 1) (blank h) true }
{
    h.waiting != 1
        || (h.running()
            && h.filled == 0
            && h.replies == 0
            && h.repeats == 0
            && h.sent == 0
            && h.counts.only_ignored())
}

// A record is full just if its verdict is that it is finished.
fn agrees(s: Settings, h: Session) -> bool
    ensures { result ≡ cond (eqb h.verdict 1) (eqb h.filled s.length) (not (eqb h.filled s.length)) }
{
    (h.verdict == Verdict::Finished.into()) == (h.filled == s.length)
}

// The record is not bad.
fn sound(s: Settings, h: Session) -> bool
    requires { (s.length ≤ 4294967296) × (s.repeats ≤ 255) }
    ensures { result ≡ sound s h }
{
    h.verdict <= Verdict::GivenUp.into()
        && h.repeats <= s.repeats
        && h.filled <= s.length
        && h.replies <= h.filled
        && h.sent <= (h.replies + 1) * (u64::from(s.repeats) + 1) + 1
        && h.waiting <= 1
        && h.counts.below()
        && unstarted(h)
        && agrees(s, h)
}

// A call's refusal: `Refusal::Setting`, then `Refusal::Buffer`. A trait for this and the loop test's would name both tests
// of each, and be longer than the two functions.
#[tactic(auto, unfolding(step::specs::Step::first))]
pub fn refusal(s: Settings, h: Session, size: usize, room: usize) -> Result<(), Refusal>
    ensures { number_of result ≡ refusal s h size room }
{
    if !settled(s, size) || !sound(s, h) {
        return Err(Refusal::Setting);
    }
    if room < 1500 {
        return Err(Refusal::Buffer);
    }
    Ok(())
}
