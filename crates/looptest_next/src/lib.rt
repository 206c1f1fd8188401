// What the host's loop test does next on a frame (PROTOCOL 5, 'Host end').
#![tactic(auto)]

ghost use Rattle.std.specs.Prelude.{◌≡◌};
ghost use Rattle.looptest_record.specs.Record.{number};
ghost use Rattle.looptest_next.specs.Next.{returned, react};

use looptest_record::{Session, Settings, Verdict};
use message::Fields;

// A frame with the test's receipt and data ends it with a verdict.
#[tactic(auto, unfolding(crate::specs::Next::same))]
fn returned(
    s: Settings,
    h: Session,
    bytes: &[u8],
    verdict: Verdict,
    receipt: u16,
    back: &[u8],
) -> Session
    ensures { result ≡ returned s h bytes.now (number verdict) receipt back.now }
{
    if receipt != s.receipt || back != bytes {
        return h;
    }
    h.ended(verdict)
}

// Code 26 from the machine, 24 from a plug, numbers for C; another readable frame leaves it waiting.
pub fn react(s: Settings, h: Session, bytes: &[u8], f: Fields, back: &[u8]) -> Session
    ensures { result ≡ react s h bytes.now f back.now }
{
    if !h.open() {
        return h;
    }
    match f.code {
        24 => returned(s, h, bytes, Verdict::Plugged, f.receipt, back),
        26 => returned(s, h, bytes, Verdict::Looped, f.receipt, back),
        _ => h,
    }
}
