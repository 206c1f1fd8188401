// What the host's end of a load does next on a timer (PROTOCOL 5, 'Host end').
#![tactic(auto)]

ghost use Rattle.std.specs.Prelude.{◌≡◌};
ghost use Rattle.load_timer.specs.Timer.{on_timer};

use load_record::{Next, Session};
use retransmission::{Tick, ticked};
use verdict::Verdict;

// A timer while sending: the frame again if fewer than R repeats are used; else given up, or unconfirmed at the last frame.
pub fn on_timer(many: u64, limit: u32, session: Session) -> Next
    ensures { result ≡ on_timer many limit session }
{
    match ticked(
        session.running(),
        session.waiting == 0,
        session.repeats,
        limit,
    ) {
        Tick::Nothing => session.ignored(),
        Tick::Again => session.repeated().goes_out(),
        Tick::Over if session.more(many) => session.ends(Verdict::GivenUp),
        Tick::Over => session.ends(Verdict::Unconfirmed),
    }
}
