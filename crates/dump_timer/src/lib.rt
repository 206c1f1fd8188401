// What the host's end of a dump does next on a timer (PROTOCOL 5, 'Host end').
#![tactic(auto)]

ghost use Rattle.std.specs.Prelude.{◌≡◌};
ghost use Rattle.dump_timer.specs.Timer.{on_timer};

use dump_record::{Next, Session, Settings};
use retransmission::{Tick, ticked};
use verdict::Verdict;

// A timer while asking: the frame again if fewer than R repeats are used; else given up.
pub fn on_timer(settings: Settings, session: Session) -> Next
    ensures { result ≡ on_timer settings session }
{
    match ticked(
        session.running(),
        session.waiting == 0,
        session.repeats,
        settings.repeats,
    ) {
        Tick::Nothing => session.ignored(),
        Tick::Again => session.repeated().asks(false),
        Tick::Over => session.completes(Verdict::GivenUp, false),
    }
}
