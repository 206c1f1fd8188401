// What the host's loop test does next on a timer (PROTOCOL 5, 'Host end').
#![tactic(auto)]

ghost use Rattle.std.specs.Prelude.{◌≡◌, ◌<◌};
ghost use Rattle.looptest_timer.specs.Timer.{waits, again, on_timer};

use looptest_record::{Session, Settings, Verdict};
use retransmission::{Tick, ticked};

// What it does on a timer: its record but for the count of frames, and whether its frame goes out.
// A load's has the same two fields over another record: one generic type would put the record's name into each definition
// that speaks of either.
#[derive(Clone, Copy)]
pub struct Next {
    pub session: Session,
    pub sends: bool,
}

impl Next {
    // Nothing goes out. Two functions and no flag: the definitions `waits` and `again` are two.
    fn waits(session: Session) -> Next
        ensures { result ≡ waits session }
    {
        Next {
            session,
            sends: false,
        }
    }

    // The test's frame goes out again.
    fn again(session: Session) -> Next
        ensures { result ≡ again session }
    {
        Next {
            session,
            sends: true,
        }
    }
}

// On a timer: the frame again if fewer than R repeats are used, otherwise given up.
pub fn on_timer(settings: Settings, session: Session) -> Next
    ensures { result ≡ on_timer settings session }
{
    match ticked(session.open(), true, session.repeats, settings.repeats) {
        Tick::Nothing => Next::waits(session),
        Tick::Again => Next::again(session.repeated()),
        Tick::Over => Next::waits(session.ended(Verdict::GivenUp)),
    }
}
