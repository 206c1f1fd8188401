// The record of the host's end of a dump (PROTOCOL 5, 'Host end'): its settings, its updates, and what can be done next.
#![tactic(auto)]

ghost use Rattle.std.specs.Prelude.{◌≡◌, true, false, ◌<◌, ◌≤◌, eqb};
ghost use Rattle.counts.specs.Counts.{below};
ghost use Rattle.dump_record.specs.Record.{fresh, asked, reached, repeated, ignores, asks, completes, standing, with_counts, tallied};
ghost use Rattle.verdict.specs.Verdict.{number};

use counts::{Counts, Standing};
use verdict::Verdict;

// Its settings: L bytes from address A; C, the most bytes asked for at a time; R, the repeats allowed per frame; and the
// version.
#[repr(C)]
#[derive(Clone, Copy)]
pub struct Settings {
    pub length: u64,
    pub address: u32,
    pub request_bytes: u32,
    pub repeats: u32,
    pub version: u8,
}

// Its record: the bytes filled, the replies taken, the frames sent; what the frames that it was handed came to; the repeats
// of the frame on its way; whether it still waits for an offer (1) or not (0); the verdict: 0 running, 1 finished, 3 given
// up. Mark and verdict are numbers, since C has the record and may give any.
#[repr(C)]
#[derive(Clone, Copy)]
pub struct Session {
    pub filled: u64,
    pub replies: u64,
    pub sent: u64,
    pub counts: Counts,
    pub repeats: u32,
    pub waiting: u8,
    pub verdict: u8,
}

// What goes out: nothing, a request for what is missing (code 4), or the end of the dump (code 1).
#[derive(Clone, Copy)]
pub enum Sends {
    Nothing,
    Request,
    Complete,
}

// What it does next: its record, of which `tallied` raises a count, whether a reply's bytes are taken, and what goes out.
#[derive(Clone, Copy)]
pub struct Next {
    pub session: Session,
    pub takes: bool,
    pub sends: Sends,
}

// A waiting host.
pub fn start() -> Session
    ensures { result ≡ fresh }
{
    Session {
        filled: 0,
        replies: 0,
        sent: 0,
        counts: Counts::zero(),
        repeats: 0,
        waiting: 1,
        verdict: Verdict::Running.into(),
    }
}

// A load's record and a loop test's have methods like these. A record is C's, and `Next` has other fields in each: a trait
// over them would need a reader and a setter of each field that they use, and be no plainer.
impl Session {
    // Whether there is no verdict yet.
    pub fn running(self) -> bool
        ensures { result ≡ eqb self.verdict 0 }
    {
        self.verdict == Verdict::Running.into()
    }

    // How many bytes to ask for: the lesser of C and what is missing.
    pub fn asked(self, s: Settings) -> u64
        ensures { result ≡ asked s self }
    {
        u64::from(s.request_bytes).min(s.length.saturating_sub(self.filled))
    }

    // It asks, with so many bytes filled.
    pub fn reached(self, filled: u64) -> Session
        ensures { result ≡ reached self filled }
    {
        Session {
            filled,
            repeats: 0,
            waiting: 0,
            ..self
        }
    }

    // One more repeat is used, if there is a number for it. Two cases, as the definition `repeated` has no largest number.
    pub fn repeated(self) -> Session
        ensures { (self.repeats < 4294967295 → result ≡ repeated self) × (4294967295 ≤ self.repeats → result ≡ self) }
    {
        Session {
            repeats: self.repeats.saturating_add(1),
            ..self
        }
    }

    // Nothing changes, and nothing goes out. Two functions and no flag: the definitions `ignores` and `asks` are two.
    pub fn ignored(self) -> Next
        ensures { result ≡ ignores self }
    {
        Next {
            session: self,
            takes: false,
            sends: Sends::Nothing,
        }
    }

    // The next bytes are asked for.
    pub fn asks(self, takes: bool) -> Next
        ensures { result ≡ asks self takes }
    {
        Next {
            session: self,
            takes,
            sends: Sends::Request,
        }
    }

    // The dump ends with a verdict.
    pub fn completes(self, verdict: Verdict, takes: bool) -> Next
        ensures { result ≡ completes self (number verdict) takes }
    {
        Next {
            session: Session {
                verdict: verdict.into(),
                ..self
            },
            takes,
            sends: Sends::Complete,
        }
    }

    // Where it stands, for the counts. `Standing::from` would be the same four fields, under a head of three lines.
    pub fn standing(self) -> Standing
        ensures { result ≡ standing self }
    {
        Standing {
            reached: self.filled,
            restarts: 0,
            waiting: self.waiting,
            verdict: self.verdict,
        }
    }

    // The frame is counted that brought this record to what is done next, if there are numbers for it.
    pub fn tallied(self, next: Next) -> Next
        ensures { (below self.counts ≡ true → result ≡ tallied self next) × (below self.counts ≡ false → result ≡ with_counts self.counts next) }
    {
        let counts = self.counts.tally(self.standing(), next.session.standing());
        Next {
            session: Session {
                counts,
                ..next.session
            },
            ..next
        }
    }
}
