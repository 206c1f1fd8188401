// The record of the host's end of a load, and its named updates (PROTOCOL 5, 'Host end').
#![tactic(auto)]

ghost use Rattle.std.specs.Prelude.{◌≡◌, true, false, ◌<◌, ◌≤◌, eqb};
ghost use Rattle.counts.specs.Counts.{below};
ghost use Rattle.load_record.specs.Record.{fresh, reached, restarted, repeated, ignores, goes_out, ends, more, standing, with_counts, tallied};
ghost use Rattle.verdict.specs.Verdict.{number};

use counts::{Counts, Standing};
use verdict::Verdict;

// The most restarts of a load.
pub const MOST_RESTARTS: u32 = 65535;

// Its settings: S, the bytes of a segment; R, the repeats allowed per frame; whether a parameter string ends the load (1)
// or not (0); the version; and whether a request half-way begins the load again (1) or not (0). The marks are numbers, since
// C gives the settings and may give any.
#[repr(C)]
#[derive(Clone, Copy)]
pub struct Settings {
    pub segment_size: u32,
    pub repeats: u32,
    pub with_parameters: u8,
    pub version: u8,
    pub restart: u8,
}

// Its record: c, the frames answered; the frames sent; what the frames that it was handed came to; the repeats of the frame
// on its way; how often the load began again; whether it still waits for a request (1) or not (0); the verdict: 0 running,
// 1 finished, 2 rejected, 3 given up, 4 unconfirmed. Mark and verdict are numbers, since C has the record and may give any.
#[repr(C)]
#[derive(Clone, Copy)]
pub struct Session {
    pub position: u64,
    pub sent: u64,
    pub counts: Counts,
    pub repeats: u32,
    pub restarts: u32,
    pub waiting: u8,
    pub verdict: u8,
}

// What it does next: its record, of which `tallied` raises a count, and whether the frame at the record's position goes out.
#[derive(Clone, Copy)]
pub struct Next {
    pub session: Session,
    pub sends: bool,
}

// A waiting host.
pub fn start() -> Session
    ensures { result ≡ fresh }
{
    Session {
        position: 0,
        sent: 0,
        counts: Counts::zero(),
        repeats: 0,
        restarts: 0,
        waiting: 1,
        verdict: Verdict::Running.into(),
    }
}

// A dump's record and a loop test's have methods like these. A record is C's, and `Next` has other fields in each: a trait
// over them would need a reader and a setter of each field that they use, and be no plainer.
impl Session {
    // Whether there is no verdict yet.
    pub fn running(self) -> bool
        ensures { result ≡ eqb self.verdict 0 }
    {
        self.verdict == Verdict::Running.into()
    }

    // The frame at a position is on its way.
    pub fn reached(self, position: u64) -> Session
        ensures { result ≡ reached self position }
    {
        Session {
            position,
            repeats: 0,
            waiting: 0,
            ..self
        }
    }

    // The load begins again, if there is a number for it.
    pub fn restarted(self) -> Session
        ensures { (self.restarts < 4294967295 → result ≡ restarted self) × (4294967295 ≤ self.restarts → result ≡ self) }
    {
        match self.restarts.checked_add(1) {
            Some(restarts) => Session {
                position: 0,
                repeats: 0,
                restarts,
                waiting: 0,
                ..self
            },
            None => self,
        }
    }

    // One more repeat is used, if there is a number for it. Two cases, as the definition `repeated` has no largest number.
    pub fn repeated(self) -> Session
        ensures { (self.repeats < 4294967295 → result ≡ repeated self) × (4294967295 ≤ self.repeats → result ≡ self) }
    {
        Session {
            repeats: self.repeats.saturating_add(1),
            ..self
        }
    }

    // Nothing changes, and nothing goes out. Two functions and no flag: the definitions `ignores` and `goes_out` are two.
    pub fn ignored(self) -> Next
        ensures { result ≡ ignores self }
    {
        Next {
            session: self,
            sends: false,
        }
    }

    // The frame at the record's position goes out.
    pub fn goes_out(self) -> Next
        ensures { result ≡ goes_out self }
    {
        Next {
            session: self,
            sends: true,
        }
    }

    // The load ends with a verdict.
    pub fn ends(self, verdict: Verdict) -> Next
        ensures { result ≡ ends self (number verdict) }
    {
        Next {
            session: Session {
                verdict: verdict.into(),
                ..self
            },
            sends: false,
        }
    }

    // Whether a frame follows the one on its way, of so many.
    pub fn more(self, many: u64) -> bool
        ensures { result ≡ more many self }
    {
        self.position < many.saturating_sub(1)
    }

    // Where it stands, for the counts. `Standing::from` would be the same four fields, under a head of three lines.
    pub fn standing(self) -> Standing
        ensures { result ≡ standing self }
    {
        Standing {
            reached: self.position,
            restarts: self.restarts,
            waiting: self.waiting,
            verdict: self.verdict,
        }
    }

    // The frame is counted that brought this record to what is done next, if there are numbers for it.
    pub fn tallied(self, next: Next) -> Next
        ensures { (below self.counts ≡ true → result ≡ tallied self next) × (below self.counts ≡ false → result ≡ with_counts self.counts next) }
    {
        let counts = self.counts.tally(self.standing(), next.session.standing());
        Next {
            session: Session {
                counts,
                ..next.session
            },
            ..next
        }
    }
}
