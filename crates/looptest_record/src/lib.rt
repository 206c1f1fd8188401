// The record of the host's loop test (PROTOCOL 5, 'Host end'): its settings, its verdicts and its updates.
#![tactic(auto)]

ghost use Rattle.std.specs.Prelude.{◌≡◌, ◌<◌, ◌≤◌, eqb};
ghost use Rattle.looptest_record.specs.Record.{number, ended, repeated};

// Its settings: R, the repeats allowed, the receipt that its frame carries, and the version.
#[repr(C)]
#[derive(Clone, Copy)]
pub struct Settings {
    pub repeats: u32,
    pub receipt: u16,
    pub version: u8,
}

// Its record: the frames sent, the repeats, the verdict: 0 open, 1 code 26 came, 2 code 24 came from a plug, 3 given up;
// a number, since C has the record and may give any.
#[repr(C)]
#[derive(Clone, Copy)]
pub struct Session {
    pub sent: u64,
    pub repeats: u32,
    pub verdict: u8,
}

// The verdicts of a loop test, by their numbers.
#[derive(Clone, Copy, PartialEq, Eq)]
pub enum Verdict {
    Open = 0,
    Looped = 1,
    Plugged = 2,
    GivenUp = 3,
}

impl From<Verdict> for u8 {
    ghost from_gives = { λ v n. n ≡ number v };

    // Its number.
    fn from(v: Verdict) -> u8 {
        v as u8
    }
}

// A load's record and a dump's have methods like these, and C's structs with other fields (load_record says why no trait).
impl Session {
    // Whether there is no verdict yet.
    pub fn open(self) -> bool
        ensures { result ≡ eqb self.verdict 0 }
    {
        self.verdict == Verdict::Open.into()
    }

    // There is a verdict.
    pub fn ended(self, verdict: Verdict) -> Session
        ensures { result ≡ ended self (number verdict) }
    {
        Session {
            verdict: verdict.into(),
            ..self
        }
    }

    // One more repeat is used, if there is a number for it. Two cases, as the definition `repeated` has no largest number.
    pub fn repeated(self) -> Session
        ensures { (self.repeats < 4294967295 → result ≡ repeated self) × (4294967295 ≤ self.repeats → result ≡ self) }
    {
        Session {
            repeats: self.repeats.saturating_add(1),
            ..self
        }
    }
}
