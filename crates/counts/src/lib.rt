// What the frames came to that the host of a load or of a dump was handed (PROTOCOL 5, 'Host end', counts).
#![tactic(auto)]

ghost use Rattle.std.specs.Prelude.{◌≡◌, true, false};
ghost use Rattle.counts.specs.Counts.{zero, below, only_ignored, begins, tally};

use verdict::Verdict;

// A record with a count as high is bad.
pub const TOP: u64 = u64::MAX;

// The frames that ended the waiting or began a load again, moved the session on, moved nothing, and rejected it.
#[repr(C)]
#[derive(Clone, Copy)]
pub struct Counts {
    pub starts: u64,
    pub advances: u64,
    pub ignored: u64,
    pub rejections: u64,
}

// Where a session stands: c of a load, the bytes filled of a dump; how often a load began again; whether it waits; the
// verdict. The last two are the numbers of C's record.
#[derive(Clone, Copy)]
pub struct Standing {
    pub reached: u64,
    pub restarts: u32,
    pub waiting: u8,
    pub verdict: u8,
}

// Whether the waiting is over, or the load begins again.
fn begins(before: Standing, after: Standing) -> bool
    ensures { result ≡ begins before after }
{
    before.restarts < after.restarts || (before.waiting == 1 && after.waiting == 0)
}

impl Counts {
    // No frame yet.
    pub fn zero() -> Counts
        ensures { result ≡ zero }
    {
        Counts {
            starts: 0,
            advances: 0,
            ignored: 0,
            rejections: 0,
        }
    }

    // Whether every count is below 2^64 - 1.
    pub fn below(self) -> bool
        ensures { result ≡ below self }
    {
        self.starts < TOP && self.advances < TOP && self.ignored < TOP && self.rejections < TOP
    }

    // Whether no count but that of ignored frames is above 0.
    pub fn only_ignored(self) -> bool
        ensures { result ≡ only_ignored self }
    {
        self.starts == 0 && self.advances == 0 && self.rejections == 0
    }

    // The counts after a frame: one is raised, while there is no verdict and there are numbers for it.
    pub fn tally(self, before: Standing, after: Standing) -> Counts
        ensures { (below self ≡ true → result ≡ tally before after self) × (below self ≡ false → result ≡ self) }
    {
        if !self.below() || before.verdict != Verdict::Running.into() {
            return self;
        }
        if begins(before, after) {
            return Counts {
                starts: self.starts + 1,
                ..self
            };
        }
        if before.reached < after.reached {
            return Counts {
                advances: self.advances + 1,
                ..self
            };
        }
        if after.verdict == Verdict::Rejected.into() {
            return Counts {
                rejections: self.rejections + 1,
                ..self
            };
        }
        Counts {
            ignored: self.ignored + 1,
            ..self
        }
    }
}
