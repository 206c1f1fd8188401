// What became of a load or of a dump (PROTOCOL 5, 'Host end').
#![tactic(auto)]

ghost use Rattle.std.specs.Prelude.{◌≡◌};
ghost use Rattle.verdict.specs.Verdict.{number};

// The verdicts of a host's record, by their numbers; only a load is rejected or unconfirmed.
#[derive(Clone, Copy, PartialEq, Eq)]
pub enum Verdict {
    Running = 0,
    Finished = 1,
    Rejected = 2,
    GivenUp = 3,
    Unconfirmed = 4,
}

impl From<Verdict> for u8 {
    ghost from_gives = { λ v n. n ≡ number v };

    // Its number.
    fn from(v: Verdict) -> u8 {
        v as u8
    }
}
