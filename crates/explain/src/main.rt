// The rehearsal with words beside its transcript. Every line is written by a function of `job`, `transcript` and `remarks`;
// here bytes move between them and the system's calls. The program `rehearsal` has the same parts, of other lines; what both
// share is in `player`.
#![tactic(auto)]

ghost use Rattle.std.specs.Prelude.{◌++◌};
ghost use Rattle.job.specs.Run.{end_line};
ghost use Rattle.remarks.specs.Remarks.{remark, lost, meaning};

use job::Ends;
use player::{Teller, play, print, read_full};
use refusal::Refusal;
use std::io::{self, Write};

// A refusal's line and what it means.
fn refuse<W: Write>(out: &mut W, refusal: Refusal) -> io::Result<()> {
    let mut line = [0u8; 400];
    let bad = transcript::bad(refusal.into(), &mut line);
    print(out, &line, bad)?;
    let reason = remarks::reason(refusal.into(), &mut line);
    print(out, &line, reason)
}

// The transcript in words, of a load of so many segments.
#[derive(Drop)]
struct Remarks {
    segments: u64,
}

impl Teller for Remarks {
    ghost told = { λ t letter before after frame. remark letter before after frame ++ lost letter before frame };

    ghost last = { λ t ends memory. end_line ends memory ++ meaning ends t.segments };

    // What an event did, and a frame that it lost.
    fn event<W: Write>(
        &self,
        out: &mut W,
        letter: u8,
        before: Ends,
        after: Ends,
        frame: &[u8],
    ) -> io::Result<()> {
        let mut line = [0u8; 3400];
        let remark = remarks::remark(letter, before, after, frame, &mut line);
        print(out, &line, remark)?;
        let lost = remarks::lost(letter, before, frame, &mut line);
        print(out, &line, lost)
    }

    // The last line and what it means.
    fn end<W: Write>(&self, out: &mut W, ends: Ends, memory: &[u8]) -> io::Result<()> {
        let mut line = [0u8; 8400];
        let last = job::end(ends, memory, &mut line);
        print(out, &line, last)?;
        let meaning = remarks::meaning(ends, self.segments, &mut line);
        print(out, &line, meaning)
    }
}

// The program `rehearsal` has the same but for its teller, which needs nothing of the job: one function for both would take
// a closure that makes the teller and one for the refusal, and be no plainer.
fn main(rt: HostRuntime) -> io::Result<()> {
    let mut out = io::writer(&rt);
    let mut input = [0u8; 8193];
    let mut space = [0u8; 4096];
    let mut memory = [0u8; 4096];
    let n = read_full(&mut rt.reader(), &mut input)?;
    let job = match job::read(&input[..n], &mut space) {
        Ok(job) => job,
        Err(refused) => return refuse(&mut out, refused.refusal),
    };
    let size = job.script.memory.min(4096);
    play(
        &Remarks {
            segments: job.segments,
        },
        &mut out,
        job.setup,
        text::part(&input, job.script.events_at, job.script.events_length),
        text::part(&space, 0, job.file),
        &mut memory[..size],
    )
}
