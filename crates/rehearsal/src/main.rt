// Runs both ends over a line as standard input says, and prints the transcript (PROTOCOL 8, 'Rehearsal'). Every line is
// written by a function of `job` and `transcript`; here bytes move between them, the events and the system's calls. The
// program `explain` has the same parts, of other lines; what both share is in `player`.
#![tactic(auto)]

ghost use Rattle.job.specs.Run.{frame_line, end_line};

use job::Ends;
use player::{Teller, play, print, read_full};
use refusal::Refusal;
use std::io::{self, Write};

// The line of a refused input.
fn refuse<W: Write>(out: &mut W, refusal: Refusal) -> io::Result<()> {
    let mut line = [0u8; 16];
    let written = transcript::bad(refusal.into(), &mut line);
    print(out, &line, written)
}

// The transcript.
struct Transcript;

impl Teller for Transcript {
    ghost told = { λ t letter before after frame. frame_line letter frame };

    ghost last = { λ t ends memory. end_line ends memory };

    // The line of a frame that was sent at an event.
    fn event<W: Write>(
        &self,
        out: &mut W,
        letter: u8,
        _before: Ends,
        _after: Ends,
        frame: &[u8],
    ) -> io::Result<()> {
        let mut line = [0u8; 3003];
        let written = job::line(letter, frame, &mut line);
        print(out, &line, written)
    }

    // The last line.
    fn end<W: Write>(&self, out: &mut W, ends: Ends, memory: &[u8]) -> io::Result<()> {
        let mut line = [0u8; 8400];
        let written = job::end(ends, memory, &mut line);
        print(out, &line, written)
    }
}

// The program `explain` has the same but for its teller, which is made of the job: one function for both would take a
// closure that makes the teller and one for the refusal, and be no plainer.
fn main(rt: HostRuntime) -> io::Result<()> {
    let mut out = io::writer(&rt);
    let mut input = [0u8; 8193];
    let mut space = [0u8; 4096];
    let mut memory = [0u8; 4096];
    let n = read_full(&mut rt.reader(), &mut input)?;
    let job = match job::read(&input[..n], &mut space) {
        Ok(job) => job,
        Err(refused) => return refuse(&mut out, refused.refusal),
    };
    let size = job.script.memory.min(4096);
    play(
        &Transcript,
        &mut out,
        job.setup,
        text::part(&input, job.script.events_at, job.script.events_length),
        text::part(&space, 0, job.file),
        &mut memory[..size],
    )
}
