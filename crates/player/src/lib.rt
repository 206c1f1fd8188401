// What the programs share that run a rehearsal: the input, and the events in turn. What is told of an event is a program's.
#![tactic(auto)]

ghost use Rattle.std.specs.Prelude.{◌≡◌, ℕ, List, ◌≤◌, length, take, IfOk, OnOk};
ghost use Rattle.std.specs.Result.{result_unwrap_or};
ghost use Rattle.std.specs.Io.KnownBytes.{Appends};
ghost use Rattle.job.specs.declared.Ends.{Ends};
ghost use Rattle.rehearse.specs.Rehearse.{event, after};
ghost use Rattle.player.specs.Play.{run_of, start, all, told_of, printed};

use job::{Ends, Setup};
use refusal::Refusal;
use std::io::{self, Read, Write};

// What a program tells of a rehearsal.
pub trait Teller {
    // What it prints of an event, by the letter, both ends before it and after it, and the frame that was sent.
    ghost told: { Self → ℕ → Ends → Ends → List ℕ → List ℕ };

    // What it prints of the end, by both ends and the memory.
    ghost last: { Self → Ends → List ℕ → List ℕ };

    // Of an event: both ends before it and after it, and the frame that was sent at it.
    fn event<W: Write>(
        &self,
        out: &mut W,
        letter: u8,
        before: Ends,
        after: Ends,
        frame: &[u8],
    ) -> io::Result<()>
        ensures { length frame.now ≤ 1500
            → OnOk result (Appends (W.contents out.old) (W.contents out.new) (told self.now letter before after frame.now)) };

    // Of the end.
    fn end<W: Write>(&self, out: &mut W, ends: Ends, memory: &[u8]) -> io::Result<()>
        ensures { length memory.now ≤ 4096
            → OnOk result (Appends (W.contents out.old) (W.contents out.new) (last self.now ends memory.now)) };
}

// Prints the line that was written at a buffer's start; nothing of one that was refused.
pub fn print<W: Write>(out: &mut W, buffer: &[u8], line: Result<usize, Refusal>) -> io::Result<()>
    ensures { OnOk result (Appends (W.contents out.old) (W.contents out.new) (take (result_unwrap_or line 0) buffer.now)) }
{
    out.write_all(text::part(buffer, 0, line.unwrap_or(0)))
}

// Reads until a buffer is full or the input ends, and answers how many bytes came. It counts by hand: how many calls it
// takes depends on what the input gives.
pub fn read_full<R: Read>(input: &mut R, buffer: &mut [u8]) -> io::Result<usize>
    ensures { IfOk result (λ n. n ≤ length buffer.new) }
{
    let mut at = 0;
    while at < buffer.len() {
        let n = input.read(&mut buffer[at..])?;
        if n == 0 {
            return Ok(at);
        }
        at += n;
    }
    Ok(at)
}

// A rehearsal on its way: both ends, the places of their queues, and the reply buffer that each call is lent.
#[derive(Drop)]
struct Rehearsal {
    ends: Ends,
    host_places: [[u8; 1500]; 16],
    machine_places: [[u8; 1500]; 16],
    reply: [u8; 1500],
}

impl Rehearsal {
    // An event, and what is told of it. File and memory are lent: `rehearse::event` says why they are no fields.
    fn event<T: Teller, W: Write>(
        &mut self,
        teller: &T,
        out: &mut W,
        setup: Setup,
        letter: u8,
        file: &[u8],
        memory: &mut [u8],
    ) -> io::Result<()>
        ensures run { run_of self.new memory.new ≡ (event setup file.now (run_of self.old memory.old) letter).run }
        ensures room { length self.new.reply ≡ length self.old.reply }
        ensures bytes { length self.old.reply ≤ 1500
            → OnOk result (Appends (W.contents out.old) (W.contents out.new) (told_of setup file.now (T.told teller.now) (run_of self.old memory.old) letter)) }
    {
        let before = self.ends;
        let moved = rehearse::event(
            setup,
            letter,
            before,
            file,
            memory,
            &mut self.host_places,
            &mut self.machine_places,
            &mut self.reply,
        );
        self.ends = moved.ends;
        let frame = text::part(&self.reply, 0, moved.sent);
        teller.event(out, letter, before, moved.ends, frame)
    }
}

// The machine's first frame, which it sends as at its timer, the events in turn, the end.
pub fn play<T: Teller, W: Write>(
    teller: &T,
    out: &mut W,
    setup: Setup,
    letters: &[u8],
    file: &[u8],
    memory: &mut [u8],
) -> io::Result<()>
    ensures memory { OnOk result (memory.new ≡ (after setup file.now (start memory.old) (all letters.now)).memory) }
    ensures bytes { length memory.old ≤ 4096
        → OnOk result (Appends (W.contents out.old) (W.contents out.new)
        (printed setup file.now (T.told teller.now) (T.last teller.now) (start memory.old) (all letters.now))) }
{
    let mut rehearsal = Rehearsal {
        ends: job::fresh(),
        host_places: [[0; 1500]; 16],
        machine_places: [[0; 1500]; 16],
        reply: [0; 1500],
    };
    rehearsal.event(teller, out, setup, b'n', file, memory)?;
    for letter in letters {
        rehearsal.event(teller, out, setup, *letter, file, memory)?;
    }
    teller.end(out, rehearsal.ends, memory)
}
