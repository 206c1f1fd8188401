// A rehearsal's job (PROTOCOL 8, 'Rehearsal'): what its input asks for, the ends that it begins with, and
// its last line.
#![tactic(auto)]

ghost use Rattle.std.specs.Prelude.{◌≡◌};
ghost use Rattle.buffer.specs.Lay.{Came, written_of};
ghost use Rattle.text.specs.Text.{placed};
ghost use Rattle.job.specs.Job.{setup, job, nothing, Asked, reading};
ghost use Rattle.job.specs.Run.{host_sends, frame_line, fresh_ends, end_line};

use load_record::Session;
use machine_record::{Machine, State};
use queue::Queue;
use refusal::Refusal;
use script::Script;
use window::Window;

// The settings of both ends.
#[derive(Clone, Copy)]
pub struct Setup {
    pub host: load_record::Settings,
    pub machine: machine_record::Settings,
}

// What an input asks for: the settings, its numbers and letters, and the image's lengths in bytes and in segments.
#[derive(Clone, Copy)]
pub struct Job {
    pub setup: Setup,
    pub script: Script,
    pub file: usize,
    pub segments: u64,
}

// Why an input is refused, and what it asked for as far as it was read: nothing where its form is wrong; else all but the
// image's segments.
#[derive(Clone, Copy)]
pub struct Refused {
    pub refusal: Refusal,
    pub job: Job,
}

// Both ends, and the queues of what each has sent.
#[derive(Clone, Copy)]
pub struct Ends {
    pub session: Session,
    pub machine: Machine,
    pub from_host: Queue,
    pub from_machine: Queue,
}

// What a step leaves: both ends, and the length of the frame in the reply buffer that was sent, 0 for none, as the
// definition `Step` has it: no bytes are no frame.
#[derive(Clone, Copy)]
pub struct Moved {
    pub ends: Ends,
    pub sent: usize,
}

// The settings of both ends: without a parameter string, restarts or a ROM window. The machine's dump setting plays no part
// in a load.
fn prepare(script: Script) -> Setup
    ensures { result ≡ setup script }
{
    Setup {
        host: load_record::Settings {
            segment_size: script.segment_size,
            repeats: script.repeats,
            with_parameters: 0,
            version: version::V3_0,
            restart: 0,
        },
        machine: machine_record::Settings {
            reply_bytes: 1495,
            device: 0,
            processor: 0,
            version: version::V3_0,
            window: Window::none(),
        },
    }
}

// An input of which nothing was read.
fn nothing() -> Script
    ensures { result ≡ nothing }
{
    Script {
        memory: 0,
        image_at: 0,
        image_length: 0,
        events_at: 0,
        events_length: 0,
        segment_size: 0,
        repeats: 0,
    }
}

// What an input asks for, with an image of so many bytes and segments.
fn asked(script: Script, file: usize, segments: u64) -> Job
    ensures { result ≡ job script file segments }
{
    Job {
        setup: prepare(script),
        script,
        file,
        segments,
    }
}

// What an input asks for: its form, then its image, whose bytes stand in the space afterwards. An image that does not fit
// there is refused as one of no bytes.
pub fn read(input: &[u8], space: &mut [u8]) -> Result<Job, Refused>
    ensures { (Asked result (reading input.now space.old).refusal (reading input.now space.old).job)
        × (space.new ≡ (reading input.now space.old).space) }
{
    let script = match script::check(input) {
        Ok(script) => script,
        Err(refusal) => return Err(Refused {
            refusal,
            job: asked(nothing(), 0, 0),
        }),
    };
    let digits = text::part(input, script.image_at, script.image_length);
    let file = hexadecimal::decode(digits, space).unwrap_or(0);
    match segments::check(text::part(space, 0, file), script.segment_size) {
        Ok(image) => Ok(asked(script, file, image.segments)),
        Err(refusal) => Err(Refused {
            refusal,
            job: asked(script, file, 0),
        }),
    }
}

// A waiting host and a Requesting machine; no frame is on its way.
pub fn fresh() -> Ends
    ensures { result ≡ fresh_ends }
{
    Ends {
        session: load_record::start(),
        machine: Machine::requesting(),
        from_host: Queue::empty(),
        from_machine: Queue::empty(),
    }
}

// Whether it is the host that may send at an event. A letter is a byte, since any other byte is an event too, at which
// nothing happens.
pub fn host_sends(letter: u8) -> bool
    ensures { result ≡ host_sends letter }
{
    matches!(letter, b't' | b'u' | b'm')
}

// The line of a frame that was sent at an event; none for no bytes.
pub fn line(letter: u8, frame: &[u8], out: &mut [u8]) -> Result<usize, Refusal>
    ensures { Came (placed (frame_line letter frame.now) out.old) (written_of result) out.new }
{
    transcript::sent(host_sends(letter), frame, out)
}

// The last line.
pub fn end(ends: Ends, memory: &[u8], line: &mut [u8]) -> Result<usize, Refusal>
    ensures { Came (placed (end_line ends memory.now) line.old) (written_of result) line.new }
{
    transcript::last(
        ends.session.verdict,
        ends.session.sent,
        ends.machine.is(State::Started),
        ends.machine.transfer,
        memory,
        line,
    )
}
