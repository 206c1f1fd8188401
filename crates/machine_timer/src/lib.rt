// What the machine end sends by itself: at the start and at each timer (PROTOCOL 4, 'Machine end').
#![tactic(auto)]

ghost use Rattle.std.specs.Prelude.{◌≡◌, ◌<◌, List, [], ℕ, ◌≤◌, length};
ghost use Rattle.buffer.specs.Lay.{Came, written_of};
ghost use Rattle.message.specs.Message.{request_program, request_dump_service};
ghost use Rattle.message.specs.Write.{sent};
ghost use Rattle.step.specs.Step.{gives, Leaves};
ghost use Rattle.machine_timer.specs.Timer.{on_timer, machine_timer};

use machine_record::{Machine, Settings, State};
use refusal::Refusal;

// Code 8, asked for by Requesting. That the reply has room for a frame is a `requires` here and below: the reply is C's
// slice, and a type around it would be opened again for each writer.
fn ask_load(settings: Settings, reply: &mut [u8]) -> Result<usize, Refusal>
    requires { 1500 ≤ length reply.old }
    ensures { Came (sent (request_program settings.device 1 2 255 [] settings.processor []) reply.old) (written_of result) reply.new }
{
    writer_listed::request_program(
        settings.device,
        1,
        2,
        255,
        &[],
        settings.processor,
        &[],
        reply,
    )
}

// Code 12, asked for by Offering.
fn ask_dump(settings: Settings, size: u32, reply: &mut [u8]) -> Result<usize, Refusal>
    requires { 1500 ≤ length reply.old }
    ensures { Came (sent (request_dump_service settings.device 1 size 0 []) reply.old) (written_of result) reply.new }
{
    writer::request_dump_service(settings.device, 1, size, 0, &[], reply)
}

// What a timer sends, with a memory of this size.
fn on_timer(
    settings: Settings,
    machine: Machine,
    size: usize,
    reply: &mut [u8],
) -> Result<usize, Refusal>
    requires size_bound { size ≤ 16777216 }
    requires in_bounds { 1500 ≤ length reply.old }
    ensures { (memory : List ℕ) → length memory ≡ size
        → Leaves (gives (on_timer settings machine memory) reply.old) machine (written_of result) memory reply.new }
{
    match State::try_from(machine.state) {
        Ok(State::Requesting) => ask_load(settings, reply),
        Ok(State::Offering) => ask_dump(settings, size as u32, reply),
        _ => Ok(0),
    }
}

// A step on a timer: the length of the frame to send, 0 for none. The machine stays as it is.
pub fn timer(
    settings: Settings,
    machine: Machine,
    memory: &[u8],
    reply: &mut [u8],
) -> Result<usize, Refusal>
    ensures { Leaves (machine_timer settings machine memory.now reply.old) machine (written_of result) memory.now reply.new }
{
    machine_checks::refusal(settings, machine, memory.len(), reply.len())?;
    on_timer(settings, machine, memory.len(), reply)
}
