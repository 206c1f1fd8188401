// The machine end's calls (PROTOCOL 4, 'Machine end'): a step on a frame; those on timers are machine_timer's.
#![tactic(auto)]

ghost use Rattle.std.specs.Prelude.{◌≡◌, cond, ℕ, ◌≤◌, length};
ghost use Rattle.buffer.specs.Lay.{Came, written_of};
ghost use Rattle.memory.specs.Memory.{deposited};
ghost use Rattle.message.specs.Message.{looped_data};
ghost use Rattle.message.specs.Read.{part};
ghost use Rattle.message.specs.Write.{write};
ghost use Rattle.step.specs.Step.{acts, gives, Leaves};
ghost use Rattle.parameters.specs.Parameters.{kept};
ghost use Rattle.machine_record.specs.declared.Machine.{Machine};
ghost use Rattle.machine_record.specs.Record.{keeping};
ghost use Rattle.machine_next.specs.Next.{sending, stored};
ghost use Rattle.machine.specs.Machine.{machine_frame};
ghost use Rattle.machine.specs.Inner.{Short};

use heard::{Heard, hear};
use machine_next::Sends;
use machine_record::{Machine, Settings};
use parameters::Parameters;
use refusal::Refusal;

// Code 26: the frame's data again.
fn looped(heard: Heard, reply: &mut [u8]) -> Result<usize, Refusal>
    ensures { (version : ℕ) → Came (write version (looped_data heard.entry.f.receipt (part heard.entry.frame.now heard.entry.f)) reply.old) (written_of result) reply.new }
{
    writer::looped_data(heard.f.receipt, heard.data(), reply)
}

// What goes out on a frame: its length, 0 for none, as C's answer has it. That the reply has room for a frame is a
// `requires`: the reply is C's slice, and a type around it would be opened again for each writer.
fn send(heard: Heard, sends: Sends, memory: &[u8], reply: &mut [u8]) -> Result<usize, Refusal>
    requires short { Short (sending heard.f heard.frame.now memory.now sends) }
    requires in_bounds { 1500 ≤ length reply.old }
    ensures { (machine : Machine) → Leaves (gives (acts machine memory.now (sending heard.entry.f heard.entry.frame.now memory.now sends)) reply.old) machine (written_of result) memory.now reply.new }
{
    match sends {
        Sends::Nothing => Ok(0),
        Sends::Load(number, error) => writer::request_load(number, error, reply),
        Sends::Data(n) => memory::dump_data(heard.f.address, n, memory, reply),
        Sends::Looped => looped(heard, reply),
    }
}

// Parameters go to memory, as their block, if the version stores them there.
fn store(settings: Settings, parameters: Parameters, memory: &mut [u8])
    ensures { memory.new ≡ stored settings parameters memory.old }
{
    if version::older(settings.version) {
        let bytes = block::block(parameters, memory);
        let at = block::place(memory.len());
        memory::deposit(settings.window, &bytes, at, memory);
    }
}

// The frame's data goes to memory if it is taken; what its entries say goes into the record and to memory if they are kept.
// Two flags, as `next` and `fills` of machine_next have them.
fn fill(
    settings: Settings,
    takes: bool,
    keeps: bool,
    heard: Heard,
    machine: &mut Machine,
    memory: &mut [u8],
)
    ensures record { machine.new ≡ cond keeps (keeping machine.old (kept (part heard.entry.frame.now heard.entry.f))) machine.old }
    ensures memory { memory.new ≡ cond takes (deposited settings.window (part heard.entry.frame.now heard.entry.f) heard.entry.f.address memory.old)
        (cond keeps (stored settings machine.new.parameters memory.old) memory.old) }
{
    if keeps {
        machine.parameters = parameters::keep(heard.data());
    }
    if takes {
        memory::deposit(
            settings.window,
            heard.data(),
            heard.f.address as usize,
            memory,
        );
    } else if keeps {
        store(settings, machine.parameters, memory);
    }
}

// A step on a frame: the length of the frame to send, 0 for none.
pub fn frame(
    settings: Settings,
    machine: &mut Machine,
    frame: &[u8],
    memory: &mut [u8],
    reply: &mut [u8],
) -> Result<usize, Refusal>
    ensures { Leaves (machine_frame settings machine.old frame.now memory.old reply.old) machine.new (written_of result) memory.new reply.new }
{
    machine_checks::refusal(settings, *machine, memory.len(), reply.len())?;
    let heard = hear(settings.version, frame)?;
    let next = machine_next::react(settings, *machine, heard.f, memory.len());
    *machine = next.machine;
    let sent = send(heard, next.sends, memory, reply);
    fill(settings, next.takes, next.keeps, heard, machine, memory);
    sent
}
