// The events of a rehearsal (PROTOCOL 8, 'Rehearsal').
#![tactic(auto)]

ghost use Rattle.std.specs.Prelude.{◌≡◌};
ghost use Rattle.job.specs.Run.{run, Left};
ghost use Rattle.rehearse.specs.Inner.{machine_sends, leaving, afterwards};
ghost use Rattle.rehearse.specs.Rehearse.{host_left, machine_left, event};

use job::{Ends, Moved, Setup};

// Whether it is the machine that may send at an event; job's `host_sends` has the other letters, as the definitions have.
fn machine_sends(letter: u8) -> bool
    ensures { result ≡ machine_sends letter }
{
    matches!(letter, b'h' | b'k' | b'n')
}

// The host's first frame leaves its queue, or the machine's: two functions, since a field cannot be passed.
fn host_leaves(ends: Ends) -> Ends
    ensures { result ≡ host_left ends }
{
    Ends {
        from_host: ends.from_host.leave(),
        ..ends
    }
}

fn machine_leaves(ends: Ends) -> Ends
    ensures { result ≡ machine_left ends }
{
    Ends {
        from_machine: ends.from_machine.leave(),
        ..ends
    }
}

// The frame that leaves its queue at an event, after the turn.
fn leave(letter: u8, ends: Ends) -> Ends
    ensures { result ≡ leaving letter ends }
{
    match letter {
        b'h' | b'x' => host_leaves(ends),
        b't' | b'y' => machine_leaves(ends),
        _ => ends,
    }
}

// A step and then the frame that leaves.
fn left(letter: u8, moved: Moved) -> Moved
    ensures { result ≡ afterwards letter moved }
{
    Moved {
        ends: leave(letter, moved.ends),
        ..moved
    }
}

// One event: the turn that its letter gives to an end, if it gives one, and the frame that leaves. The letter is a byte,
// since any other byte is an event too, at which nothing happens. The buffers are apart: a struct that holds `&mut` needs
// for each field a clause that it is the same borrow.
pub fn event(
    setup: Setup,
    letter: u8,
    ends: Ends,
    file: &[u8],
    memory: &mut [u8],
    host_places: &mut [[u8; 1500]; 16],
    machine_places: &mut [[u8; 1500]; 16],
    reply: &mut [u8],
) -> Moved
    ensures { Left (event setup file.now (run ends memory.old host_places.old machine_places.old reply.old) letter)
        result.ends result.sent memory.new host_places.new machine_places.new reply.new }
{
    if machine_sends(letter) {
        let moved = machine_turns::act(
            setup.machine,
            ends,
            letter == b'n',
            memory,
            host_places,
            machine_places,
            reply,
        );
        return left(letter, moved);
    }
    if job::host_sends(letter) {
        let moved = host_turns::act(
            setup.host,
            ends,
            letter == b'm',
            file,
            machine_places,
            host_places,
            reply,
        );
        return left(letter, moved);
    }
    left(letter, Moved { ends, sent: 0 })
}
