// The machine's turns in a rehearsal: on the host's first frame, and at its timer (PROTOCOL 8, 'Rehearsal').
// The host's turns are another crate: `host_turns` says why.
#![tactic(auto)]

ghost use Rattle.std.specs.Prelude.{◌≡◌, List, ℕ, take};
ghost use Rattle.job.specs.Run.{run, machine_sent, machine_moves, Left, Joined};
ghost use Rattle.machine_turns.specs.Turns.{machine_handed, machine_timed, machine_turn};

use job::{Ends, Moved};
use machine_record::Settings;

// A call's frame, in the reply buffer, joins the machine's queue.
fn send(ends: Ends, sent: usize, reply: &[u8], places: &mut [[u8; 1500]; 16]) -> Moved
    ensures { Joined (machine_sent ends ends.machine) ends.from_machine places.old sent (take sent reply.now) result places.new }
{
    let ends = Ends {
        from_machine: ends.from_machine.send(reply, sent, places),
        ..ends
    };
    Moved { ends, sent }
}

// The host's first frame is handed over to the machine; without one nothing happens.
fn on_frame(
    settings: Settings,
    ends: Ends,
    memory: &mut [u8],
    host_places: &[[u8; 1500]; 16],
    places: &mut [[u8; 1500]; 16],
    reply: &mut [u8],
) -> Moved
    ensures { Left (machine_moves (run ends memory.old host_places.now places.old reply.old)
        (machine_handed settings (run ends memory.old host_places.now places.old reply.old)))
        result.ends result.sent memory.new host_places.now places.new reply.new }
{
    let frame = ends.from_host.frame(host_places);
    if frame.is_empty() {
        return Moved { ends, sent: 0 };
    }
    let mut machine = ends.machine;
    let sent = machine::frame(settings, &mut machine, frame, memory, reply).unwrap_or(0);
    send(Ends { machine, ..ends }, sent, reply, places)
}

// The machine's timer.
fn on_timer(
    settings: Settings,
    ends: Ends,
    memory: &[u8],
    places: &mut [[u8; 1500]; 16],
    reply: &mut [u8],
) -> Moved
    ensures { (hosts : List (List ℕ)) → Left (machine_moves (run ends memory.now hosts places.old reply.old)
        (machine_timed settings (run ends memory.now hosts places.old reply.old)))
        result.ends result.sent memory.now hosts places.new reply.new }
{
    let sent = machine_timer::timer(settings, ends.machine, memory, reply).unwrap_or(0);
    send(ends, sent, reply, places)
}

// The machine's timer, or the host's first frame. By a bool, as the definition `machine_turn`: `host_turns` says why.
pub fn act(
    settings: Settings,
    ends: Ends,
    timer: bool,
    memory: &mut [u8],
    host_places: &[[u8; 1500]; 16],
    places: &mut [[u8; 1500]; 16],
    reply: &mut [u8],
) -> Moved
    ensures { Left (machine_turn settings (run ends memory.old host_places.now places.old reply.old) timer)
        result.ends result.sent memory.new host_places.now places.new reply.new }
{
    if timer {
        return on_timer(settings, ends, memory, places, reply);
    }
    on_frame(settings, ends, memory, host_places, places, reply)
}
