// The host's turns in a rehearsal: on the machine's first frame, and at its timer (PROTOCOL 8, 'Rehearsal').
// The machine's turns are another crate: they are lent memory to change where these read a file, and one contract for both
// would say of each end what is so of the other alone.
#![tactic(auto)]

ghost use Rattle.std.specs.Prelude.{◌≡◌, List, ℕ, take};
ghost use Rattle.job.specs.Run.{run, host_sent, host_moves, Left, Joined};
ghost use Rattle.host_turns.specs.Turns.{host_handed, host_timed, host_turn};

use job::{Ends, Moved};
use load_record::Settings;

// A call's frame, in the reply buffer, joins the host's queue.
fn send(ends: Ends, sent: usize, reply: &[u8], places: &mut [[u8; 1500]; 16]) -> Moved
    ensures { Joined (host_sent ends ends.session) ends.from_host places.old sent (take sent reply.now) result places.new }
{
    let ends = Ends {
        from_host: ends.from_host.send(reply, sent, places),
        ..ends
    };
    Moved { ends, sent }
}

// The machine's first frame is handed over to the host; without one nothing happens.
fn on_frame(
    settings: Settings,
    ends: Ends,
    file: &[u8],
    machine_places: &[[u8; 1500]; 16],
    places: &mut [[u8; 1500]; 16],
    reply: &mut [u8],
) -> Moved
    ensures { (memory : List ℕ) → Left (host_moves (run ends memory places.old machine_places.now reply.old)
        (host_handed settings file.now (run ends memory places.old machine_places.now reply.old)))
        result.ends result.sent memory places.new machine_places.now reply.new }
{
    let frame = ends.from_machine.frame(machine_places);
    if frame.is_empty() {
        return Moved { ends, sent: 0 };
    }
    let mut session = ends.session;
    let sent = load::frame(settings, &mut session, file, &[], frame, reply).unwrap_or(0);
    send(Ends { session, ..ends }, sent, reply, places)
}

// The host's timer.
fn on_timer(
    settings: Settings,
    ends: Ends,
    file: &[u8],
    places: &mut [[u8; 1500]; 16],
    reply: &mut [u8],
) -> Moved
    ensures { (memory : List ℕ) (machines : List (List ℕ)) → Left (host_moves (run ends memory places.old machines reply.old)
        (host_timed settings file.now (run ends memory places.old machines reply.old)))
        result.ends result.sent memory places.new machines reply.new }
{
    let mut session = ends.session;
    let sent = load::timer(settings, &mut session, file, &[], reply).unwrap_or(0);
    send(Ends { session, ..ends }, sent, reply, places)
}

// The host's timer, or the machine's first frame. By a bool, as the definition `host_turn`: `rehearse::event` gives its
// values once, and not once for each of both.
pub fn act(
    settings: Settings,
    ends: Ends,
    timer: bool,
    file: &[u8],
    machine_places: &[[u8; 1500]; 16],
    places: &mut [[u8; 1500]; 16],
    reply: &mut [u8],
) -> Moved
    ensures { (memory : List ℕ) → Left (host_turn settings file.now (run ends memory places.old machine_places.now reply.old) timer)
        result.ends result.sent memory places.new machine_places.now reply.new }
{
    if timer {
        return on_timer(settings, ends, file, places, reply);
    }
    on_frame(settings, ends, file, machine_places, places, reply)
}
