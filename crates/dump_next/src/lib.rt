// What the host's end of a dump does next on a frame (PROTOCOL 5, 'Host end').
#![tactic(auto)]

ghost use Rattle.std.specs.Prelude.{◌≡◌, ◌≤◌};
ghost use Rattle.dump_next.specs.Next.{takes, on_offer, on_data, react};

use dump_record::{Next, Session, Settings};
use message::Fields;
use verdict::Verdict;

// A machine offers a dump: the first bytes are asked for.
fn on_offer(h: Session) -> Next
    ensures { result ≡ on_offer h }
{
    if h.waiting != 1 {
        return h.ignored();
    }
    h.reached(0).asks(false)
}

// A reply is taken: full, or the next bytes are asked for.
fn taken(s: Settings, h: Session) -> Next
    requires { h.filled ≤ s.length }
    ensures { result ≡ takes s h }
{
    let missing = s.length - h.filled;
    if missing == 0 {
        return h.completes(Verdict::Finished, true);
    }
    h.asks(true)
}

// A reply of so many bytes is taken if its address is the one sent for and it has 1 to as many bytes as asked for.
fn on_data(s: Settings, h: Session, address: u32, length: usize) -> Next
    ensures { result ≡ on_data s h address length }
{
    if h.waiting == 0
        && s.address <= address
        && u64::from(address - s.address) == h.filled
        && 1 <= length
        && length as u64 <= h.asked(s)
    {
        return taken(s, h.reached(h.filled + length as u64));
    }
    h.ignored()
}

// On a frame it decides by its code, which is a number for C.
pub fn react(settings: Settings, session: Session, f: Fields) -> Next
    ensures { result ≡ react settings session f }
{
    if !session.running() {
        return session.ignored();
    }
    match f.code {
        12 => on_offer(session),
        14 => on_data(settings, session, f.address, f.data_length),
        _ => session.ignored(),
    }
}
