// What the host's end of a load does next on a frame (PROTOCOL 5, 'Host end').
#![tactic(auto)]

ghost use Rattle.std.specs.Prelude.{◌≡◌, ◌+◌, ◌%◌};
ghost use Rattle.load_next.specs.Next.{answered, again, on_request, on_answer, react};

use load_record::{Next, Session};
use message::Fields;
use verdict::Verdict;

// The number in the answer to the frame at a position.
fn expected(position: u64) -> u8
    ensures { result ≡ (position + 1) % 256 }
{
    ((position % 256 + 1) % 256) as u8
}

// Whether the load may begin again; `restart` is the mark of C's settings.
fn again(restart: u8, h: Session) -> bool
    ensures { result ≡ again restart h }
{
    restart == 1 && 1 <= h.position && h.restarts < load_record::MOST_RESTARTS
}

// A machine asks for a program: the first frame goes out, or goes out again.
fn on_request(restart: u8, h: Session, program: u8) -> Next
    ensures { result ≡ on_request restart h program }
{
    if program != 2 {
        return h.ignored();
    }
    if h.waiting == 1 {
        return h.reached(0).goes_out();
    }
    if again(restart, h) {
        return h.restarted().goes_out();
    }
    h.ignored()
}

// The frame on its way was taken: the next one, or finished.
fn answered(many: u64, h: Session) -> Next
    ensures { result ≡ answered many h }
{
    if h.more(many) {
        return h.reached(h.position + 1).goes_out();
    }
    h.reached(many).ends(Verdict::Finished)
}

// The machine answers the frame on its way.
fn on_answer(many: u64, h: Session, number: u8, error: u8) -> Next
    ensures { result ≡ on_answer many h number error }
{
    if h.waiting != 0 || number != expected(h.position) {
        return h.ignored();
    }
    if error != 0 {
        return h.ends(Verdict::Rejected);
    }
    answered(many, h)
}

// On a frame it decides by its code, which is a number for C, and by the restart setting; `many` frames make the load.
pub fn react(many: u64, restart: u8, session: Session, f: Fields) -> Next
    ensures { result ≡ react many restart session f }
{
    if !session.running() {
        return session.ignored();
    }
    match f.code {
        8 => on_request(restart, session, f.program),
        10 => on_answer(many, session, f.number, f.error),
        _ => session.ignored(),
    }
}
