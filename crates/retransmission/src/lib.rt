// What an end of the host does on a timer (PROTOCOL 5, 'Host end'): R repeats, then a verdict, then nothing.
#![tactic(auto)]

ghost use Rattle.std.specs.Prelude.{◌≡◌, ◌<◌};
ghost use Rattle.retransmission.specs.Retransmission.{ticked};

// What a timer is to an end: nothing, its frame again, or the verdict where no answer came.
#[derive(Clone, Copy)]
pub enum Tick {
    Nothing,
    Again,
    Over,
}

// While the end runs and its frame is on its way: the frame again if fewer than R repeats are used, else it is over.
pub fn ticked(running: bool, sending: bool, repeats: u32, limit: u32) -> Tick
    ensures is { result ≡ ticked running sending repeats limit }
    ensures few { result ≡ Tick.Again → repeats < limit }
{
    if !running || !sending {
        Tick::Nothing
    } else if repeats < limit {
        Tick::Again
    } else {
        Tick::Over
    }
}
