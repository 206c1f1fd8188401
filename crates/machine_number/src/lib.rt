// The number rule: what a load's number makes of it (PROTOCOL 4, 'Machine end').
#![tactic(auto)]

ghost use Rattle.std.specs.Prelude.{◌≡◌};
ghost use Rattle.machine_number.specs.Number.{after, heeds, heed};

use machine_record::{Machine, State};

// The number after a number.
pub fn after(number: u8) -> u8
    ensures { result ≡ after number }
{
    number.wrapping_add(1)
}

// What a frame's number makes of it: ignored, taken, or the last reply again.
#[derive(Clone, Copy, PartialEq, Eq)]
pub enum Heeded {
    Ignored,
    Taken,
    Again,
}

// Offering and Started ignore it; number 0, or the one that Loading expects, is taken; the one before that gets the last
// reply again.
pub fn heed(machine: Machine, number: u8) -> Heeded
    ensures { heeds result ≡ heed machine number }
{
    let loading = machine.is(State::Loading);
    if machine.is(State::Offering) || machine.is(State::Started) {
        Heeded::Ignored
    } else if number == 0 || (loading && number == machine.expected) {
        Heeded::Taken
    } else if loading && after(number) == machine.expected {
        Heeded::Again
    } else {
        Heeded::Ignored
    }
}
