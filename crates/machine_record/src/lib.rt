// The machine end's settings and record (PROTOCOL 4, 'Machine end'), and what a step gives.
#![tactic(auto)]

ghost use Rattle.std.specs.Prelude.{◌≡◌, ◌<◌, MatchResult};
ghost use Rattle.refusal.specs.declared.Refusal.TheVariants.{Setting};
ghost use Rattle.machine_record.specs.Record.{number, in_state, idle, offering, requesting, loading, started, keeping, is};

use buffer::Written;
use parameters::Parameters;
use refusal::Refusal;
use window::Window;

// Its settings: D, the most bytes of a dump reply; its device and processor; its version; its ROM window.
#[repr(C)]
#[derive(Clone, Copy)]
pub struct Settings {
    pub reply_bytes: u32,
    pub device: u8,
    pub processor: u8,
    pub version: u8,
    pub window: Window,
}

// The machine end's states, by their numbers.
#[derive(Clone, Copy, PartialEq, Eq)]
pub enum State {
    Idle = 0,
    Offering = 1,
    Requesting = 2,
    Loading = 3,
    Started = 4,
}

impl From<State> for u8 {
    ghost from_gives = { λ s n. n ≡ number s };

    // Its number.
    fn from(s: State) -> u8 {
        s as u8
    }
}

impl TryFrom<u8> for State {
    type Error = Refusal;

    ghost try_from_gives = { λ n r. MatchResult r (λ s. number s ≡ n) (λ e. (e ≡ Setting) × (4 < n)) };

    // The state of a number, if it is one.
    fn try_from(n: u8) -> Result<State, Refusal> {
        match n {
            0 => Ok(State::Idle),
            1 => Ok(State::Offering),
            2 => Ok(State::Requesting),
            3 => Ok(State::Loading),
            4 => Ok(State::Started),
            _ => Err(Refusal::Setting),
        }
    }
}

// Its state: 0 Idle, 1 Offering, 2 Requesting, 3 Loading, 4 Started; Loading's expected number and last reply's error,
// Started's transfer address, and the parameters that a code 20 gave it. The state is a number, since C has the record and
// may give any.
#[repr(C)]
#[derive(Clone, Copy)]
pub struct Machine {
    pub transfer: u32,
    pub state: u8,
    pub expected: u8,
    pub error: u8,
    pub parameters: Parameters,
}

// What a step gives: the next state, and the length of the frame to send, 0 for none, or a refusal. One struct for both,
// since C has it.
#[repr(C)]
#[derive(Clone, Copy)]
pub struct Stepped {
    pub machine: Machine,
    pub answer: Written,
}

// A machine of any numbers, those that no state has among them, since C may give any. `Machine` has those of the states.
pub fn in_state(
    state: u8,
    expected: u8,
    error: u8,
    transfer: u32,
    parameters: Parameters,
) -> Machine
    ensures { result ≡ in_state state expected error transfer parameters }
{
    Machine {
        transfer,
        state,
        expected,
        error,
        parameters,
    }
}

impl Machine {
    // An Idle machine.
    pub fn idle(parameters: Parameters) -> Machine
        ensures { result ≡ idle parameters }
    {
        in_state(State::Idle.into(), 0, 0, 0, parameters)
    }

    // A fresh Offering machine. One function for each state, as the definitions `offering` and `requesting` are.
    pub fn offering() -> Machine
        ensures { result ≡ offering }
    {
        in_state(State::Offering.into(), 0, 0, 0, parameters::none())
    }

    // A fresh Requesting machine.
    pub fn requesting() -> Machine
        ensures { result ≡ requesting }
    {
        in_state(State::Requesting.into(), 0, 0, 0, parameters::none())
    }

    // A Loading machine, with its expected number and its last reply's error.
    pub fn loading(expected: u8, error: u8, parameters: Parameters) -> Machine
        ensures { result ≡ loading parameters expected error }
    {
        in_state(State::Loading.into(), expected, error, 0, parameters)
    }

    // A Started machine, with its transfer address.
    pub fn started(transfer: u32, parameters: Parameters) -> Machine
        ensures { result ≡ started parameters transfer }
    {
        in_state(State::Started.into(), 0, 0, transfer, parameters)
    }

    // The same machine, with other parameters.
    pub fn keeping(self, parameters: Parameters) -> Machine
        ensures { result ≡ keeping self parameters }
    {
        Machine { parameters, ..self }
    }

    // Whether it is in a state.
    pub fn is(self, state: State) -> bool
        ensures { result ≡ is (number state) self }
    {
        self.state == state.into()
    }
}
