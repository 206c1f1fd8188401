// What the machine end does next (PROTOCOL 4, 'Machine end').
#![tactic(auto)]

ghost use Rattle.std.specs.Prelude.{◌≡◌, false, ◌||◌, cond, List, ℕ, min, length};
ghost use Rattle.message.specs.Read.{part};
ghost use Rattle.machine_record.specs.Record.{idle, is};
ghost use Rattle.machine_next.specs.declared.Sends.TheVariants.{Nothing, Data, Looped};
ghost use Rattle.machine_next.specs.Next.{parameters_fit, react, next, does};
ghost use Rattle.machine_next.specs.Inner.{taken, heeded};

use machine_number::Heeded;
use machine_record::{Machine, Settings, State};
use message::Fields;

// What goes out: nothing, the reply to a load (code 10) with its number and error, so many bytes of memory (code 14), or the
// same data again (code 26).
#[derive(Clone, Copy)]
pub enum Sends {
    Nothing,
    Load(u8, u8),
    Data(usize),
    Looped,
}

// What it does next: its record, whether the frame's data goes to memory, whether its entries go into the record, and what
// goes out. Two flags, as `does` and `fills` of specs/Next.antt speak of each.
#[derive(Clone, Copy)]
pub struct Next {
    pub machine: Machine,
    pub takes: bool,
    pub keeps: bool,
    pub sends: Sends,
}

// Nothing changes, and nothing goes out. The host's ends have one each, of a `Next` with other fields.
fn ignored(machine: Machine) -> Next
    ensures { result ≡ next machine false false Nothing }
{
    Next {
        machine,
        takes: false,
        keeps: false,
        sends: Sends::Nothing,
    }
}

// A frame of data or of entries is taken; `fitted` is the machine after one that fits. Its five values come from one call,
// of `on_load`, and the definition `taken` has each: a struct of them is no plainer.
fn taken(machine: Machine, number: u8, fit: bool, fitted: Machine, entries: bool) -> Next
    ensures { result ≡ taken machine number fit fitted entries }
{
    let reply = machine_number::after(number);
    if fit {
        return Next {
            machine: fitted,
            takes: !entries,
            keeps: entries,
            sends: Sends::Load(reply, 0),
        };
    }
    Next {
        sends: Sends::Load(reply, 1),
        ..ignored(Machine::loading(reply, 1, machine.parameters))
    }
}

// Codes 0 and 2, with data, and 20, with entries.
fn on_load(machine: Machine, number: u8, fit: bool, fitted: Machine, entries: bool) -> Next
    ensures { result ≡ heeded machine number (taken machine number fit fitted entries) }
{
    match machine_number::heed(machine, number) {
        Heeded::Ignored => ignored(machine),
        Heeded::Taken => taken(machine, number, fit, fitted, entries),
        Heeded::Again => Next {
            sends: Sends::Load(machine.expected, machine.error),
            ..ignored(machine)
        },
    }
}

// Code 4.
fn on_dump(settings: Settings, machine: Machine, count: u16) -> Next
    ensures { result ≡ cond (is 0 machine || is 1 machine) (next machine false false (Data (min count settings.reply_bytes))) (next machine false false Nothing) }
{
    if !machine.is(State::Idle) && !machine.is(State::Offering) {
        return ignored(machine);
    }
    let n = u32::from(count).min(settings.reply_bytes);
    Next {
        sends: Sends::Data(n as usize),
        ..ignored(machine)
    }
}

// Code 1: Offering ends.
fn on_complete(machine: Machine) -> Next
    ensures { result ≡ cond (is 1 machine) (next (idle machine.parameters) false false Nothing) (next machine false false Nothing) }
{
    if machine.is(State::Offering) {
        return ignored(Machine::idle(machine.parameters));
    }
    ignored(machine)
}

// Code 24: the same data comes back.
fn on_loop(machine: Machine) -> Next
    ensures { result ≡ cond (is 0 machine) (next machine false false Looped) (next machine false false Nothing) }
{
    if !machine.is(State::Idle) {
        return ignored(machine);
    }
    Next {
        sends: Sends::Looped,
        ..ignored(machine)
    }
}

// A code 20 fits a machine with a memory of this size.
fn parameters_fit(settings: Settings, size: usize) -> bool
    ensures { result ≡ parameters_fit settings size }
{
    !version::older(settings.version)
        || memory::fitting(settings.window, block::place(size), block::LENGTH, size)
}

// On a frame it decides by its code, a number in the fields that C is given too.
pub fn react(settings: Settings, machine: Machine, f: Fields, size: usize) -> Next
    ensures { (frame memory : List ℕ) → length (part frame f) ≡ f.data_length → length memory ≡ size
        → does settings f frame memory result ≡ react settings machine f frame memory }
{
    match f.code {
        0 => {
            let fit = memory::fitting(settings.window, f.address as usize, f.data_length, size);
            on_load(
                machine,
                f.number,
                fit,
                Machine::started(f.transfer, machine.parameters),
                false,
            )
        }
        2 => {
            let fit = memory::fitting(settings.window, f.address as usize, f.data_length, size);
            on_load(
                machine,
                f.number,
                fit,
                Machine::loading(machine_number::after(f.number), 0, machine.parameters),
                false,
            )
        }
        20 => {
            let fit = parameters_fit(settings, size);
            let fitted = Machine::started(f.transfer, machine.parameters);
            on_load(machine, f.number, fit, fitted, true)
        }
        4 => on_dump(settings, machine, f.count),
        1 => on_complete(machine),
        24 => on_loop(machine),
        _ => ignored(machine),
    }
}
