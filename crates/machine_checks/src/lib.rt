// What a call of the machine end refuses of its record, of the settings and of the buffers (PROTOCOL 7, 'Refusals').
#![tactic(auto)]

ghost use Rattle.std.specs.Prelude.{◌≡◌};
ghost use Rattle.refusal.specs.Refusal.{number_of};
ghost use Rattle.machine_checks.specs.Checks.{refusal};

use machine_record::{Machine, Settings, State};
use refusal::Refusal;

// Why a step is refused before its input is read, in their order. Settings and record are C's own arguments, as in each
// step.
#[tactic(auto, unfolding(step::specs::Step::first))]
pub fn refusal(
    settings: Settings,
    machine: Machine,
    size: usize,
    room: usize,
) -> Result<(), Refusal>
    ensures { number_of result ≡ refusal settings machine size room }
{
    if 16777216 < size
        || !(1..=1495).contains(&settings.reply_bytes)
        || !settings.window.allowed()
        || !version::known(settings.version)
        || State::try_from(machine.state).is_err()
    {
        return Err(Refusal::Setting);
    }
    if !block::roomy(settings.version, size) {
        return Err(Refusal::Memory);
    }
    if room < 1500 {
        return Err(Refusal::Buffer);
    }
    Ok(())
}
