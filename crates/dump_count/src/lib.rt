// By how much the counts of a dump's record are raised (PROTOCOL 5, 'Host end').
#![tactic(auto)]

ghost use Rattle.std.specs.Prelude.{◌≡◌};
ghost use Rattle.dump_count.specs.Count.{replies, frames};

use dump_record::Sends;

// How many replies are taken.
pub fn replies(takes: bool) -> u64
    ensures { result ≡ replies takes }
{
    u64::from(takes)
}

// How many frames go out.
pub fn frames(sends: Sends) -> u64
    ensures { result ≡ frames sends }
{
    match sends {
        Sends::Nothing => 0,
        Sends::Request | Sends::Complete => 1,
    }
}
