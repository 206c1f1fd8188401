// Whether a load's settings are in range and its record is sound, but for what needs the image (PROTOCOL 7, 'Refusals').
#![tactic(auto)]

ghost use Rattle.std.specs.Prelude.{◌≡◌, ◌&&◌};
ghost use Rattle.load_valid.specs.Valid.{blank, settled, restarts_allowed, sound};

use load_record::{Session, Settings};
use verdict::Verdict;

// Whether the settings are in range. Their marks are C's numbers (load_record), here and in what follows.
fn settled(settings: Settings) -> bool
    ensures { result ≡ settled settings }
{
    (1..=image::WIDEST).contains(&settings.segment_size)
        && settings.repeats <= 255
        && settings.with_parameters <= 1
        && settings.restart <= 1
        && version::known(settings.version)
}

// Whether all numbers of a record are 0, but for that of ignored frames.
fn blank(session: Session) -> bool
    ensures { result ≡ blank session }
{
    session.running()
        && session.position == 0
        && session.repeats == 0
        && session.restarts == 0
        && session.sent == 0
        && session.counts.only_ignored()
}

// How many restarts a record may have: none without the setting.
fn restarts_allowed(settings: Settings) -> u32
    ensures { result ≡ restarts_allowed settings }
{
    if settings.restart == 1 {
        load_record::MOST_RESTARTS
    } else {
        0
    }
}

// Whether a record is sound, but for what needs n.
fn sound(settings: Settings, session: Session) -> bool
    ensures { result ≡ sound settings session }
{
    session.verdict <= Verdict::Unconfirmed.into()
        && session.repeats <= settings.repeats
        && session.restarts <= restarts_allowed(settings)
        && session.waiting <= 1
        && session.counts.below()
        && (session.waiting != 1 || blank(session))
}

// Whether the settings are in range and the record is sound, but for what needs n.
pub fn valid(settings: Settings, session: Session) -> bool
    ensures { result ≡ settled settings && sound settings session }
{
    settled(settings) && sound(settings, session)
}
