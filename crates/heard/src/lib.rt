// A frame that was read, with its fields beside its bytes (PROTOCOL 2, 'Messages').
#![tactic(auto)]

ghost use Rattle.std.specs.Prelude.{◌≡◌, MatchResult, ◌+◌, ◌≤◌, length};
ghost use Rattle.refusal.specs.Refusal.{number};
ghost use Rattle.message.specs.Read.{fields, part};

use message::Fields;
use refusal::Refusal;

// A frame that was read: its bytes and its fields, whose variable part is within it.
#[derive(Clone, Copy)]
pub struct Heard<'a> {
    pub frame: &'a [u8],
    pub f: Fields,
    ghost inside: { f.data_at + f.data_length ≤ length frame.now },
}

impl<'a> Heard<'a> {
    // The variable part.
    pub fn data(self) -> &'a [u8]
        ensures { result.now ≡ part self.entry.frame.now self.entry.f }
    {
        let at = self.f.data_at;
        let end = at + self.f.data_length;
        &self.frame[at..end]
    }
}

// Reads a frame; a refusal is the frame's.
pub fn hear(version: u8, frame: &[u8]) -> Result<Heard, Refusal>
    ensures { MatchResult result
        (λ h. (h.frame.now ≡ frame.now) × (h.f ≡ fields version frame.now) × ((fields version frame.now).refusal ≡ 0))
        (λ r. number r ≡ (fields version frame.now).refusal) }
{
    let f = reader::read(version, frame)?;
    Ok(Heard { frame, f })
}
