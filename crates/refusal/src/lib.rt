// A refusal (PROTOCOL 7, 'Refusals').
#![tactic(auto)]

ghost use Rattle.std.specs.Prelude.{◌≡◌};
ghost use Rattle.refusal.specs.Refusal.{number};

// Why a call is refused, by the number of PROTOCOL 7, 'Refusals'.
#[derive(Clone, Copy, PartialEq, Eq)]
pub enum Refusal {
    Short = 1, // a frame is empty, or ends too early
    Long = 2, // bytes are left over, or a frame is above 1,500 bytes
    Code = 3, // the code is not listed
    Field = 4, // a field is outside its list
    File = 5, // an image's length is wrong
    Directory = 6, // its count or directory offset is wrong
    Entry = 7, // an entry breaks its own rule
    Overlap = 8, // an entry begins before the end of the last
    Buffer = 9, // a reply or output buffer is too short
    Setting = 10, // a setting or a record is outside its range
    Memory = 11, // version 2.1 on a memory of under 64 bytes
    Frames = 12, // a load that may begin again has more than 256 frames
}

impl From<Refusal> for u8 {
    ghost from_gives = { λ r n. n ≡ number r };

    // Its number.
    fn from(r: Refusal) -> u8 {
        r as u8
    }
}
