// Reading the two frames whose fields must be listed, codes 8 and 20 (PROTOCOL 2, 'Messages').
#![tactic(auto)]

ghost use Rattle.std.specs.Prelude.{◌≡◌, cond, ℕ, ◌+◌, ◌≤◌, length, ltb};
ghost use Rattle.message.specs.Message.{id_length};
ghost use Rattle.message.specs.Read.{byte, numbers, refused_fields, ended, judged};
ghost use Rattle.refusal.specs.Refusal.{number_of};

use entries_next::Place;
use message::Fields;
use refusal::Refusal;

// Code 8, request program: `Refusal::Short` below its least length, else its bytes in turn.
pub fn request_program(s: &[u8]) -> Fields
    ensures { (version : ℕ) → result ≡ cond (ltb (length s.now) 6) (refused_fields 1) (judged version 8 6 6 s.now) }
{
    if s.len() < 6 {
        return Fields::from(Refusal::Short);
    }
    let program = s[3];
    if 2 < program {
        return Fields::from(Refusal::Field);
    }
    match s[4] {
        form @ 0..=16 => with_id(s, usize::from(form)),
        254..=255 => with_id(s, 0),
        _ => Fields::from(Refusal::Field),
    }
}

// A program request whose software id has n bytes.
fn with_id(s: &[u8], n: usize) -> Fields
    requires { (6 ≤ length s.now) × (n ≤ 16) × (n ≡ id_length (byte s.now 4)) }
    ensures { result ≡ cond (ltb (length s.now) (6 + n)) (refused_fields 1) (numbers 0 8 6 6 s.now) }
{
    let end = 6 + n;
    if s.len() < end {
        return Fields::from(Refusal::Short);
    }
    Fields {
        code: 8,
        device: s[1],
        format: s[2],
        program: s[3],
        form: s[4],
        id_at: 5,
        id_length: n,
        processor: s[5 + n],
        data_at: end,
        data_length: s.len() - end,
        ..message::BLANK
    }
}

// Code 20, parameter load with transfer, alike, under a version.
pub fn parameters(version: u8, s: &[u8]) -> Fields
    ensures { result ≡ cond (ltb (length s.now) 7) (refused_fields 1) (judged version 20 2 7 s.now) }
{
    if s.len() < 7 {
        return Fields::from(Refusal::Short);
    }
    if let Err(r) = ended(entries::walk(version, s, 2)) {
        return Fields::from(r);
    }
    Fields {
        code: 20,
        number: s[1],
        transfer: octets::word32(s, s.len() - 4),
        data_at: 2,
        data_length: s.len() - 7,
        ..message::BLANK
    }
}

// What the place means at which the walk ended.
fn ended(p: Place) -> Result<(), Refusal>
    ensures { number_of result ≡ ended p }
{
    match p {
        Place::Transfer(0) => Ok(()),
        Place::Kind | Place::Size(_) | Place::Value(_) | Place::Time(_, _) | Place::Transfer(_) => {
            Err(Refusal::Short)
        }
        Place::Outside => Err(Refusal::Field),
        Place::Excess => Err(Refusal::Long),
    }
}
