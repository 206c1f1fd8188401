// Reading frames (PROTOCOL 2, 'Messages'): a frame's fields in numbers.
#![tactic(auto)]

ghost use Rattle.std.specs.Prelude.{◌≡◌, ◌≤◌, ◌+◌, length};
ghost use Rattle.octets.specs.Number.{word};
ghost use Rattle.refusal.specs.Refusal.{number};
ghost use Rattle.message.specs.Read.{rows, find, numbers, fields, Reads};
ghost use Rattle.reader.specs.Row.{at_least, by_row};

use message::Fields;
use refusal::Refusal;

// Reads a frame of any length and content under a version, as C is given it: its fields, its refusal among them. They are
// answered by value, and each code returns by itself: fields that are lent and filled, and answers that meet, are moved once
// more, which takes half as long again.
pub fn answer(version: u8, s: &[u8]) -> Fields
    ensures { result ≡ fields version s.now }
{
    if s.is_empty() {
        return Fields::from(Refusal::Short);
    }
    if let Err(r) = codes::refusal(s[0], s.len()) {
        return Fields::from(r);
    }
    by_code(version, s[0], s)
}

// The refusal of a number that reading answers.
fn named(n: u8) -> Refusal
    requires { (1 ≤ n) × (n ≤ 4) }
    ensures { number result ≡ n }
{
    match n {
        1 => Refusal::Short,
        2 => Refusal::Long,
        3 => Refusal::Code,
        _ => Refusal::Field,
    }
}

// The same, for callers inside: its fields or its refusal.
pub fn read(version: u8, s: &[u8]) -> Result<Fields, Refusal>
    ensures { Reads result (fields version s.now) }
{
    let f = answer(version, s);
    if f.refusal == 0 {
        return Ok(f);
    }
    Err(named(f.refusal))
}

// A frame of this code, which has at least its least length. The code is a number and no enum: a frame may have any, and
// `rows` of the crate message is the table of them that the clause names.
#[tactic(auto, unfolding(message::specs::Read::find))]
fn by_code(version: u8, code: u8, s: &[u8]) -> Fields
    requires { at_least (find rows code) ≤ length s.now }
    ensures { result ≡ by_row version s.now (find rows code) }
{
    match code {
        0 => return memory_load_transfer(s),
        2 => return memory_load(s),
        8 => return reader_listed::request_program(s),
        10 => return request_load(s),
        4 => return request_dump(s),
        12 => return request_dump_service(s),
        14 => return dump_data(s),
        1 => return Fields {
            code: 1,
            ..message::BLANK
        },
        3 => return Fields {
            code: 3,
            ..message::BLANK
        },
        20 => return reader_listed::parameters(version, s),
        24 => return loop_data(s),
        26 => return looped_data(s),
        _ => return Fields::from(Refusal::Code),
    }
}

// The number of the two bytes from `at` on, which stand there. octets has the same for any bytes; its test for their end is
// slower.
fn word16(s: &[u8], at: usize) -> u16
    requires { at + 2 ≤ length s.now }
    ensures { result ≡ word 2 s.now at }
{
    u16::from_le_bytes([s[at], s[at + 1]])
}

// The number of the four bytes from `at` on, alike.
fn word32(s: &[u8], at: usize) -> u32
    requires { at + 4 ≤ length s.now }
    ensures { result ≡ word 4 s.now at }
{
    u32::from_le_bytes([s[at], s[at + 1], s[at + 2], s[at + 3]])
}

fn memory_load(s: &[u8]) -> Fields
    requires { 6 ≤ length s.now }
    ensures { result ≡ numbers 0 2 6 6 s.now }
{
    Fields {
        code: 2,
        number: s[1],
        address: word32(s, 2),
        data_at: 6,
        data_length: s.len() - 6,
        ..message::BLANK
    }
}

fn memory_load_transfer(s: &[u8]) -> Fields
    requires { 10 ≤ length s.now }
    ensures { result ≡ numbers 0 0 6 10 s.now }
{
    Fields {
        code: 0,
        transfer: word32(s, s.len() - 4),
        data_length: s.len() - 10,
        ..memory_load(s)
    }
}

fn request_load(s: &[u8]) -> Fields
    requires { 3 ≤ length s.now }
    ensures { result ≡ numbers 0 10 0 3 s.now }
{
    Fields {
        code: 10,
        number: s[1],
        error: s[2],
        ..message::BLANK
    }
}

fn request_dump(s: &[u8]) -> Fields
    requires { 7 ≤ length s.now }
    ensures { result ≡ numbers 0 4 0 7 s.now }
{
    Fields {
        code: 4,
        address: word32(s, 1),
        count: word16(s, 5),
        ..message::BLANK
    }
}

fn request_dump_service(s: &[u8]) -> Fields
    requires { 8 ≤ length s.now }
    ensures { result ≡ numbers 0 12 8 8 s.now }
{
    Fields {
        code: 12,
        device: s[1],
        format: s[2],
        memory_size: word32(s, 3),
        compatibility: s[7],
        data_at: 8,
        data_length: s.len() - 8,
        ..message::BLANK
    }
}

fn dump_data(s: &[u8]) -> Fields
    requires { 5 ≤ length s.now }
    ensures { result ≡ numbers 0 14 5 5 s.now }
{
    Fields {
        code: 14,
        address: word32(s, 1),
        data_at: 5,
        data_length: s.len() - 5,
        ..message::BLANK
    }
}

fn loop_data(s: &[u8]) -> Fields
    requires { 3 ≤ length s.now }
    ensures { result ≡ numbers 0 24 3 3 s.now }
{
    Fields {
        code: 24,
        receipt: word16(s, 1),
        data_at: 3,
        data_length: s.len() - 3,
        ..message::BLANK
    }
}

fn looped_data(s: &[u8]) -> Fields
    requires { 3 ≤ length s.now }
    ensures { result ≡ numbers 0 26 3 3 s.now }
{
    Fields {
        code: 26,
        ..loop_data(s)
    }
}
