// Numbers low byte first.
#![tactic(auto)]

ghost use Rattle.std.specs.Prelude.{◌≡◌, ◌+◌, ◌*◌, ℕ, ◌<◌, length, get_or, take, drop};
ghost use Rattle.octets.specs.Number.{number, low};

// The bytes of a string of fewer than N, and zeros after them.
fn padded<const N: usize>(s: &[u8]) -> [u8; N]
    requires { length s.now < N }
    ensures { (k : ℕ) → k < N → get_or result k 0 ≡ get_or s.now k 0 }
{
    let mut bytes = [0u8; N];
    bytes[..s.len()].copy_from_slice(s);
    bytes
}

// The N bytes from a place on; past the end they are 0. With `get` in place of the first test each number takes four
// instructions more to read.
fn part<const N: usize>(s: &[u8], at: usize) -> [u8; N]
    ensures { (k : ℕ) → k < N → get_or result k 0 ≡ get_or s.now (at + k) 0 }
{
    if s.len() < at {
        return [0; N];
    }
    let rest = &s[at..];
    match rest.first_chunk() {
        Some(bytes) => *bytes,
        None => padded(rest),
    }
}

// The number of the two bytes from `at` on; bytes past the end count as 0.
// A place beside the bytes, here and below, and no slice: from past the end there is none, and the clause's number is 0.
pub fn word16(s: &[u8], at: usize) -> u16
    ensures { result ≡ number (take 2 (drop at s.now)) }
{
    u16::from_le_bytes(part(s, at))
}

// The number of the four bytes from `at` on; bytes past the end count as 0.
pub fn word32(s: &[u8], at: usize) -> u32
    ensures { result ≡ number (take 4 (drop at s.now)) }
{
    u32::from_le_bytes(part(s, at))
}

// The two bytes of a number.
pub fn low16(x: u16) -> [u8; 2]
    ensures { result ≡ low 2 x }
{
    x.to_le_bytes()
}

// The four bytes of a number.
pub fn low32(x: u32) -> [u8; 4]
    ensures { result ≡ low 4 x }
{
    x.to_le_bytes()
}
