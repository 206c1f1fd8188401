// The fields of a host time, an entry of code 20 (PROTOCOL 2, 'Messages').
#![tactic(auto)]

ghost use Rattle.std.specs.Prelude.{◌≡◌, not, ◌&&◌, pos, neg_ℤ};
ghost use Rattle.std.specs.Int.Signed.{lt_z};
ghost use Rattle.host_time.specs.HostTime.{signed, between, opposite, field};

// The number that a byte is in two's complement.
fn signed(b: u8) -> i8
    ensures { result ≡ signed b }
{
    i8::from_le_bytes([b])
}

// Zero lies between the first and the second.
fn straddle(a: i8, b: i8) -> bool
    ensures { result ≡ lt_z a (pos 0) && lt_z (pos 0) b }
{
    a < 0 && 0 < b
}

// One is below zero and the other above it.
fn opposite(a: i8, b: i8) -> bool
    ensures { result ≡ opposite a b }
{
    straddle(a, b) || straddle(b, a)
}

// Within the range, and never of the opposite sign to the hours.
fn offset_minutes(h: i8, m: i8) -> bool
    ensures { result ≡ between (neg_ℤ (pos 59)) (pos 59) m && not (opposite h m) }
{
    (-59..=59).contains(&m) && !opposite(h, m)
}

// Field k of a host time may be this byte, after the byte before it.
#[tactic(auto, unfolding(crate::specs::HostTime::field))]
pub fn field(k: u8, before: u8, b: u8) -> bool
    ensures { result ≡ field k before b }
{
    match k {
        0 => b <= 127, // century
        1 => b <= 100, // year
        2 => (1..=12).contains(&b), // month
        3 => (1..=31).contains(&b), // day
        4 => b <= 23, // hour
        5 => b <= 59, // minute
        6 => b <= 59, // second
        7 => b <= 99, // hundredths
        8 => (-12..=13).contains(&signed(b)), // offset hours
        9 => offset_minutes(signed(before), signed(b)),
        _ => false,
    }
}
