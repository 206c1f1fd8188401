// Digits: the character of a value, the value of a character, and the last digits of a number, high digit first.
#![tactic(auto)]

ghost use Rattle.std.specs.Prelude.{◌≡◌, ◌<◌, ◌≤◌, MatchOption};
ghost use Rattle.digits.specs.Digits.{digit, nibble, digits};

// The value of a decimal or a capital hexadecimal digit; none for any other character. (`to_digit` takes small letters too.)
#[tactic(auto, unfolding(crate::specs::Digits::nibble))]
pub fn nibble(c: u8) -> Option<u8>
    ensures { MatchOption result (nibble c ≡ 16) (λ v. (nibble c ≡ v) × (v < 16)) }
{
    match c {
        b'0'..=b'9' => Some(c - b'0'),
        b'A'..=b'F' => Some(c - b'A' + 10),
        _ => None,
    }
}

// The character of a value. (`from_digit` spells in small letters.)
fn digit(d: usize) -> u8
    requires { d < 16 }
    ensures { result ≡ digit d }
{
    if d < 10 {
        b'0' + d as u8
    } else {
        b'A' - 10 + d as u8
    }
}

// A number's last N digits in a base. By index: the loop's invariant is about the array, which `iter_mut` would hold until
// the end.
fn spell<const N: usize>(n: usize, base: usize) -> [u8; N]
    requires { (1 < base) × (base ≤ 16) }
    ensures { result ≡ digits base N n }
{
    let mut out = [0u8; N];
    let mut rest = n;
    for i in (0..N).rev() {
        out[i] = digit(rest % base);
        rest /= base;
    }
    out
}

// The two hexadecimal digits of a byte.
pub fn pair(b: u8) -> [u8; 2]
    ensures { result ≡ digits 16 2 b }
{
    spell(usize::from(b), 16)
}

// The last eight hexadecimal digits of a number.
pub fn eight(n: usize) -> [u8; 8]
    ensures { result ≡ digits 16 8 n }
{
    spell(n, 16)
}

// The last twenty decimal digits of a number: all of them, for one of 64 bits.
pub fn twenty(n: usize) -> [u8; 20]
    ensures { result ≡ digits 10 20 n }
{
    spell(n, 10)
}
