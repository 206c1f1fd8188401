// Code 20: the entries, the end mark and the transfer address, over a whole string.
#![tactic(auto)]

ghost use Rattle.std.specs.Prelude.{◌≡◌, true, ℕ, ◌<◌, length, drop, IfSome};
ghost use Rattle.entries.specs.Grammar.{Fields};
ghost use Rattle.entries.specs.Entries.{walk};

use entries_next::{Kind, Place};

// The ten bytes may be a host time's fields. A loop over the bytes, whose number is not in the code, is three times slower.
fn time(s: &[u8]) -> bool
    requires { length s.now ≡ 10 }
    ensures { result ≡ true → Fields 0 0 s.now }
{
    let mut before = 0u8;
    for k in 0..10 {
        let b = s[k];
        if !host_time::field(k as u8, before, b) {
            return false;
        }
        before = b;
    }
    true
}

// What stands behind the entry that a string begins with, if a whole entry of the list does.
fn behind(version: u8, s: &[u8]) -> Option<&[u8]>
    ensures { IfSome result (λ t. (length t.now < length s.now) × (walk version Place.Kind t.now ≡ walk version Place.Kind s.now)) }
{
    let [kind, n, rest @ ..] = s else {
        return None;
    };
    let size = usize::from(*n);
    if rest.len() < size {
        return None;
    }
    if !entries_next::listed(version, *kind, *n) {
        return None;
    }
    let value = &rest[..size];
    let after = &rest[size..];
    if *kind != Kind::HostTime.into() {
        return Some(after);
    }
    if time(value) { Some(after) } else { None }
}

// The place after the bytes behind the end mark.
fn transfer(s: &[u8]) -> Place
    ensures { (version : ℕ) → result ≡ walk version (Place.Transfer 4) s.now }
{
    let n = s.len();
    if n <= 4 {
        Place::Transfer((4 - n) as u8)
    } else {
        Place::Excess
    }
}

// The place after all the bytes, found byte by byte, up to the first that is outside the list.
fn rest(version: u8, s: &[u8]) -> Place
    ensures { result ≡ walk version Place.Kind s.now }
{
    let mut p = Place::Kind;
    for b in s {
        p = entries_next::next(version, p, *b);
        if let Place::Outside = p {
            return Place::Outside;
        }
    }
    p
}

// The place after the bytes from `from` on, an entry's type first; past the end there are none.
// Whole entries are passed over one at a time; bytes that are none of them end the walk.
// String and place are two arguments, as the contract answers a `from` past the end, where no slice begins.
pub fn walk(version: u8, s: &[u8], from: usize) -> Place
    ensures { result ≡ walk version Place.Kind (drop from s.now) }
{
    if s.len() < from {
        return Place::Kind;
    }
    let mut left = &s[from..];
    // An entry's length says where the next begins, which no iterator of the library does.
    while let [kind, beyond @ ..] = left {
        if *kind == 0 {
            return transfer(beyond);
        }
        match behind(version, left) {
            Some(after) => left = after,
            None => return rest(version, left),
        }
    }
    Place::Kind
}
