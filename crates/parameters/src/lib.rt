// The parameters that a code 20 frame gives a machine, which keeps them (PROTOCOL 4, 'Machine end').
#![tactic(auto)]

ghost use Rattle.std.specs.Prelude.{◌≡◌, [], cond};
ghost use Rattle.entries_next.specs.Kind.{number};
ghost use Rattle.parameters.specs.Parameters.{latest, value, kept, none};

use entries_next::Kind;

// A name, an address or a time: as many bytes as the length says, then zeros. C has the length beside the bytes.
#[repr(C)]
#[derive(Clone, Copy)]
pub struct Value {
    pub length: u8,
    pub bytes: [u8; 16],
}

// Of each entry type the value that is kept; an absent one has length 0.
#[repr(C)]
#[derive(Clone, Copy)]
pub struct Parameters {
    pub target_name: Value,
    pub target_address: Value,
    pub host_name: Value,
    pub host_address: Value,
    pub host_time: Value,
}

// An entry's value if it is of the type, else the value before it. A function, so that the loop's proof has no cases;
// a crate for one `if`, shared with `either` of words, would be no plainer.
fn later<'a>(same: bool, value: &'a [u8], before: &'a [u8]) -> &'a [u8]
    ensures { result.now ≡ cond same value.now before.now }
{
    if same { value } else { before }
}

// The last value of a type, within the entries; empty if there is none.
fn find(entries: &[u8], kind: u8) -> &[u8]
    ensures { result.now ≡ latest kind [] 0 entries.now }
{
    let mut found = &entries[..0];
    let mut left = entries;
    // An entry's length says where the next begins, which no iterator of the library does.
    while let [other, size, rest @ ..] = left {
        let n = usize::from(*size).min(rest.len());
        found = later(*other == kind, &rest[..n], found);
        left = &rest[n..];
    }
    found
}

// The last value of a type, zeros behind it.
fn last(entries: &[u8], kind: Kind) -> Value
    ensures { result ≡ value (latest (number kind) [] 0 entries.now) }
{
    let found = find(entries, kind.into());
    let n = found.len().min(16);
    let mut kept = [0u8; 16];
    kept[..n].copy_from_slice(&found[..n]);
    Value {
        length: n as u8,
        bytes: kept,
    }
}

// What is kept of entries without their end mark; of bytes that are none, what stands where theirs would.
pub fn keep(entries: &[u8]) -> Parameters
    ensures { result ≡ kept entries.now }
{
    Parameters {
        target_name: last(entries, Kind::TargetName),
        target_address: last(entries, Kind::TargetAddress),
        host_name: last(entries, Kind::HostName),
        host_address: last(entries, Kind::HostAddress),
        host_time: last(entries, Kind::HostTime),
    }
}

// What a fresh machine keeps.
pub fn none() -> Parameters
    ensures { result ≡ none }
{
    keep(&[])
}
