// Code 20's entries, end mark and transfer address: what a byte is, after the bytes before it (PROTOCOL 2, 'Messages').
#![tactic(auto)]

ghost use Rattle.std.specs.Prelude.{◌≡◌, MatchResult, ◌⊎◌, ◌<◌, ℕ};
ghost use Rattle.refusal.specs.declared.Refusal.TheVariants.{Field};
ghost use Rattle.entries_next.specs.Kind.{number};
ghost use Rattle.entries_next.specs.Next.{longest_name, longest_address, last_kind, listed, more, next};

use refusal::Refusal;

// An entry's type, by its number on the wire.
#[derive(Clone, Copy)]
pub enum Kind {
    TargetName = 1,
    TargetAddress = 2,
    HostName = 3,
    HostAddress = 4,
    HostTime = 5,
}

impl From<Kind> for u8 {
    ghost from_gives = { λ k n. n ≡ number k };

    // Its number.
    fn from(k: Kind) -> u8 {
        k as u8
    }
}

impl TryFrom<u8> for Kind {
    type Error = Refusal;

    ghost try_from_gives = { λ n r. MatchResult r (λ k. number k ≡ n) (λ e. (e ≡ Field) × ((n ≡ 0) ⊎ (5 < n))) };

    // The type of a number, if it is one.
    fn try_from(n: u8) -> Result<Kind, Refusal> {
        match n {
            1 => Ok(Kind::TargetName),
            2 => Ok(Kind::TargetAddress),
            3 => Ok(Kind::HostName),
            4 => Ok(Kind::HostAddress),
            5 => Ok(Kind::HostTime),
            _ => Err(Refusal::Field),
        }
    }
}

// What the next byte is, or how the walk ended. `Size` has a type's number, as in the theorem `grammar` and in `walk`.
#[derive(Clone, Copy)]
pub enum Place {
    // An entry's type, or the end mark.
    Kind,
    // The length byte of an entry of this type (1 to 5).
    Size(u8),
    // That many more bytes of a value (at least 1).
    Value(u8),
    // Field k (0 to 9) of a host time; the byte before it.
    Time(u8, u8),
    // After the end mark: that many bytes of the transfer address to come, from 4 down to 0.
    Transfer(u8),
    // A type, length or time field outside the list.
    Outside,
    // A byte beyond the transfer address.
    Excess,
}

// The longest name of a version.
fn longest_name(version: u8) -> u8
    ensures { result ≡ longest_name version }
{
    version::by_version(version, 6, 16)
}

// The longest address of a version.
fn longest_address(version: u8) -> u8
    ensures { result ≡ longest_address version }
{
    version::by_version(version, 2, 6)
}

// The last entry type of a version.
fn last_kind(version: u8) -> u8
    ensures { result ≡ last_kind version }
{
    version::by_version(version, 4, 5)
}

// An entry of this type may have this length. The type is any byte of a frame, and the contract answers every number.
pub fn listed(version: u8, kind: u8, n: u8) -> bool
    ensures { result ≡ listed version kind n }
{
    if last_kind(version) < kind {
        return false;
    }
    match Kind::try_from(kind) {
        Ok(Kind::TargetName | Kind::HostName) => n <= longest_name(version),
        Ok(Kind::TargetAddress | Kind::HostAddress) => n <= longest_address(version),
        Ok(Kind::HostTime) => n == 10,
        Err(_) => false,
    }
}

// That many more bytes of a value; after the last the next entry's type.
fn more(n: u8) -> Place
    ensures { result ≡ more n }
{
    if n == 0 { Place::Kind } else { Place::Value(n) }
}

#[tactic(auto, unfolding(crate::specs::Next::next))]
fn after_kind(version: u8, b: u8) -> Place
    ensures { result ≡ next version Place.Kind b }
{
    if b == 0 {
        return Place::Transfer(4);
    }
    if b <= last_kind(version) {
        Place::Size(b)
    } else {
        Place::Outside
    }
}

#[tactic(auto, unfolding(crate::specs::Next::next))]
fn after_size(version: u8, kind: u8, n: u8) -> Place
    ensures { result ≡ next version (Place.Size kind) n }
{
    if !listed(version, kind, n) {
        return Place::Outside;
    }
    if kind == Kind::HostTime.into() {
        Place::Time(0, 0)
    } else {
        more(n)
    }
}

#[tactic(auto, unfolding(crate::specs::Next::next))]
fn after_time(k: u8, before: u8, b: u8) -> Place
    ensures { (version : ℕ) → result ≡ next version (Place.Time k before) b }
{
    if !host_time::field(k, before, b) {
        return Place::Outside;
    }
    if k == 9 {
        Place::Kind
    } else {
        Place::Time(k + 1, b)
    }
}

// The place after a byte.
#[tactic(auto, unfolding(crate::specs::Next::next))]
pub fn next(version: u8, p: Place, b: u8) -> Place
    ensures { result ≡ next version p b }
{
    match p {
        Place::Kind => after_kind(version, b),
        Place::Size(kind) => after_size(version, kind, b),
        Place::Value(n) => more(n.saturating_sub(1)),
        Place::Time(k, before) => after_time(k, before, b),
        Place::Transfer(0) => Place::Excess,
        Place::Transfer(n) => Place::Transfer(n - 1),
        Place::Outside => Place::Outside,
        Place::Excess => Place::Excess,
    }
}
