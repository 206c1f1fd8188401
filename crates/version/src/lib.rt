// The versions of the protocol, by their numbers (PROTOCOL, at its beginning). A version is a number and no enum,
// since C gives it in a struct and may give any.
#![tactic(auto)]

ghost use Rattle.std.specs.Prelude.{◌≡◌};
ghost use Rattle.version.specs.Version.{older, known, by_version};

// Version 2.1.
pub const V2_1: u8 = 21;

// Version 3.0.0.
pub const V3_0: u8 = 30;

// The version is 2.1.
pub fn older(version: u8) -> bool
    ensures { result ≡ older version }
{
    version == V2_1
}

// The version is one of the two.
pub fn known(version: u8) -> bool
    ensures { result ≡ known version }
{
    matches!(version, V2_1 | V3_0)
}

// A number that version 2.1 has otherwise.
pub fn by_version(version: u8, under_older: u8, otherwise: u8) -> u8
    ensures { result ≡ by_version version under_older otherwise }
{
    if older(version) {
        under_older
    } else {
        otherwise
    }
}
