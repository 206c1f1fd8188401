// The table of codes (PROTOCOL 2, 'Messages'): which codes are listed, and how long their frames are.
#![tactic(auto)]

ghost use Rattle.std.specs.Prelude.{◌≡◌};
ghost use Rattle.message.specs.Read.{rows, find};
ghost use Rattle.codes.specs.Table.{marked, limit, refusal};
ghost use Rattle.refusal.specs.Refusal.{number_of};

use refusal::Refusal;

// What marks a code that is not listed, one with its least length, and one with its only length. They are numbers and no
// enum: `marked` of specs/Table.antt has them. NONE is not 0: with runs of zeros the table takes twice the stores.
const NONE: u16 = 1;

const LEAST: u16 = 256;

const EXACTLY: u16 = 512;

// The codes 0 to 26.
const CODES: [u16; 27] = [
    LEAST + 10,
    EXACTLY + 1,
    LEAST + 6,
    EXACTLY + 1,
    EXACTLY + 7,
    NONE,
    NONE,
    NONE,
    LEAST + 6,
    NONE,
    EXACTLY + 3,
    NONE,
    LEAST + 8,
    NONE,
    LEAST + 5,
    NONE,
    NONE,
    NONE,
    NONE,
    NONE,
    LEAST + 7,
    NONE,
    NONE,
    NONE,
    LEAST + 3,
    NONE,
    LEAST + 3,
];

// The table's entry of a code, NONE beyond its end.
fn entry(code: u8) -> u16
    ensures { result ≡ marked (find rows code) }
{
    if 26 < code {
        return NONE;
    }
    CODES[usize::from(code)]
}

// The longest frame of an entry.
fn longest(entry: u16) -> usize
    ensures { result ≡ limit entry }
{
    if entry < EXACTLY {
        return 1500;
    }
    usize::from(entry - EXACTLY)
}

// The refusal of a frame of this code and length, if any: the code, then the least length, then the excess.
pub fn refusal(code: u8, length: usize) -> Result<(), Refusal>
    ensures { number_of result ≡ refusal length (find rows code) }
{
    let entry = entry(code);
    if entry < LEAST {
        return Err(Refusal::Code);
    }
    if length < usize::from(entry % 256) {
        return Err(Refusal::Short);
    }
    if longest(entry) < length {
        return Err(Refusal::Long);
    }
    Ok(())
}
