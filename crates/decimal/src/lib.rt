// Decimal numbers, written and read.
#![tactic(auto)]

ghost use Rattle.std.specs.Prelude.{◌≡◌, ◌≤◌, min, length, drop};
ghost use Rattle.text.specs.Text.{Added};
ghost use Rattle.decimal.specs.Laws.{first};
ghost use Rattle.decimal.specs.Decimal.{trimmed, decimal, are_digits, is_number, value};

// Where the first digit is that is no zero.
fn first(d: &[u8]) -> Option<usize>
    ensures { result ≡ first d.now }
{
    d.iter().position(|c| *c != b'0')
}

// How many digits are zeros in front; the last digit never is.
fn zeros(d: &[u8]) -> usize
    ensures { (result ≤ length d.now) × (drop result d.now ≡ trimmed d.now) }
{
    first(d).unwrap_or(d.len().saturating_sub(1))
}

// Adds a number without zeros in front to a text, in a lent buffer from a place on: `text` says why.
pub fn write(n: usize, out: &mut [u8], at: usize) -> usize
    ensures { Added (decimal n) at out.old result out.new }
{
    let d = digits::twenty(n);
    let from = zeros(&d);
    text::add(&d[from..], out, at)
}

// Every character is a digit.
#[tactic(auto, unfolding(crate::specs::Decimal::are_digits))]
fn are_digits(s: &[u8]) -> bool
    ensures { result ≡ are_digits s.now }
{
    s.iter().all(|c| matches!(digits::nibble(*c), Some(0..=9)))
}

// Some digits, and no zero in front unless it is the only digit.
pub fn is_number(s: &[u8]) -> bool
    ensures { result ≡ is_number s.now }
{
    match s {
        [] => false,
        [_] => are_digits(s),
        [first, ..] => *first != b'0' && are_digits(s),
    }
}

// The value of digits, at most 10,000; a character that is no digit counts 16. No Option: the
// definition `value` is of every text.
pub fn value(s: &[u8]) -> usize
    ensures { result ≡ min (value 0 s.now) 10000 }
{
    let mut n = 0;
    for d in s {
        n = n * 10 + usize::from(digits::nibble(*d).unwrap_or(16));
        if 9999 < n {
            return 10000;
        }
    }
    n
}
