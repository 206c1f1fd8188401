// The rehearsal program's input: its check, and where its parts stand (PROTOCOL 8, 'Rehearsal').
#![tactic(auto)]

ghost use Rattle.std.specs.Prelude.{◌≡◌, ◌+◌, ◌≤◌, ◌<◌, length, drop, ltb};
ghost use Rattle.text.specs.Find.{index_of};
ghost use Rattle.script.specs.Script.{only, checked};
ghost use Rattle.script.specs.Inner.{number, settings, parts};

use refusal::Refusal;

// What the three lines say. Their parts are places and lengths, as the definition `said` gives them, and no slices: a `Job`
// keeps them when the input is lent no more.
#[derive(Clone, Copy)]
pub struct Script {
    pub memory: usize,
    pub image_at: usize,
    pub image_length: usize,
    pub events_at: usize,
    pub events_length: usize,
    pub segment_size: u32,
    pub repeats: u32,
}

// The first line's numbers.
#[derive(Clone, Copy)]
struct Numbers {
    memory: usize,
    size: u32,
    repeats: u32,
}

// The place of the first b from a place on, or the end: `text::find`, said of the rest of the text, as the definitions here
// are.
fn find(s: &[u8], b: u8, from: usize) -> usize
    ensures { result ≡ from + index_of b (drop from s.now) }
{
    text::find(s, from, b)
}

// A character is one of the letters.
fn is_letter(letters: &[u8], c: u8) -> bool
    ensures { result ≡ ltb (index_of c letters.now) (length letters.now) }
{
    letters.contains(&c)
}

// Every character is one of the letters.
#[tactic(auto, unfolding(crate::specs::Script::only))]
fn only(letters: &[u8], s: &[u8]) -> bool
    ensures { result ≡ only letters.now s.now }
{
    s.iter().all(|c| is_letter(letters, *c))
}

// A number from low to high.
fn number(s: &[u8], low: usize, high: usize) -> Option<usize>
    requires { high < 10000 }
    ensures { result ≡ number low high s.now }
{
    if !decimal::is_number(s) {
        return None;
    }
    let n = decimal::value(s);
    if n < low || high < n {
        return None;
    }
    Some(n)
}

// The first line: memory length, S and R, one space between.
fn settings(line: &[u8]) -> Option<Numbers>
    requires { length line.now ≤ 8192 }
    ensures { result ≡ settings line.now }
{
    let first = find(line, b' ', 0);
    let second_at = first + 1;
    let second = find(line, b' ', second_at);
    let third_at = second + 1;
    if line.len() < third_at {
        return None;
    }
    let memory = number(&line[..first], 1, 4096)?;
    let size = number(&line[second_at..second], 1, 1490)?;
    let repeats = number(&line[third_at..], 0, 255)?;
    Some(Numbers {
        memory,
        size: size as u32,
        repeats: repeats as u32,
    })
}

// What an input of three lines says.
fn parts(input: &[u8]) -> Option<Script>
    ensures { result ≡ parts input.now }
{
    if 8192 < input.len() {
        return None;
    }
    let first = find(input, b'\n', 0);
    let image_at = first + 1;
    let second = find(input, b'\n', image_at);
    let events_at = second + 1;
    let third = find(input, b'\n', events_at);
    if third + 1 != input.len() {
        return None;
    }
    let line = settings(&input[..first])?;
    if !hexadecimal::is_hexadecimal(&input[image_at..second]) {
        return None;
    }
    if !only(b"hkxtuymn", &input[events_at..third]) {
        return None;
    }
    Some(Script {
        memory: line.memory,
        image_at,
        image_length: second - image_at,
        events_at,
        events_length: third - events_at,
        segment_size: line.size,
        repeats: line.repeats,
    })
}

// The same, or `Refusal::Setting` for any other input.
pub fn check(input: &[u8]) -> Result<Script, Refusal>
    ensures { result ≡ checked input.now }
{
    parts(input).ok_or(Refusal::Setting)
}
