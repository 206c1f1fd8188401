// Frames laid into a lent buffer.
#![tactic(auto)]

ghost use Rattle.std.specs.Prelude.{◌≡◌, ◌++◌};
ghost use Rattle.buffer.specs.Lay.{fits, put, laid, Came, written_of};

use refusal::Refusal;

// What a writer answers: the length of the frame that stands at the buffer's start, and refusal 0; or length 0 and a
// refusal, by the number of PROTOCOL 7, 'Refusals', with the buffer unchanged. C has both numbers in one struct, so it is
// no Result; a writer answers a Result, of which this is made.
#[repr(C)]
#[derive(Clone, Copy)]
pub struct Written {
    pub length: usize,
    pub refusal: u8,
}

impl From<Result<usize, Refusal>> for Written {
    ghost from_gives = { λ r w. w ≡ written_of r };

    // The answer that C sees.
    fn from(r: Result<usize, Refusal>) -> Written {
        match r {
            Ok(length) => Written { length, refusal: 0 },
            Err(r) => Written {
                length: 0,
                refusal: r.into(),
            },
        }
    }
}

// Lays bytes over a lent buffer from a place on, and says whether they fit there. If not, nothing changes.
// The answer is a bool and no Option: its clause `result ≡ fits ..` has it.
pub fn put(src: &[u8], out: &mut [u8], at: usize) -> bool
    ensures { (result ≡ fits src.now at out.old)
        × (out.new ≡ put src.now at out.old) }
{
    if out.len() < at || out.len() - at < src.len() {
        return false;
    }
    out[at..at + src.len()].copy_from_slice(src);
    true
}

// Lays a frame's four parts one after the other into a lent buffer.
pub fn lay_four(
    head: &[u8],
    body: &[u8],
    tail: &[u8],
    rest: &[u8],
    out: &mut [u8],
) -> Result<usize, Refusal>
    ensures { Came (laid (head.now ++ (body.now ++ (tail.now ++ rest.now))) out.old) (written_of result) out.new }
{
    let a = head.len();
    let b = a + body.len();
    if 1500 < b {
        return Err(Refusal::Long);
    }
    let c = b + tail.len();
    if 1500 < c {
        return Err(Refusal::Long);
    }
    let d = c + rest.len();
    if 1500 < d {
        return Err(Refusal::Long);
    }
    if out.len() < d {
        return Err(Refusal::Buffer);
    }
    put(head, out, 0);
    put(body, out, a);
    put(tail, out, b);
    put(rest, out, c);
    Ok(d)
}

// Lays a frame's three parts: four, of which one is empty. One function over a list of parts would be a loop with an
// invariant, and no plainer.
pub fn lay_three(head: &[u8], body: &[u8], tail: &[u8], out: &mut [u8]) -> Result<usize, Refusal>
    ensures { Came (laid (head.now ++ (body.now ++ tail.now)) out.old) (written_of result) out.new }
{
    let none = [0u8; 0];
    lay_four(head, body, tail, &none, out)
}

// Lays a frame's two parts.
pub fn lay(head: &[u8], body: &[u8], out: &mut [u8]) -> Result<usize, Refusal>
    ensures { Came (laid (head.now ++ body.now) out.old) (written_of result) out.new }
{
    let none = [0u8; 0];
    lay_three(head, body, &none, out)
}
