// The machine's memory (PROTOCOL 4, 'Machine end'): loads go to it, dump replies come from it.
#![tactic(auto)]

ghost use Rattle.std.specs.Prelude.{◌≡◌, ◌++◌, ℕ, ◌+◌, ◌≤◌, ◌<◌, length, replicate};
ghost use Rattle.buffer.specs.Lay.{laid, Came, written_of};
ghost use Rattle.message.specs.Message.{dump_data};
ghost use Rattle.message.specs.Write.{write};
ghost use Rattle.memory.specs.Memory.{fits, deposited, bytes_from};

use refusal::Refusal;
use window::Window;

// A load of n bytes at an address fits a machine with this ROM window and a memory of this size.
#[tactic(auto, unfolding(crate::specs::Memory::fits))]
pub fn fitting(window: Window, address: usize, n: usize, size: usize) -> bool
    ensures { result ≡ fits window address n size }
{
    address <= size && n <= size - address && !window.touches(address, n)
}

// Image data goes to memory if it fits, and whether it does: a bool, since data that does not fit is no refusal of the step.
pub fn deposit(window: Window, bytes: &[u8], address: usize, memory: &mut [u8]) -> bool
    ensures { (result ≡ fits window address (length bytes.now) (length memory.old))
        × (memory.new ≡ deposited window bytes.now address memory.old) }
{
    if !fitting(window, address, bytes.len(), memory.len()) {
        return false;
    }
    buffer::put(bytes, memory, address)
}

// As many zeros as a frame has bytes.
fn zeros() -> [u8; 1500]
    ensures { result ≡ replicate 1500 0 }
{
    [0u8; 1500]
}

// A frame of a head and n bytes of which some lie beyond memory: what memory has, then zeros. Memory, address and n are
// three arguments here and below, as `bytes_from` speaks of each.
fn lay_beyond(
    head: &[u8],
    address: u32,
    n: usize,
    memory: &[u8],
    out: &mut [u8],
) -> Result<usize, Refusal>
    requires n_bound { n ≤ 1500 }
    requires memory_len_bound { length memory.now < address + n }
    ensures { Came (laid (head.now ++ bytes_from memory.now address n) out.old) (written_of result) out.new }
{
    let zeros = zeros();
    let at = (address as usize).min(memory.len());
    let rest = n - (memory.len() - at);
    buffer::lay_three(head, &memory[at..], &zeros[..rest], out)
}

// A frame of a head and n bytes of memory from an address on.
fn lay(head: &[u8], address: u32, n: usize, memory: &[u8], out: &mut [u8]) -> Result<usize, Refusal>
    ensures { Came (laid (head.now ++ bytes_from memory.now address n) out.old) (written_of result) out.new }
{
    if 1500 < n {
        return Err(Refusal::Long);
    }
    let at = address as usize;
    let end = at + n;
    if memory.len() < end {
        return lay_beyond(head, address, n, memory, out);
    }
    buffer::lay(head, &memory[at..end], out)
}

// Code 14, memory dump data: n bytes of memory from an address on, 0 beyond its end.
pub fn dump_data(address: u32, n: usize, memory: &[u8], out: &mut [u8]) -> Result<usize, Refusal>
    ensures { (version : ℕ) → Came (write version (dump_data address (bytes_from memory.now address n)) out.old) (written_of result) out.new }
{
    // As `addressed` of writer, which is private there; a function shared across crates for one line is no plainer.
    let a = octets::low32(address);
    let head = [14, a[0], a[1], a[2], a[3]];
    lay(&head, address, n, memory, out)
}
