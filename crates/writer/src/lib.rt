// Writing frames (PROTOCOL 2, 'Messages'): a writer for each code but 8 and 20, into a lent buffer.
// Each answers the frame's length, or `Refusal::Long`, then `Refusal::Buffer`; the buffer behind the frame stays, and a
// refusal leaves it all. A frame's fields come one by one, as C gives them (include/mop.h).
#![tactic(auto, unfolding(message::specs::Write::write, message::specs::Write::layout))]

ghost use Rattle.std.specs.Prelude.{◌≡◌, ℕ, [], ◌∷◌, ◌++◌};
ghost use Rattle.octets.specs.Number.{low};
ghost use Rattle.buffer.specs.Lay.{Came, laid, written_of};
ghost use Rattle.message.specs.Message.{memory_load_transfer, memory_load, request_load, request_dump, request_dump_service, dump_data, dump_complete, volunteer, loop_data, looped_data};
ghost use Rattle.message.specs.Write.{write};

use refusal::Refusal;

// The head of codes 4 and 14: the code and an address. A code is a number here and below: it is the byte that is laid.
fn addressed(code: u8, address: u32) -> [u8; 5]
    ensures { result ≡ code ∷ low 4 address }
{
    let a = octets::low32(address);
    [code, a[0], a[1], a[2], a[3]]
}

// The head of codes 0 and 2: the code, a number and an address. Made of the head above it would be spelled byte by byte too.
fn numbered(code: u8, number: u8, address: u32) -> [u8; 6]
    ensures { result ≡ code ∷ number ∷ low 4 address }
{
    let a = octets::low32(address);
    [code, number, a[0], a[1], a[2], a[3]]
}

// A frame of its code alone.
fn alone(code: u8, out: &mut [u8]) -> Result<usize, Refusal>
    ensures { Came (laid (code ∷ []) out.old) (written_of result) out.new }
{
    buffer::lay(&[code], &[], out)
}

// Codes 24 and 26.
fn looping(code: u8, receipt: u16, bytes: &[u8], out: &mut [u8]) -> Result<usize, Refusal>
    ensures { Came (laid (code ∷ (low 2 receipt ++ bytes.now)) out.old) (written_of result) out.new }
{
    let n = octets::low16(receipt);
    let head = [code, n[0], n[1]];
    buffer::lay(&head, bytes, out)
}

// Code 0, memory load with transfer.
pub fn memory_load_transfer(
    number: u8,
    address: u32,
    bytes: &[u8],
    transfer: u32,
    out: &mut [u8],
) -> Result<usize, Refusal>
    ensures { (version : ℕ) → Came (write version (memory_load_transfer number address bytes.now transfer) out.old) (written_of result) out.new }
{
    let head = numbered(0, number, address);
    let tail = octets::low32(transfer);
    buffer::lay_three(&head, bytes, &tail, out)
}

// Code 2, memory load.
pub fn memory_load(number: u8, address: u32, bytes: &[u8], out: &mut [u8]) -> Result<usize, Refusal>
    ensures { (version : ℕ) → Came (write version (memory_load number address bytes.now) out.old) (written_of result) out.new }
{
    let head = numbered(2, number, address);
    buffer::lay(&head, bytes, out)
}

// Code 10, request memory load.
pub fn request_load(number: u8, error: u8, out: &mut [u8]) -> Result<usize, Refusal>
    ensures { (version : ℕ) → Came (write version (request_load number error) out.old) (written_of result) out.new }
{
    buffer::lay(&[10, number, error], &[], out)
}

// Code 4, request memory dump.
pub fn request_dump(address: u32, count: u16, out: &mut [u8]) -> Result<usize, Refusal>
    ensures { (version : ℕ) → Came (write version (request_dump address count) out.old) (written_of result) out.new }
{
    let head = addressed(4, address);
    let body = octets::low16(count);
    buffer::lay(&head, &body, out)
}

// Code 12, request dump service.
pub fn request_dump_service(
    device: u8,
    format: u8,
    size: u32,
    compatibility: u8,
    info: &[u8],
    out: &mut [u8],
) -> Result<usize, Refusal>
    ensures { (version : ℕ) → Came (write version (request_dump_service device format size compatibility info.now) out.old) (written_of result) out.new }
{
    let n = octets::low32(size);
    let head = [12, device, format, n[0], n[1], n[2], n[3], compatibility];
    buffer::lay(&head, info, out)
}

// Code 14, memory dump data.
pub fn dump_data(address: u32, bytes: &[u8], out: &mut [u8]) -> Result<usize, Refusal>
    ensures { (version : ℕ) → Came (write version (dump_data address bytes.now) out.old) (written_of result) out.new }
{
    let head = addressed(14, address);
    buffer::lay(&head, bytes, out)
}

// Code 1, dump complete.
pub fn dump_complete(out: &mut [u8]) -> Result<usize, Refusal>
    ensures { (version : ℕ) → Came (write version dump_complete out.old) (written_of result) out.new }
{
    alone(1, out)
}

// Code 3, assistance volunteer.
pub fn volunteer(out: &mut [u8]) -> Result<usize, Refusal>
    ensures { (version : ℕ) → Came (write version volunteer out.old) (written_of result) out.new }
{
    alone(3, out)
}

// Code 24, loop data.
pub fn loop_data(receipt: u16, bytes: &[u8], out: &mut [u8]) -> Result<usize, Refusal>
    ensures { (version : ℕ) → Came (write version (loop_data receipt bytes.now) out.old) (written_of result) out.new }
{
    looping(24, receipt, bytes, out)
}

// Code 26, looped data.
pub fn looped_data(receipt: u16, bytes: &[u8], out: &mut [u8]) -> Result<usize, Refusal>
    ensures { (version : ℕ) → Came (write version (looped_data receipt bytes.now) out.old) (written_of result) out.new }
{
    looping(26, receipt, bytes, out)
}
