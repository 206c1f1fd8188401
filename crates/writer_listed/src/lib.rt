// Writing the two frames whose fields must be listed, codes 8 and 20 (PROTOCOL 2, 'Messages'): `Refusal::Field`, then as the
// other writers. A frame's fields come one by one, as C gives them (include/mop.h).
#![tactic(auto, unfolding(message::specs::Write::write, message::specs::Write::layout))]

ghost use Rattle.std.specs.Prelude.{◌≡◌, ℕ, ◌&&◌, eqb};
ghost use Rattle.buffer.specs.Lay.{Came, written_of};
ghost use Rattle.message.specs.Message.{request_program, parameters, form_listed, id_length};
ghost use Rattle.message.specs.Write.{entry_list, write};
ghost use Rattle.writer_listed.specs.Inner.{whole};

use entries_next::Place;
use refusal::Refusal;

// Code 8, request program. The id has exactly the length that the form says.
pub fn request_program(
    device: u8,
    format: u8,
    program: u8,
    form: u8,
    id: &[u8],
    processor: u8,
    info: &[u8],
    out: &mut [u8],
) -> Result<usize, Refusal>
    ensures { (version : ℕ) → Came (write version (request_program device format program form id.now processor info.now) out.old) (written_of result) out.new }
{
    if 2 < program || !id_fits(form, id.len()) {
        return Err(Refusal::Field);
    }
    let head = [8, device, format, program, form];
    let behind = [processor];
    buffer::lay_four(&head, id, &behind, info, out)
}

// The form is listed, and says this length of an id.
fn id_fits(form: u8, n: usize) -> bool
    ensures { result ≡ form_listed form && eqb n (id_length form) }
{
    match form {
        0..=16 => n == usize::from(form),
        254..=255 => n == 0,
        _ => false,
    }
}

// Code 20, parameter load with transfer, under a version. The entries come without their end mark.
pub fn parameters(
    version: u8,
    number: u8,
    entries: &[u8],
    transfer: u32,
    out: &mut [u8],
) -> Result<usize, Refusal>
    ensures { Came (write version (parameters number entries.now transfer) out.old) (written_of result) out.new }
{
    if !listed(version, entries) {
        return Err(Refusal::Field);
    }
    let t = octets::low32(transfer);
    let head = [20, number];
    let tail = [0, t[0], t[1], t[2], t[3]];
    buffer::lay_three(&head, entries, &tail, out)
}

// Entries without their end mark are whole and of the version's list.
pub fn listed(version: u8, entries: &[u8]) -> bool
    ensures { result ≡ (entry_list entries.now).listed version }
{
    whole(entries::walk(version, entries, 0))
}

// Entries may end at this place.
fn whole(p: Place) -> bool
    ensures { result ≡ whole p }
{
    matches!(p, Place::Kind)
}
