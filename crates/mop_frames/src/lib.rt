// Calls that include/mop.h declares: frames and image files, for a line driver in C.
#![tactic(auto)]

ghost use Rattle.std.specs.Prelude.{◌≡◌, cond, ℕ};
ghost use Rattle.version.specs.Version.{known};
ghost use Rattle.buffer.specs.Lay.{Came, refuse};
ghost use Rattle.message.specs.Message.{memory_load_transfer, memory_load, request_program, request_load, request_dump, request_dump_service, dump_data, dump_complete, volunteer, parameters, loop_data, looped_data};
ghost use Rattle.message.specs.Read.{fields, refused_fields};
ghost use Rattle.message.specs.Write.{write};
ghost use Rattle.segments.specs.Segments.{checked, found};

use buffer::Written;
use message::Fields;
use refusal::Refusal;
use segments::{Image, Segment};

// A frame's fields under a version: mop_fields of the header.
#[unsafe(no_mangle)]
pub extern "C" fn mop_read(version: u8, frame: &[u8]) -> Fields
    ensures { result ≡ cond (known version) (fields version frame.now) (refused_fields 10) }
{
    if !version::known(version) {
        return Fields::from(Refusal::Setting);
    }
    reader::answer(version, frame)
}

// A writer for each code. Its answer is mop_written of the header. All but that of code 20 write the same under each
// version.

#[unsafe(no_mangle)]
pub extern "C" fn mop_write_load_transfer(
    number: u8,
    address: u32,
    bytes: &[u8],
    transfer: u32,
    out: &mut [u8],
) -> Written
    ensures { (version : ℕ) → Came (write version (memory_load_transfer number address bytes.now transfer) out.old) result out.new }
{
    Written::from(writer::memory_load_transfer(number, address, bytes, transfer, out))
}

#[unsafe(no_mangle)]
pub extern "C" fn mop_write_load(number: u8, address: u32, bytes: &[u8], out: &mut [u8]) -> Written
    ensures { (version : ℕ) → Came (write version (memory_load number address bytes.now) out.old) result out.new }
{
    Written::from(writer::memory_load(number, address, bytes, out))
}

#[unsafe(no_mangle)]
pub extern "C" fn mop_write_request_program(
    device: u8,
    format: u8,
    program: u8,
    form: u8,
    id: &[u8],
    processor: u8,
    info: &[u8],
    out: &mut [u8],
) -> Written
    ensures { (version : ℕ) → Came (write version (request_program device format program form id.now processor info.now) out.old) result out.new }
{
    Written::from(writer_listed::request_program(
        device, format, program, form, id, processor, info, out,
    ))
}

#[unsafe(no_mangle)]
pub extern "C" fn mop_write_request_load(number: u8, error: u8, out: &mut [u8]) -> Written
    ensures { (version : ℕ) → Came (write version (request_load number error) out.old) result out.new }
{
    Written::from(writer::request_load(number, error, out))
}

#[unsafe(no_mangle)]
pub extern "C" fn mop_write_request_dump(address: u32, count: u16, out: &mut [u8]) -> Written
    ensures { (version : ℕ) → Came (write version (request_dump address count) out.old) result out.new }
{
    Written::from(writer::request_dump(address, count, out))
}

#[unsafe(no_mangle)]
pub extern "C" fn mop_write_request_dump_service(
    device: u8,
    format: u8,
    size: u32,
    compatibility: u8,
    info: &[u8],
    out: &mut [u8],
) -> Written
    ensures { (version : ℕ) → Came (write version (request_dump_service device format size compatibility info.now) out.old) result out.new }
{
    Written::from(writer::request_dump_service(device, format, size, compatibility, info, out))
}

#[unsafe(no_mangle)]
pub extern "C" fn mop_write_dump_data(address: u32, bytes: &[u8], out: &mut [u8]) -> Written
    ensures { (version : ℕ) → Came (write version (dump_data address bytes.now) out.old) result out.new }
{
    Written::from(writer::dump_data(address, bytes, out))
}

#[unsafe(no_mangle)]
pub extern "C" fn mop_write_dump_complete(out: &mut [u8]) -> Written
    ensures { (version : ℕ) → Came (write version dump_complete out.old) result out.new }
{
    Written::from(writer::dump_complete(out))
}

#[unsafe(no_mangle)]
pub extern "C" fn mop_write_volunteer(out: &mut [u8]) -> Written
    ensures { (version : ℕ) → Came (write version volunteer out.old) result out.new }
{
    Written::from(writer::volunteer(out))
}

#[unsafe(no_mangle)]
pub extern "C" fn mop_write_parameters(
    version: u8,
    number: u8,
    entries: &[u8],
    transfer: u32,
    out: &mut [u8],
) -> Written
    ensures { Came (cond (known version) (write version (parameters number entries.now transfer) out.old) (refuse 10 out.old)) result out.new }
{
    if !version::known(version) {
        return Written::from(Err(Refusal::Setting));
    }
    Written::from(writer_listed::parameters(version, number, entries, transfer, out))
}

#[unsafe(no_mangle)]
pub extern "C" fn mop_write_loop(receipt: u16, bytes: &[u8], out: &mut [u8]) -> Written
    ensures { (version : ℕ) → Came (write version (loop_data receipt bytes.now) out.old) result out.new }
{
    Written::from(writer::loop_data(receipt, bytes, out))
}

#[unsafe(no_mangle)]
pub extern "C" fn mop_write_looped(receipt: u16, bytes: &[u8], out: &mut [u8]) -> Written
    ensures { (version : ℕ) → Came (write version (looped_data receipt bytes.now) out.old) result out.new }
{
    Written::from(writer::looped_data(receipt, bytes, out))
}

// Image files: mop_image and mop_segment of the header.

#[unsafe(no_mangle)]
pub extern "C" fn mop_image_check(file: &[u8], segment_size: u32) -> Image
    ensures { result ≡ checked file.now segment_size }
{
    Image::from(segments::check(file, segment_size))
}

#[unsafe(no_mangle)]
pub extern "C" fn mop_image_segment(file: &[u8], segment_size: u32, index: u64) -> Segment
    ensures { result ≡ found file.now segment_size index }
{
    Segment::from(segments::find(file, segment_size, index))
}
