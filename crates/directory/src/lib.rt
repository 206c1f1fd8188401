// The trailer and the directory entries of an image file, and their refusals (PROTOCOL 3, 'Image files').
#![tactic(auto)]

ghost use Rattle.std.specs.Prelude.{◌≡◌};
ghost use Rattle.directory.specs.Directory.{trailer_of, trailer, trailer_refusal, entry_refusal};
ghost use Rattle.refusal.specs.Refusal.{number_of};

use refusal::Refusal;

// The most bytes of a file.
const LONGEST: usize = 16777216;

// The most entries of a directory.
const MOST: u32 = 100000;

// The number of addresses.
pub const ADDRESSES: u64 = 4294967296;

// The trailer's fields.
#[derive(Clone, Copy)]
pub struct Trailer {
    pub directory: u32,
    pub count: u32,
    pub transfer: u32,
    pub length: u32,
}

// A stretch of memory, and the place of its bytes in the file: a region, or a segment of one.
// Place and length are numbers and no slice: `entry_refusal` judges them also where they lie outside the file.
#[derive(Clone, Copy)]
pub struct Region {
    pub address: u32,
    pub place: u32,
    pub length: u32,
}

#[tactic(auto, unfolding(crate::specs::Directory::trailer_of))]
fn fields(t: &[u8]) -> Trailer
    ensures { result ≡ trailer_of t.now }
{
    Trailer {
        directory: octets::word32(t, 0),
        count: octets::word32(t, 4),
        transfer: octets::word32(t, 8),
        length: octets::word32(t, 12),
    }
}

// The trailer, the last 16 bytes; of a shorter file all there are. Of a part whose length is known, the compiler reads
// each field with one load.
pub fn read_trailer(file: &[u8]) -> Trailer
    ensures { result ≡ trailer file.now }
{
    match file.last_chunk::<16>() {
        Some(last) => fields(last),
        None => fields(file),
    }
}

// `Refusal::File` and `Refusal::Directory`: a file of n bytes with this trailer.
#[tactic(auto, unfolding(crate::specs::Directory::demand))]
pub fn trailer_refusal(n: usize, t: Trailer) -> Result<(), Refusal>
    ensures { number_of result ≡ trailer_refusal n t }
{
    let total = t.directory as usize + 12 * (t.count as usize) + 16;
    if !(16..=LONGEST).contains(&n) || t.length as usize != n {
        return Err(Refusal::File);
    }
    if !(1..=MOST).contains(&t.count) || total != n {
        return Err(Refusal::Directory);
    }
    Ok(())
}

// `Refusal::Entry` and `Refusal::Overlap`: an entry, with the directory's start and the end of the region before.
#[tactic(auto, unfolding(crate::specs::Directory::demand))]
pub fn entry_refusal(directory: u32, end: u64, r: Region) -> Result<(), Refusal>
    ensures { number_of result ≡ entry_refusal directory end r }
{
    let bytes_end = u64::from(r.place) + u64::from(r.length);
    let memory_end = u64::from(r.address) + u64::from(r.length);
    if r.length < 1 || u64::from(directory) < bytes_end || ADDRESSES < memory_end {
        return Err(Refusal::Entry);
    }
    if u64::from(r.address) < end {
        return Err(Refusal::Overlap);
    }
    Ok(())
}
