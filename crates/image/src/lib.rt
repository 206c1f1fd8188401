// Image files cut into segments: one walk over the directory (PROTOCOL 3, 'Image files').
#![tactic(auto)]

ghost use Rattle.std.specs.Prelude.{◌≡◌, ◌+◌, ◌*◌, ◌<◌, ◌≤◌, length};
ghost use Rattle.directory.specs.Directory.{addresses, entry_at, ending, nowhere, trailer, regions};
ghost use Rattle.image.specs.Image.{parts, cut, cut_refusal, tally};
ghost use Rattle.refusal.specs.Refusal.{Answers};
ghost use Rattle.image.specs.Walk.{Reached, reaching, part_of, Walked};

use directory::{Region, Trailer};
use refusal::Refusal;

// The most bytes of a segment.
pub const WIDEST: u32 = 1490;

// What a walk over the directory finds: what the trailer says, the number of segments, and the segment looked for. Where
// there is none, `segment` of specs/Image.antt has a region of zeros, `nowhere`, and so has the tally.
#[derive(Clone, Copy)]
pub struct Tally {
    pub regions: u32,
    pub transfer: u32,
    pub segments: u64,
    pub segment: Region,
}

// The last region passed that begins no later than the segment looked for: the place of its entry, and the index of its
// first segment. Over `chunks_exact(12)` the place would have to be counted beside the entries.
#[derive(Clone, Copy)]
struct Reach {
    at: usize,
    first: u64,
}

// The directory entry at a place. Of a part whose length is known, the compiler reads each field with one load.
fn read_entry(file: &[u8], at: usize) -> Region
    requires { at + 12 ≤ length file.now }
    ensures { result ≡ entry_at file.now at }
{
    let next = at + 12;
    let e = &file[at..next];
    Region {
        address: octets::word32(e, 0),
        place: octets::word32(e, 4),
        length: octets::word32(e, 8),
    }
}

// The number of segments of a region. A type for a size of at least 1 would be made in `survey` alone, from C's number.
fn parts(size: u32, r: Region) -> u32
    requires { (1 ≤ size) × (1 ≤ r.length) }
    ensures { result ≡ parts size r }
{
    if r.length <= size {
        return 1; // without a division
    }
    (r.length - 1) / size + 1
}

// Part j of a region.
fn cut(size: u32, r: Region, j: u32) -> Region
    requires { (j * size < r.length) × (r.place + r.length ≤ addresses) × (ending r ≤ addresses) }
    ensures { result ≡ cut size r j }
{
    let skip = j * size;
    let rest = r.length - skip;
    Region {
        address: r.address + skip,
        place: r.place + skip,
        length: size.min(rest),
    }
}

fn no_region() -> Region
    ensures { result ≡ nowhere }
{
    Region {
        address: 0,
        place: 0,
        length: 0,
    }
}

// Once a region is passed whose entry is at a place, and whose first segment has the index `first`.
fn reached(before: Reach, at: usize, first: u64, index: u64) -> Reach
    ensures { result ≡ reaching before at first index }
{
    if first <= index {
        return Reach { at, first };
    }
    before
}

// The segment looked for, once all regions are passed.
fn part(file: &[u8], size: u32, reach: Reach, segments: u64, index: u64) -> Region
    requires { (1 ≤ size) × (index < segments → Reached file.now size index reach) }
    ensures { result ≡ part_of file.now size reach segments index }
{
    if segments <= index {
        return no_region();
    }
    let r = read_entry(file, reach.at);
    cut(size, r, (index - reach.first) as u32)
}

// The directory's entries in turn: `Refusal::Entry` and `Refusal::Overlap`, the number of segments, the segment of an index.
// A function of its own: the loop within `survey` keeps fewer values in registers, and takes half as long again.
#[inline(never)]
fn walk(file: &[u8], t: Trailer, size: u32, index: u64) -> Result<(u64, Region), Refusal>
    requires { (t.directory + 12 * t.count ≤ length file.now) × (1 ≤ size) }
    ensures { Walked file.now t size index result }
{
    let mut reach = Reach { at: 0, first: 0 };
    let mut segments: u64 = 0;
    let mut end: u64 = 0;
    for k in 0..t.count {
        let at = t.directory as usize + 12 * (k as usize);
        let r = read_entry(file, at);
        directory::entry_refusal(t.directory, end, r)?;
        reach = reached(reach, at, segments, index);
        segments += parts(size, r) as u64;
        end = r.address as u64 + r.length as u64;
    }
    Ok((segments, part(file, size, reach, segments, index)))
}

// One walk: the refusal of a segment size or a file, or the number of segments and the segment of an index. All three are
// C's arguments. Without the attribute, what it finds is copied once more.
#[inline]
pub fn survey(file: &[u8], size: u32, index: u64) -> Result<Tally, Refusal>
    ensures { Answers result (cut_refusal file.now size) (tally (trailer file.now) size index (regions file.now)) }
{
    if !(1..=WIDEST).contains(&size) {
        return Err(Refusal::Setting);
    }
    let t = directory::read_trailer(file);
    directory::trailer_refusal(file.len(), t)?;
    let (segments, segment) = walk(file, t, size, index)?;
    Ok(Tally {
        regions: t.count,
        transfer: t.transfer,
        segments,
        segment,
    })
}
