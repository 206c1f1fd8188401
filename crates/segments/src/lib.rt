// What is answered of an image file and of one of its segments (PROTOCOL 3, 'Image files').
#![tactic(auto)]

ghost use Rattle.std.specs.Prelude.{◌≡◌};
ghost use Rattle.directory.specs.Directory.{trailer, regions};
ghost use Rattle.image.specs.Image.{cut_refusal, tally};
ghost use Rattle.refusal.specs.Refusal.{Answers};
ghost use Rattle.segments.specs.Segments.{image_of, segment_of, checked, found};

use image::Tally;
use refusal::Refusal;

// How a file is cut into segments, or its refusal, by the number of PROTOCOL 7, 'Refusals': mop_image of the header.
#[repr(C)]
#[derive(Clone, Copy)]
pub struct Image {
    pub segments: u64,
    pub transfer: u32,
    pub regions: u32,
    pub refusal: u8,
}

// Where a segment's bytes stand in the file and how many they are, its memory address, and whether it is the last (1) or
// not (0); or a refusal, by the number of PROTOCOL 7, 'Refusals': mop_segment of the header.
#[repr(C)]
#[derive(Clone, Copy)]
pub struct Segment {
    pub at: usize,
    pub length: usize,
    pub address: u32,
    pub last: u8,
    pub refusal: u8,
}

// Where a segment's bytes stand in the file and how many they are, its memory address, and whether it is the last. C is
// given the place and the length of them, and no slice.
#[derive(Clone, Copy)]
pub struct Found {
    pub at: usize,
    pub length: usize,
    pub address: u32,
    pub last: bool,
}

// What C is answered of an image.
impl From<Result<Tally, Refusal>> for Image {
    ghost from_gives = { λ r a. a ≡ image_of r };

    fn from(r: Result<Tally, Refusal>) -> Image {
        match r {
            Ok(a) => Image {
                segments: a.segments,
                transfer: a.transfer,
                regions: a.regions,
                refusal: 0,
            },
            Err(r) => Image {
                segments: 0,
                transfer: 0,
                regions: 0,
                refusal: u8::from(r),
            },
        }
    }
}

// What C is answered of a segment.
impl From<Result<Found, Refusal>> for Segment {
    ghost from_gives = { λ r s. s ≡ segment_of r };

    fn from(r: Result<Found, Refusal>) -> Segment {
        match r {
            Ok(s) => Segment {
                at: s.at,
                length: s.length,
                address: s.address,
                last: u8::from(s.last),
                refusal: 0,
            },
            Err(r) => Segment {
                at: 0,
                length: 0,
                address: 0,
                last: 0,
                refusal: u8::from(r),
            },
        }
    }
}

// Whether a file is an image, and how it is cut into segments of `size` bytes.
pub fn check(file: &[u8], size: u32) -> Result<Tally, Refusal>
    ensures { (image_of result ≡ checked file.now size)
        × Answers result (cut_refusal file.now size) (tally (trailer file.now) size 0 (regions file.now)) }
{
    image::survey(file, size, 0)
}

// Segment `index`, counted from 0, of a file cut into segments of `size` bytes.
pub fn find(file: &[u8], size: u32, index: u64) -> Result<Found, Refusal>
    ensures { segment_of result ≡ found file.now size index }
{
    let a = image::survey(file, size, index)?;
    if a.segments <= index {
        return Err(Refusal::Setting);
    }
    let s = a.segment;
    Ok(Found {
        at: s.place as usize,
        length: s.length as usize,
        address: s.address,
        last: index + 1 == a.segments,
    })
}
