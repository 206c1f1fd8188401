// The messages: definitions and laws (specs/), and a frame's fields in numbers. Reading a frame is the crate reader, writing
// one the crate writer.
#![tactic(auto)]

ghost use Rattle.std.specs.Prelude.{◌≡◌};
ghost use Rattle.message.specs.Read.{refused_fields};
ghost use Rattle.refusal.specs.Refusal.{number};

use refusal::Refusal;

// A frame's fields in numbers: what reading answers, what the ends decide by, and what crosses the boundary to C. Fields
// that the frame's code does not have are 0. `data_at` and `data_length` are the place of the variable part in the frame,
// `id_at` and `id_length` that of a software id. A refused frame has its refusal, code 255, which no frame has, and 0 in
// all else. Refusal, code and the rest are numbers, since C has the struct.
#[repr(C)]
#[derive(Clone, Copy)]
pub struct Fields {
    pub data_at: usize,
    pub data_length: usize,
    pub id_at: usize,
    pub id_length: usize,
    pub address: u32,
    pub transfer: u32,
    pub memory_size: u32,
    pub count: u16,
    pub receipt: u16,
    pub refusal: u8,
    pub code: u8,
    pub number: u8,
    pub error: u8,
    pub device: u8,
    pub format: u8,
    pub program: u8,
    pub form: u8,
    pub processor: u8,
    pub compatibility: u8,
}

// No fields.
pub const BLANK: Fields = Fields {
    data_at: 0,
    data_length: 0,
    id_at: 0,
    id_length: 0,
    address: 0,
    transfer: 0,
    memory_size: 0,
    count: 0,
    receipt: 0,
    refusal: 0,
    code: 0,
    number: 0,
    error: 0,
    device: 0,
    format: 0,
    program: 0,
    form: 0,
    processor: 0,
    compatibility: 0,
};

// The code of a refused frame, which no frame has.
pub const NO_CODE: u8 = 255;

impl From<Refusal> for Fields {
    ghost from_gives = { λ r f. f ≡ refused_fields (number r) };

    // The fields of a refused frame.
    fn from(r: Refusal) -> Fields {
        Fields {
            refusal: r.into(),
            code: NO_CODE,
            ..BLANK
        }
    }
}
