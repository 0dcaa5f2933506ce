// The records of an image, read at a place. Every place is good: what lies past the end reads as 0.
ghost use Rattle.std.specs.Prelude.{◌≡◌, ◌+◌, ◌^◌, ◌≤◌, ◌<◌, length};
ghost use Rattle.basis.specs.Bytes.{half_at, word_at};
ghost use Rattle.image.specs.Records.{header_of, function_at, form1_instr};

use basis::bytes::{u8_at, u16_at, u32_at};
use instr::Instr;

// How many bytes the records have.
pub const HEADER_SIZE: usize = 24;

pub const FUNCTION_SIZE: usize = 16;

pub const INSTR_SIZE: usize = 12;

// The first bytes: counts of functions and instructions, offsets of their tables, the image's length.
#[derive(Clone, Copy, Debug, PartialEq, Eq)]
pub struct Header {
    pub form: u16,
    pub entry: u16,
    pub functions: u32,
    pub instructions: u32,
    pub table: u32,
    pub code: u32,
    pub total: u32,
}

// The function's name, its registers, and which of all instructions are its own.
#[derive(Clone, Copy, Debug, Default, PartialEq, Eq)]
pub struct FunctionRecord {
    pub name: u32,
    pub regs: u16,
    pub zero: u16,
    pub first: u32,
    pub count: u32,
}

#[tactic(auto, unfolding(crate::specs::Records::header_of))]
pub fn header_of(image: &[u8]) -> Header
    ensures { result ≡ header_of image.now }
{
    Header {
        form: u16_at(image, 0),
        entry: u16_at(image, 2),
        functions: u32_at(image, 4),
        instructions: u32_at(image, 8),
        table: u32_at(image, 12),
        code: u32_at(image, 16),
        total: u32_at(image, 20),
    }
}

#[tactic(auto, using(crate::proofs::Bytes::function_past), unfolding(crate::specs::Records::function_at))]
pub fn function_at(image: &[u8], at: usize) -> FunctionRecord
    ensures { result ≡ function_at image.now at }
{
    if image.len() <= at {
        return FunctionRecord::default();
    }
    FunctionRecord {
        name: u32_at(image, at),
        regs: u16_at(image, at + 4),
        zero: u16_at(image, at + 6),
        first: u32_at(image, at + 8),
        count: u32_at(image, at + 12),
    }
}

#[tactic(auto, using(crate::proofs::Bytes::instr_past), unfolding(crate::specs::Records::form1_instr))]
pub fn instr_at(image: &[u8], at: usize) -> Instr
    ensures value { result ≡ form1_instr image.now at }
    ensures a_bound { (result.a < 2 ^ 16) × (result.b < 2 ^ 16) × (result.c < 2 ^ 16) }
{
    if image.len() <= at {
        return Instr::default();
    }
    Instr {
        op: u8_at(image, at),
        small: u8_at(image, at + 1),
        a: u16_at(image, at + 2) as usize,
        b: u16_at(image, at + 4) as usize,
        c: u16_at(image, at + 6) as usize,
        w: u32_at(image, at + 8),
    }
}

// Records that lie wholly within the image. Each is read out of its own bytes alone, so that the compiler sees that they are all there,
// and no read asks for it: whoever runs a program reads it so. They are three one-line functions and no generic one: a trait of records
// would have to hold the three readings and their laws, and only an instruction's fields have bounds to promise. The executor has
// its own reader of an instruction instead of `whole_instr`: a public function has no `requires`.
#[tactic(auto, using(crate::proofs::Slices::header_in_slice))]
pub(crate) fn whole_header(image: &[u8]) -> Header
    requires { 24 ≤ length image.now }
    ensures { result ≡ header_of image.now }
{
    header_of(&image[..HEADER_SIZE])
}

#[tactic(auto, using(crate::proofs::Slices::function_in_slice))]
pub(crate) fn whole_function(image: &[u8], at: usize) -> FunctionRecord
    requires { at + 16 ≤ length image.now }
    ensures { result ≡ function_at image.now at }
{
    function_at(&image[at..at + FUNCTION_SIZE], 0)
}

#[tactic(auto, using(crate::proofs::Slices::instr_in_slice))]
pub(crate) fn whole_instr(image: &[u8], at: usize) -> Instr
    requires { at + 12 ≤ length image.now }
    ensures value { result ≡ form1_instr image.now at }
    ensures a_bound { (result.a < 2 ^ 16) × (result.b < 2 ^ 16) × (result.c < 2 ^ 16) }
{
    instr_at(&image[at..at + INSTR_SIZE], 0)
}
