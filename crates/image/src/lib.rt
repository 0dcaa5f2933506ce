// The program image: its records, the check of bytes that are said to be one, and the program that a checked one holds. The Rust has
// no image; this one is document 01's.
#![tactic(auto)]

ghost use Rattle.std.specs.Prelude.{◌≡◌, ◌≤◌, [], ◌∷◌, length};
ghost use Rattle.basis.specs.Answers.{first_of};
ghost use Rattle.image.specs.Records.{form1, form1_instr, instr_place};
ghost use Rattle.image.specs.Image.{fault_numbers, check_numbers, layout_holds, table_fault, within, record_holds, record_fault, image_fault};

use instr::Instr;

pub mod program;
pub mod record;

use record::{
    FUNCTION_SIZE, HEADER_SIZE, Header, INSTR_SIZE, whole_function, whole_header, whole_instr,
};

// Why bytes are not an image: refusals 1 to 5. The last two say which function or instruction.
#[derive(Clone, Copy, Debug, PartialEq, Eq)]
pub enum ImageFault {
    Short,
    Form,
    Layout,
    FunctionTable(usize),
    Instruction(usize),
}

impl ImageFault {
    // The refusal's number, and which function or instruction: 0 where there is none to name.
    pub fn numbers(self) -> (u64, u64)
        ensures { fault_numbers self ≡ result.0 ∷ result.1 ∷ [] }
    {
        match self {
            ImageFault::Short => (1, 0),
            ImageFault::Form => (2, 0),
            ImageFault::Layout => (3, 0),
            ImageFault::FunctionTable(k) => (4, k as u64),
            ImageFault::Instruction(k) => (5, k as u64),
        }
    }
}

// The greatest number of two bytes, and of four.
const ANY: usize = 0xffff;

const WORD: u32 = 0xffff_ffff;

// Both tables and the end of the image are where the counts put them.
#[tactic(auto, unfolding(crate::specs::Image::layout_holds))]
fn layout_holds(h: Header, len: usize) -> bool
    ensures { result ≡ layout_holds form1 h len }
{
    let code = HEADER_SIZE + FUNCTION_SIZE * h.functions as usize;
    let end = code + INSTR_SIZE * h.instructions as usize;
    h.table as usize == HEADER_SIZE
        && h.code as usize == code
        && h.total as usize == end
        && len == end
}

// The first of the functions that is wrong, or their number where only the sum is.
#[tactic(auto, using(basis::proofs::First::first_none, crate::proofs::Checks::start_none, crate::proofs::Checks::row_spare, crate::proofs::Checks::row_apart, crate::proofs::Checks::row_right, crate::proofs::Checks::start_next, crate::proofs::Checks::sum_wrong, crate::proofs::Checks::sum_right))]
fn table_fault(image: &[u8], functions: u32, instructions: u32) -> Result<(), ImageFault>
    requires { instr_place form1 functions 0 ≤ length image.now }
    ensures { check_numbers result ≡ table_fault image.now functions instructions }
{
    let n = functions as usize;
    let mut start = 0;
    for k in 0..n {
        let f = whole_function(image, HEADER_SIZE + FUNCTION_SIZE * k);
        if f.zero != 0 || f.first as usize != start {
            return Err(ImageFault::FunctionTable(k));
        }
        start += f.count as usize;
    }
    if start != instructions as usize {
        return Err(ImageFault::FunctionTable(n));
    }
    Ok(())
}

// No field is above its limit. The five limits are plain numbers, and no struct: each stands once, in a row of the table below.
#[tactic(auto, unfolding(crate::specs::Image::within))]
fn fields_within(i: Instr, small: u8, a: usize, b: usize, c: usize, w: u32) -> bool
    ensures { result ≡ within i small a b c w }
{
    i.small <= small && i.a <= a && i.b <= b && i.c <= c && i.w <= w
}

// The record of an opcode with the fields that this opcode uses, and no other. What an opcode may have is decided by its number, with
// ranges, here and wherever opcodes are told apart: that is a rule of the project, so there is no enum of opcodes.
fn record_holds(i: Instr) -> bool
    ensures { result ≡ record_holds i }
{
    match i.op {
        0..=1 => fields_within(i, 0, 0, 0, 0, 0),
        2..=3 | 55 => fields_within(i, 0, ANY, 0, 0, 0),
        4 => fields_within(i, 3, ANY, 0, 0, 0),
        5 => fields_within(i, 1, ANY, 0, 0, 0),
        6..=8 | 52..=53 => fields_within(i, 0, ANY, 0, 0, WORD),
        9 | 15..=18 | 50 => fields_within(i, 0, ANY, ANY, 0, 0),
        10..=14 | 19..=49 => fields_within(i, 0, ANY, ANY, ANY, 0),
        51 => fields_within(i, 0, 0, 0, 0, WORD),
        54 => fields_within(i, 0, ANY, ANY, ANY, 0xffff),
        _ => false,
    }
}

// The first of the instructions that is wrong.
#[tactic(auto, using(basis::proofs::First::first_none, crate::proofs::Checks::record_wrong, crate::proofs::Checks::record_right))]
fn record_fault(image: &[u8], functions: u32, instructions: u32) -> Result<(), ImageFault>
    requires { instr_place form1 functions instructions ≤ length image.now }
    ensures { check_numbers result ≡ first_of (record_fault (λ k. form1_instr image.now (instr_place form1 functions k))) instructions }
{
    let base = HEADER_SIZE + FUNCTION_SIZE * functions as usize;
    for k in 0..instructions as usize {
        if !record_holds(whole_instr(image, base + INSTR_SIZE * k)) {
            return Err(ImageFault::Instruction(k));
        }
    }
    Ok(())
}

#[tactic(auto, using(crate::proofs::Checks::at_form, crate::proofs::Checks::at_short, crate::proofs::Checks::at_layout, crate::proofs::Checks::at_table, crate::proofs::Checks::at_records))]
pub fn check_image(image: &[u8]) -> Result<(), ImageFault>
    ensures { check_numbers result ≡ image_fault form1 image.now }
{
    if image.len() < HEADER_SIZE {
        return Err(ImageFault::Short);
    }
    let h = whole_header(image);
    if h.form != 1 {
        return Err(ImageFault::Form);
    }
    if !layout_holds(h, image.len()) {
        return Err(ImageFault::Layout);
    }
    table_fault(image, h.functions, h.instructions)?;
    record_fault(image, h.functions, h.instructions)
}
