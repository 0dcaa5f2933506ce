// A program: bytes that were found to be a well-formed image, and the reading of its parts. Whoever runs or admits a program takes
// one of these, so that no fact about the bytes has to be asked again.
ghost use Rattle.std.specs.Prelude.{◌≡◌, ◌+◌, ◌*◌, ◌^◌, ◌≤◌, ◌<◌, [], length, IfOk, OnOk, IfErr, SomeIff, IfSome};
ghost use Rattle.image.specs.Records.{form1, form1_instr, header_of, function_no, instr_place};
ghost use Rattle.image.specs.Image.{fault_numbers, image_fault};
ghost use Rattle.image.specs.WellFormed.{WellFormed};

use crate::record::{
    FUNCTION_SIZE, FunctionRecord, HEADER_SIZE, INSTR_SIZE, whole_function, whole_header,
    whole_instr,
};
use crate::{ImageFault, check_image};
use instr::Instr;

#[derive(Clone, Copy, Debug)]
pub struct Image<'a> {
    pub bytes: &'a [u8],
    pub ghost well_formed: { WellFormed form1 bytes.now },
}

impl<'a> Image<'a> {
    // The check, and the same bytes with what it found.
    pub fn of(bytes: &'a [u8]) -> Result<Image<'a>, ImageFault>
        ensures same { IfOk result (λ image. image.bytes ≡ bytes.entry) }
        ensures fine { OnOk result (image_fault form1 bytes.now ≡ []) }
        ensures fault { IfErr result (λ fault. fault_numbers fault ≡ image_fault form1 bytes.now) }
    {
        check_image(bytes)?;
        Ok(Image { bytes })
    }

    // The function that a run begins with.
    pub fn entry(self) -> usize
        ensures { result ≡ (header_of self.entry.bytes.now).entry }
    {
        whole_header(self.bytes).entry as usize
    }

    pub fn function_count(self) -> u32
        ensures { result ≡ (header_of self.entry.bytes.now).functions }
    {
        whole_header(self.bytes).functions
    }

    // The record of a function, by its number, if there is such a function.
    pub fn function(self, k: usize) -> Option<FunctionRecord>
        ensures { SomeIff result (k < (header_of self.entry.bytes.now).functions) (function_no self.entry.bytes.now k) }
    {
        if k < self.function_count() as usize {
            Some(whole_function(self.bytes, HEADER_SIZE + FUNCTION_SIZE * k))
        } else {
            None
        }
    }

    // Where the instructions start of a function whose first is this one of all.
    pub fn code_place(self, first: u32) -> usize
        ensures { result ≡ instr_place form1 (header_of self.entry.bytes.now).functions first }
    {
        HEADER_SIZE + FUNCTION_SIZE * self.function_count() as usize + INSTR_SIZE * first as usize
    }

    // The instruction at a place of the code that starts there, if its record lies among the bytes. Whoever knows that it does
    // unwraps.
    pub fn instr(self, code: usize, place: usize) -> Option<Instr>
        ensures value { SomeIff result (code + 12 * place + 12 ≤ length self.entry.bytes.now) (form1_instr self.entry.bytes.now (code + 12 * place)) }
        ensures bound { IfSome result (λ i. (i.a < 2 ^ 16) × (i.b < 2 ^ 16) × (i.c < 2 ^ 16)) }
    {
        let at = code.checked_add(place.checked_mul(INSTR_SIZE)?)?;
        if at.checked_add(INSTR_SIZE)? <= self.bytes.len() {
            Some(whole_instr(self.bytes, at))
        } else {
            None
        }
    }
}
