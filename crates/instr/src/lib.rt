// One instruction of a program, as it is decoded from an image: the opcode's number of 000 and the five fields of its record.
// Which fields an opcode uses, and for what, is the image's business. The fields are `usize` where an image's have 16 bits: `operate` and
// `straight` are promised for any fields, and the bounds stand where records are read.
#![tactic(auto)]

#[derive(Clone, Copy, Debug, Default, PartialEq, Eq)]
pub struct Instr {
    pub op: u8,
    pub small: u8,
    pub a: usize,
    pub b: usize,
    pub c: usize,
    pub w: u32,
}
