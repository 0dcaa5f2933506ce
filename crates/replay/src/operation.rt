// A line about one operation: `operate` and opcode, small, w, and the register words of lhs and rhs, in lower-case hexadecimal. A register
// that is not there is 16 minus signs. The answer is `value WORD` or `trap CODE`. What no image could hold is no case.
use crate::fields::{hex, is_space};
use crate::lines::Unanswered;
use instr::Instr;
use operate::Outcome;
use std::io;
use value::word::CoreValue;

// The operands are the registers of a window of two. One that is not there has an index past it, as an instruction names it, and so no
// Option: `operate` takes indices.
#[derive(Clone, Copy, Debug, PartialEq, Eq)]
struct Operand {
    index: usize,
    word: u64,
}

#[derive(Clone, Copy, Debug, PartialEq, Eq)]
struct Operation {
    op: u8,
    small: u8,
    w: u32,
    lhs: Operand,
    rhs: Operand,
}

// Only words that a load can put into a register: of the kinds 0 to 5, and a value's.
fn is_loaded(word: u64) -> bool {
    word < 0x6_0000_0000 && CoreValue::from_word(word).is_some()
}

fn read_operand(text: &[u8], index: usize) -> Option<Operand> {
    if text == [b'-'; 16].as_slice() {
        return Some(Operand { index: 2, word: 0 });
    }
    let word = hex(text, 16)?;
    is_loaded(word).then_some(Operand { index, word })
}

fn read_operation(text: &[u8]) -> Option<Operation> {
    let mut fields = text.split(is_space);
    let operation = Operation {
        op: u8::try_from(hex(fields.next()?, 2)?).ok()?,
        small: u8::try_from(hex(fields.next()?, 2)?).ok()?,
        w: u32::try_from(hex(fields.next()?, 8)?).ok()?,
        lhs: read_operand(fields.next()?, 0)?,
        rhs: read_operand(fields.next()?, 1)?,
    };
    (fields.next().is_none() && operation.is_lawful()).then_some(operation)
}

impl Operation {
    // Only what an instruction's record can hold: an opcode that computes, and nothing in a field that it does not use. Each
    // opcode is a decision by its number, as the document on the engine has it.
    fn is_lawful(self) -> bool {
        match self.op {
            4 => self.small < 4 && self.w == 0,
            5 => self.small < 2 && self.w == 0,
            6..=8 => self.small == 0,
            3 | 9..=50 => self.small == 0 && self.w == 0,
            _ => false,
        }
    }

    fn outcome(self) -> Outcome {
        let instr = Instr {
            op: self.op,
            small: self.small,
            a: 0,
            b: self.lhs.index,
            c: self.rhs.index,
            w: self.w,
        };
        operate::operate(self.op, instr, &[self.lhs.word, self.rhs.word])
    }
}

// No opcode from 3 to 50 computes no value, so nothing is printed for that.
fn print_outcome(rt: &impl Print, outcome: Outcome) -> io::Result<()> {
    match outcome {
        Ok(Some(word)) => println!(rt; "value {word:016x}"),
        Ok(None) => println!(rt),
        Err(trap) => println!(rt; "trap {}", trap.code()),
    }
}

// What follows `operate` and a space.
pub fn answer_operation(rt: &impl Print, text: &[u8]) -> Result<(), Unanswered> {
    let operation = read_operation(text).ok_or(Unanswered::NoCase)?;
    print_outcome(rt, operation.outcome())?;
    Ok(())
}
