// Lines about whole programs, as `oracle answer` reads them, answered by the functions of the C boundary. The C interface has numbers for
// refusals, whose values it writes into five words.
ghost use Rattle.std.specs.Prelude.{◌≤◌};

use crate::fields::{Image, decimal, image, is_space};
use crate::lines::{Unanswered, print_too_large};
use capi::{knit_execute, knit_validate};
use std::io;

// Enough for depth limit 64 and functions of up to 256 registers.
const FRAME_WORDS: usize = 256;

const REGISTERS: usize = 16384;

#[derive(Clone, Copy, Debug, PartialEq, Eq)]
struct Limits {
    registers: u16,
    functions: u16,
    depth: u16,
    instrs: u32,
    fuel: u64,
}

// How many values an answer with this number has.
fn values_of(number: u64) -> usize
    ensures { result ≤ 3 }
{
    match number {
        1..=7 | 12 | 19 => 1,
        10 | 13 | 16..=18 => 2,
        14..=15 | 20 => 3,
        _ => 0,
    }
}

fn print_values(rt: &impl Print, values: &[u64]) -> io::Result<()> {
    for value in values {
        print!(rt; " {value}")?;
    }
    println!(rt)
}

fn print_refused(rt: &impl Print, number: u64, words: &[u64; 5]) -> io::Result<()> {
    print!(rt; "refused {number}")?;
    print_values(rt, &words[..values_of(number)])
}

// Refusals for want of room are this program's, which the Rust has no counterpart for.
fn print_run(rt: &impl Print, number: u64, words: &[u64; 5]) -> io::Result<()> {
    match number {
        0 => {
            print!(rt; "done")?;
            print_values(rt, words)
        }
        6 | 7 => print_too_large(rt),
        _ => print_refused(rt, number, words),
    }
}

fn read_validate(text: &[u8], bytes: &mut Image) -> Option<Limits> {
    let mut fields = text.split(is_space);
    let limits = Limits {
        registers: decimal(fields.next()?)?,
        functions: decimal(fields.next()?)?,
        depth: decimal(fields.next()?)?,
        instrs: decimal(fields.next()?)?,
        fuel: decimal(fields.next()?)?,
    };
    image(fields.next()?, bytes)?;
    fields.next().is_none().then_some(limits)
}

fn read_run(text: &[u8], bytes: &mut Image) -> Option<(u64, u16)> {
    let mut fields = text.split(is_space);
    let fuel = decimal(fields.next()?)?;
    let depth = decimal(fields.next()?)?;
    image(fields.next()?, bytes)?;
    fields.next().is_none().then_some((fuel, depth))
}

// What follows `validate` and a space: five limits and an image. The answer is `admitted`, or `refused`, the refusal's number and its values.
pub fn answer_validate(rt: &impl Print, text: &[u8]) -> Result<(), Unanswered> {
    let mut bytes = Image::new();
    let limits = read_validate(text, &mut bytes).ok_or(Unanswered::NoCase)?;
    let mut words = [0u64; 5];
    let number = knit_validate(
        bytes.as_slice(),
        limits.registers,
        limits.functions,
        limits.depth,
        limits.instrs,
        limits.fuel,
        &mut words,
    );
    if number == 0 {
        println!(rt; "admitted")?;
    } else {
        print_refused(rt, number, &words)?;
    }
    Ok(())
}

// What follows `run` and a space: fuel, depth limit and an image. The answer is `done`, status, kind, payload, fuel used and digest;
// `refused` as above; or `too large`.
pub fn answer_run(rt: &impl Print, text: &[u8]) -> Result<(), Unanswered> {
    let mut bytes = Image::new();
    let (fuel, depth) = read_run(text, &mut bytes).ok_or(Unanswered::NoCase)?;
    let mut frames = [0u64; FRAME_WORDS];
    let mut registers = [0u64; REGISTERS];
    let mut words = [0u64; 5];
    let number = knit_execute(
        bytes.as_slice(),
        fuel,
        depth,
        &mut frames,
        &mut registers,
        &mut words,
    );
    print_run(rt, number, &words)?;
    Ok(())
}
