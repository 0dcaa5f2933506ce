// The runner's answer to an image: one line of text, by the default configuration.
ghost use Rattle.std.specs.Prelude.{◌≡◌, ℕ, ◌+◌, ◌*◌, List, [], ◌∷◌, ◌++◌, ◌≤◌, length, take};
ghost use Rattle.exec.specs.Execute.{executed, outcome_numbers, result_numbers};
ghost use Rattle.text.specs.Digits.{decimal};
ghost use Rattle.text.specs.Line.{fields, line_of, line_bytes, ran, replied, reply_to};

use crate::digits::{decimal_width, put_digits};
use exec::config::CoreConfig;
use exec::{CoreOutcome, execute_outcome};
use std::marker::Model;
use value::result::CoreResult;

// As many bytes as the longest line can have.
pub const LINE_BYTES: usize = 96;

// A line as far as it is written. Clauses see its bytes. It is not written by `write!`: std says what a writer holds only where writing
// went well, and a line here cannot fail. Memory is fixed, so `reply` takes the bytes and answers how many it wrote. Nor is it an
// ArrayVec: the archive that C links holds no further crate, and clauses see the bytes.
#[derive(Drop)]
struct Line {
    bytes: [u8; LINE_BYTES],
    written: usize,
}

impl Model for Line {
    ghost Value = { List ℕ };

    ghost view = { λ l. take l.written l.bytes };

    ghost invariant = { λ l. l.written ≤ 96 };
}

impl Line {
    // A word, numbers in decimal with a space before each, and the line's end.
    fn of(word: &[u8], numbers: &[u64]) -> Line
        requires { length word.now + 21 * length numbers.now + 1 ≤ line_bytes }
        ensures { result ≡ word.now ++ fields numbers.now }
    {
        let mut line = Line {
            bytes: [0; LINE_BYTES],
            written: 0,
        };
        line.put(word);
        for n in numbers {
            line.put(b" ");
            line.put_decimal(*n);
        }
        line.put(b"\n");
        line
    }

    fn put(&mut self, word: &[u8])
        requires { length self.old + length word.now ≤ line_bytes }
        ensures { self.new ≡ self.old ++ word.now }
    {
        let end = self.written + word.len();
        self.bytes[self.written..end].copy_from_slice(word);
        self.written = end;
    }

    fn put_decimal(&mut self, n: u64)
        requires { length self.old + 20 ≤ line_bytes }
        ensures text { self.new ≡ self.old ++ decimal n }
        ensures upper_bound { length self.new ≤ length self.old + 20 }
    {
        let end = self.written + decimal_width(n);
        put_digits(n, 10, &mut self.bytes[self.written..end]);
        self.written = end;
    }

    fn text(&self) -> &[u8]
        ensures value { result.now ≡ self.now }
        ensures upper_bound { length result.now ≤ line_bytes }
    {
        &self.bytes[..self.written]
    }
}

#[tactic(auto, unfolding(crate::specs::Line::line_of))]
fn done(res: CoreResult) -> Line
    ensures { result ≡ line_of (0 ∷ result_numbers res) }
{
    let status = res.status;
    let value = res.return_value;
    Line::of(
        b"done",
        &[
            status.number(),
            u64::from(value.kind().number()),
            u64::from(value.payload()),
            res.fuel_used,
        ],
    )
}

#[tactic(auto, using(crate::proofs::Texts::refused_line))]
fn refused(number: u64, answer: u64) -> Line
    requires { 1 ≤ number }
    ensures { result ≡ line_of (number ∷ answer ∷ []) }
{
    Line::of(b"refused", &[number, answer])
}

#[tactic(auto, using(crate::proofs::Texts::some_number))]
fn answered(outcome: CoreOutcome) -> Line
    ensures { result ≡ line_of (outcome_numbers outcome) }
{
    match outcome {
        Ok(result) => done(result),
        Err(refusal) => {
            let (number, answer) = refusal.numbers();
            refused(number, answer)
        }
    }
}

// The line that answers an image. `more` says that the input has bytes after those in `image`, which is then as long as the runner can
// hold; both stand beside each other in the clause of `reply` too.
fn answer(image: &[u8], more: bool, frames: &mut [u64], registers: &mut [u64]) -> Line
    ensures line { result ≡ line_of (ran image.now more frames.old registers.old).answer }
    ensures frames_after { frames.new ≡ (ran image.now more frames.old registers.old).frames }
    ensures registers_after { registers.new ≡ (ran image.now more frames.old registers.old).regs }
{
    if more {
        return refused(8, 0);
    }
    answered(execute_outcome(image, CoreConfig::default(), frames, registers))
}

// That line at the start of `line`, and its length.
#[tactic(auto, unfolding(crate::specs::Line::reply_to))]
pub fn reply(
    image: &[u8],
    more: bool,
    frames: &mut [u64],
    registers: &mut [u64],
    line: &mut [u8; LINE_BYTES],
) -> usize
    ensures registers_after { replied result line.new frames.new registers.new ≡ reply_to image.now more frames.old registers.old line.old }
    ensures upper_bound { result ≤ length line.new }
{
    let answer = answer(image, more, frames, registers);
    let text = answer.text();
    line[..text.len()].copy_from_slice(text);
    text.len()
}
