// Answers a stream of cases, one line each, so that they can be compared with the answers of the Rust: `operate`, `validate` and `run`,
// as oracle/README.md describes them. A line that is no case is answered `bad line`, one that is longer than this program holds or needs
// more than 64 frames or 16,384 registers `too large`. The cases and answers beside this program are made by oracle/make-list.
//
// Where standard input cannot be read or standard output cannot be written, the answers end there; standard error says so.
#![tactic(auto)]

ghost use Rattle.std.specs.Prelude.{◌≡◌, ◌+◌, ◌-◌, ◌≤◌, ◌↔◌, ◌++◌, [], Some, OnOk, IsTrue, length};
ghost use Rattle.replay.specs.Lines.{line_room, held_by, taken, HoldsMore};
ghost use Rattle.replay.specs.declared.Line.TheVariants.{Skipped};

use arrayvec::ArrayVec;
use failure::Failure;
use lines::{Unanswered, print_too_large};
use std::io::{ErrorKind, Read};
use std::{io, mem};

mod fields;
mod lines;
mod operation;
mod program;

// Room for the longest line, of 16,383 bytes, and its line feed. A read asks for as much as the line that is being read leaves of it.
const LINE_ROOM: usize = 16384;

// The line that is being read: its bytes so far; or, where it is too long and has its answer, how many of its bytes were passed over
// since the room was last full.
#[derive(Drop)]
enum Line {
    Held(ArrayVec<u8, LINE_ROOM>),
    Skipped(usize),
}

fn answer(rt: &impl Print, line: &[u8]) -> Result<(), Unanswered> {
    if let Some(text) = line.strip_prefix(b"operate ") {
        return operation::answer_operation(rt, text);
    }
    if let Some(text) = line.strip_prefix(b"validate ") {
        return program::answer_validate(rt, text);
    }
    if let Some(text) = line.strip_prefix(b"run ") {
        return program::answer_run(rt, text);
    }
    Err(Unanswered::NoCase)
}

fn answer_line(rt: &impl Print, line: &[u8]) -> io::Result<()> {
    match answer(rt, line) {
        Ok(()) => Ok(()),
        Err(Unanswered::NoCase) => println!(rt; "bad line"),
        Err(Unanswered::Unwritten(error)) => Err(error),
    }
}

impl Line {
    fn new() -> Line
        ensures { held_by result ≡ Some [] }
    {
        Line::Held(ArrayVec::new())
    }

    // How many more bytes there is room for.
    fn room(&self) -> usize
        ensures { result ≡ line_room - taken self.now }
    {
        match self {
            Line::Held(bytes) => bytes.remaining_capacity(),
            Line::Skipped(count) => LINE_ROOM.saturating_sub(*count),
        }
    }

    // More of the line, for which there is room.
    fn hold(&mut self, more: &[u8])
        ensures { HoldsMore self.old more.now self.new }
    {
        match self {
            Line::Held(bytes) => {
                let _ = bytes.try_extend_from_slice(more);
            }
            Line::Skipped(count) => {
                *count = count.saturating_add(more.len());
            }
        }
    }

    // Its line feed has come: it is answered, unless it has its answer, and the next line begins.
    fn end(&mut self, rt: &impl Print) -> io::Result<()>
        ensures { OnOk result (held_by self.new ≡ Some []) }
    {
        match self {
            Line::Held(bytes) => {
                answer_line(rt, bytes.as_slice())?;
                bytes.clear();
            }
            Line::Skipped(_) => {
                *self = Line::new();
            }
        }
        Ok(())
    }

    // The room is full, and no line feed has come: the line is too long.
    fn give_up(&mut self, rt: &impl Print) -> io::Result<()>
        ensures { self.new ≡ Skipped 0 }
    {
        let line = mem::replace(self, Line::Skipped(0));
        match line {
            Line::Held(_) => print_too_large(rt),
            Line::Skipped(_) => Ok(()),
        }
    }

    // The input has ended; its last line need not have a line feed.
    fn finish(self, rt: &impl Print) -> io::Result<()> {
        match self {
            Line::Held(bytes) if !bytes.is_empty() => answer_line(rt, bytes.as_slice()),
            _ => Ok(()),
        }
    }
}

fn is_line_feed(byte: &u8) -> bool
    ensures { IsTrue result ↔ (byte.now ≡ 10) }
{
    *byte == b'\n'
}

// A proved loop ends, and nothing says that an input does: it stops after more turns than a list of cases takes. In a turn a line ends, or
// the room for one is full, or a read is made.
fn answer_all(rt: &impl Print, input: &mut impl Read) -> Result<(), Failure> {
    let mut chunk = [0u8; LINE_ROOM];
    let mut unread = 0..0;
    let mut line = Line::new();
    for _turn in 0..u32::MAX {
        let mut parts = chunk
            .get(unread.start..unread.end)
            .unwrap_or(&[])
            .splitn(2, is_line_feed);
        line.hold(parts.next().unwrap_or(&[]));
        if let Some(rest) = parts.next() {
            unread.start = unread.end.saturating_sub(rest.len());
            line.end(rt).map_err(Failure::Unwritten)?;
        } else if line.room() == 0 {
            unread = 0..0;
            line.give_up(rt).map_err(Failure::Unwritten)?;
        } else {
            unread = match input.read(&mut chunk[..line.room()]) {
                Ok(0) => return line.finish(rt).map_err(Failure::Unwritten),
                Ok(count) => 0..count,
                Err(e) if e.kind() == ErrorKind::Interrupted => 0..0,
                Err(e) => return Err(Failure::Unread(e)),
            };
        }
    }
    Ok(())
}

fn main(rt: HostRuntime) {
    if let Err(failure) = answer_all(&rt, &mut rt.stdin()) {
        let _ = eprintln!(rt; "replay: {failure}");
    }
}
