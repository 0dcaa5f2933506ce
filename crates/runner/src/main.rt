// Reads an image from standard input and prints one line: what running it with the default configuration answered, or why it was
// refused. What the line says of the bytes that were read is proved, `answer`; no contract says which bytes standard input gives.
//
// Where standard input cannot be read or standard output cannot be written, there is no answer; standard error says so, and the exit
// status is 1.
#![tactic(auto)]

ghost use Rattle.std.specs.Prelude.{true, ◌≡◌, ◌-◌, ◌<◌, ◌≤◌, length, take, drop, IfOk, OnOk, IfSome, nat_lt};
ghost use Rattle.std.specs.Io.KnownBytes.{Appends, Consumes, IsAtEnd, ReadConsumes};
ghost use Rattle.text.specs.Line.{printed};
ghost use Rattle.runner.specs.Reading.{IsHeld, count_read};

use failure::Failure;
use std::io;
use std::io::{ErrorKind, Read, Write};
use std::process::ExitCode;
use text::line::{LINE_BYTES, reply};

// As many bytes of an image as the runner holds.
const IMAGE_BYTES: usize = 32768;

const REGISTERS: usize = 2048;

// 64 frames of four words.
const FRAME_WORDS: usize = 256;

// A read that failed, and how many bytes came before it.
#[derive(Clone, Copy, Debug)]
struct Unread {
    count: usize,
    error: io::Error,
}

// How many bytes of an image were read, and whether the input has bytes after them: `reply`'s clause has both beside each other.
#[derive(Clone, Copy, Debug, PartialEq, Eq)]
struct Held {
    count: usize,
    more: bool,
}

impl From<Unread> for io::Error {
    fn from(unread: Unread) -> io::Error {
        unread.error
    }
}

// One read behind the first `count` bytes, which stay.
fn read_on<R: Read>(input: &mut R, buf: &mut [u8], count: usize) -> io::Result<usize>
    requires { count ≤ length buf.old }
    ensures within { IfOk result (λ n. n ≤ length buf.new - count) }
    ensures buf_unchanged { take count buf.new ≡ take count buf.old }
    ensures taken { ReadConsumes (R.remaining input.old) (R.remaining input.new) result (drop count buf.new) }
{
    input.read(&mut buf[count..])
}

// Reads until buf is full or the input ends. A pipe gives what it has, so one read is seldom all; a signal may come before any byte. A
// proved loop ends, and nothing says that signals do: it gives up after more tries than a run makes.
fn fill<R: Read>(input: &mut R, buf: &mut [u8]) -> Result<usize, Unread>
    ensures in_bounds { count_read result ≤ length buf.new }
    ensures taken { Consumes (R.remaining input.old) (R.remaining input.new) (take (count_read result) buf.new) }
    ensures end { IfOk result (λ count. count < length buf.new → IsAtEnd (R.remaining input.new)) }
{
    let mut count = 0;
    for _try in 0..u64::MAX {
        if count == buf.len() {
            return Ok(count);
        }
        match read_on(input, buf, count) {
            Ok(0) => return Ok(count),
            Ok(n) => count += n,
            Err(e) if e.kind() == ErrorKind::Interrupted => {}
            Err(error) => return Err(Unread { count, error }),
        }
    }
    let error = io::Error::from(ErrorKind::Interrupted);
    Err(Unread { count, error })
}

// What came, and whether a byte came after it that image has no place for; that is looked for only where image is full.
fn read_image<R: Read>(input: &mut R, image: &mut [u8], next: &mut [u8]) -> io::Result<Held>
    ensures count_in_bounds { IfOk result (λ held. held.count ≤ length image.new) }
    ensures count_value { IfOk result (λ held. held.more ≡ true → held.count ≡ length image.new) }
    ensures whole { IfOk result (λ held. 0 < length next.old → IfSome (R.remaining input.old) (λ xs. IsHeld xs image.new held)) }
{
    let count = fill(input, image)?;
    let more = count == image.len() && fill(input, next)? > 0;
    Ok(Held { count, more })
}

// The line for what was read, by the runner's own frames and registers.
fn answer(image: &[u8], more: bool, line: &mut [u8; LINE_BYTES]) -> usize
    ensures line_after { take result line.new ≡ printed image.now more }
    ensures upper_bound { result ≤ length line.new }
{
    let mut registers = [0u64; REGISTERS];
    let mut frames = [0u64; FRAME_WORDS];
    reply(image, more, &mut frames, &mut registers, line)
}

// Writes it all; a write may take a part, and a signal may come before any byte.
fn write_line<W: Write>(output: &mut W, line: &[u8]) -> io::Result<()>
    ensures { OnOk result (Appends (W.contents output.old) (W.contents output.new) line.now) }
{
    output.write_all(line)
}

// The line for the whole input: for its first bytes, as many as the runner holds, and whether there are more.
fn print_answer<R: Read, W: Write>(input: &mut R, output: &mut W) -> Result<(), Failure>
    ensures { OnOk result (IfSome (R.remaining input.old) (λ xs. Appends (W.contents output.old) (W.contents output.new)
        (printed (take IMAGE_BYTES xs) (nat_lt IMAGE_BYTES (length xs))))) }
{
    // A read fills a slice of memory that is there, and no heap is used: so arrays, with counts beside them.
    let mut image = [0u8; IMAGE_BYTES];
    let mut next = [0u8; 1];
    let held = read_image(input, &mut image, &mut next).map_err(Failure::Unread)?;
    let mut line = [0u8; LINE_BYTES];
    let count = answer(&image[..held.count], held.more, &mut line);
    write_line(output, &line[..count]).map_err(Failure::Unwritten)
}

fn main(rt: HostRuntime) -> ExitCode {
    let Err(failure) = print_answer(&mut rt.stdin(), &mut rt.stdout()) else {
        return ExitCode::SUCCESS;
    };
    let _ = eprintln!(rt; "runner: {failure}");
    ExitCode::FAILURE
}
