// `execute_outcome` over frame records that the caller lends as structs: the same answers and the same records as over words.
//
// Three functions here have the records or pass them on, and they are thin. What a run does is done by functions that take records by
// value: a turn reads the running frame's record and the one below it, and writes the running frame's and the one above it, so it is
// the word form's own turn on a window of three records.
ghost use Rattle.std.specs.Prelude.{◌≡◌, ◌*◌, ◌-◌, ◌≤◌, eqb, length, take, replicate, Ok};
ghost use Rattle.basis.specs.Choice.{pick};
ghost use Rattle.image.specs.Records.{form1};
ghost use Rattle.image.specs.Program.{decode};
ghost use Rattle.lent.specs.Records.{words_of};
ghost use Rattle.exec.specs.Price.{unit};
ghost use Rattle.exec.specs.Lent.{state};
ghost use Rattle.exec.specs.Run.{final};
ghost use Rattle.exec.specs.Burst.{turned, turn};
ghost use Rattle.exec.specs.Execute.{outcome_numbers, executed, execution};
ghost use Rattle.exec.specs.InFrames.{shown, window_of, seen, comes_to, Stands, Enters, Under, Advances, Onward};

use crate::config::CoreConfig;
use crate::frame::FRAME_WORDS;
use crate::{CoreOutcome, Ended, frame, make, outcome_of, turn};
use image::program::Image;
use lent::{FrameRecord, put_record, record_at};

// The words of three records: all that a turn touches.
const WINDOW_WORDS: usize = 12;

// A run over records that goes on. The record of the running frame is held here, and stored among the lent ones at the end of each of
// its turns.
#[derive(Clone, Copy, Debug, PartialEq, Eq)]
struct Machine {
    depth: usize,
    records: usize,
    most: usize,
    fuel: u64,
    left: u64,
    top: FrameRecord,
}

// What comes after a turn, and the record to store.
#[derive(Clone, Copy, Debug, PartialEq, Eq)]
struct Moved {
    next: Result<Machine, Ended>,
    at: usize,
    stored: FrameRecord,
}

// One record to put the entry frame's in, or none.
fn first_record(records: usize) -> usize
    ensures value { result ≡ pick (eqb records 0) 0 1 }
    ensures upper_bound { result ≤ 1 }
{
    if records == 0 { 0 } else { 1 }
}

// The entry frame, of a well-formed image, by the word form's own function on the one record that it writes.
fn enter(
    image: Image,
    most: usize,
    fuel: u64,
    records: usize,
    registers: &mut [u64],
) -> Result<Machine, Ended>
    ensures { Enters image.entry.bytes.now most fuel records registers.old result registers.new }
{
    let mut words = [0; FRAME_WORDS];
    let n = first_record(records);
    match make(image, &mut words[..FRAME_WORDS * n], registers) {
        Ok(_) => Ok(Machine {
            depth: 1,
            records,
            most,
            fuel,
            left: fuel,
            top: frame::load_record(&words, 0),
        }),
        Err(what) => Err(Ended { what, used: 0 }),
    }
}

// How many frames of that many a window shows.
fn shown(depth: usize) -> usize
    ensures value { result ≡ shown depth }
    ensures lower_bound { (1 ≤ result) × (result ≤ 2) }
{
    if depth == 1 { 1 } else { 2 }
}

// How many records: one more, if there is one to push a frame on.
fn window(depth: usize, records: usize) -> usize
    ensures value { result ≡ window_of depth records }
    ensures upper_bound { result ≤ 3 }
{
    let k = shown(depth);
    if depth < records { k + 1 } else { k }
}

// A turn of the running frame in a window of the records.
fn turn_in_window(
    image: Image,
    words: &mut [u64],
    registers: &mut [u64],
    below: FrameRecord,
    m: Machine,
) -> turn::After
    requires words_value { words.old ≡ replicate 12 0 }
    requires under { Under image.bytes.now m (length registers.old) below }
    ensures { turned result.left result.step (take (4 * window_of m.depth m.records) words.new) registers.new ≡ turn (decode form1 image.entry.bytes.now) unit (m.most - (m.depth - shown m.depth)) m.left (state (words_of (seen m below)) registers.old (shown m.depth)) }
{
    let k = shown(m.depth);
    let n = window(m.depth, m.records);
    let most = m.most.saturating_sub(m.depth - k);
    frame::store_record(words, 0, below);
    frame::store_record(words, k - 1, m.top);
    turn::turn(
        image,
        &mut words[..FRAME_WORDS * n],
        registers,
        k,
        most,
        m.left,
    )
}

// One turn, with the record below the running frame's, or any where there is none.
fn advance(image: Image, registers: &mut [u64], below: FrameRecord, m: Machine) -> Moved
    requires { Under image.bytes.now m (length registers.old) below }
    ensures { Advances image.entry.bytes.now m registers.old below result registers.new }
{
    let mut words = [0; WINDOW_WORDS];
    let t = turn_in_window(image, &mut words, registers, below, m);
    let k = shown(m.depth);
    let stored = frame::load_record(&words, k - 1);
    let next = match t.step {
        Ok(j) => Ok(Machine {
            depth: m.depth - k + j,
            left: t.left,
            top: frame::load_record(&words, j - 1),
            ..m
        }),
        Err(what) => Err(Ended {
            what,
            used: m.fuel - t.left,
        }),
    };
    Moved {
        next,
        at: m.depth - 1,
        stored,
    }
}

// The same over the lent records.
fn go_on(
    image: Image,
    frames: &mut [FrameRecord],
    registers: &mut [u64],
    m: Machine,
) -> Result<Machine, Ended>
    requires { Stands image.bytes.now m frames.old (length registers.old) }
    ensures { Onward image.entry.bytes.now m frames.old registers.old result frames.new registers.new }
{
    let below = record_at(frames, m.depth.saturating_sub(2));
    let t = advance(image, registers, below, m);
    put_record(frames, t.at, t.stored);
    t.next
}

fn run(image: Image, frames: &mut [FrameRecord], registers: &mut [u64], m: Machine) -> Ended
    requires { Stands image.bytes.now m frames.old (length registers.old) }
    ensures { final result.what result.used (words_of frames.new) registers.new ≡ comes_to (decode form1 image.entry.bytes.now) (Ok m) frames.old registers.old }
{
    let mut m = m;
    loop {
        match go_on(image, frames, registers, m) {
            Ok(next) => {
                m = next;
            }
            Err(e) => {
                return e;
            }
        }
    }
}

pub fn execute_outcome_in_frames(
    image: &[u8],
    config: CoreConfig,
    frames: &mut [FrameRecord],
    registers: &mut [u64],
) -> CoreOutcome
    ensures { executed (outcome_numbers result) (words_of frames.new) registers.new ≡ execution form1 unit image.now config.max_call_depth config.fuel (words_of frames.old) registers.old }
{
    let image = Image::of(image)?;
    let most = config.max_call_depth as usize;
    match enter(image, most, config.fuel, frames.len(), registers) {
        Ok(m) => outcome_of(run(image, frames, registers, m)),
        Err(e) => outcome_of(e),
    }
}
