// Frames as the lent words hold them: records of FRAME_WORDS words, and each frame's registers after those of the frame below it.
//
// The two lent slices are passed beside each other. Tried: one struct of the image, both slices, the depth and its limit, with methods on
// `&mut self` and `Ready` said once. It proves, but the compiled loop then fetches the window's address anew for each opcode that reads a
// register: `./bench` gave 0.93 of the Rust's time for the counting loop, where this form has 0.73 and the landing before 0.86.
ghost use Rattle.std.specs.Prelude.{◌≡◌, ◌+◌, ◌*◌, ◌-◌, ◌≤◌, ◌<◌, length, set, take, drop, replicate};
ghost use Rattle.std.proofs.lemmas.List.Edits.{sets};
ghost use Rattle.image.specs.Records.{form1};
ghost use Rattle.image.specs.Program.{decode};
ghost use Rattle.image.specs.Parts.{functions_of};
ghost use Rattle.lent.specs.Records.{record_of, record_words};
ghost use Rattle.exec.specs.Lent.{record_in, function_word, unit_word, top_of};

use image::program::Image;
use lent::FrameRecord;

pub const FRAME_WORDS: usize = 4;

// A frame of the machine, with as many registers as its function has.
#[derive(Clone, Copy, Debug, PartialEq, Eq)]
pub struct Top {
    pub function: usize,
    pub place: usize,
    pub first: usize,
    pub limit: usize,
}

// The last of d frames.
pub fn running(image: Image, frames: &[u64], d: usize) -> Top
    requires le_d { 1 ≤ d }
    requires d_in_bounds { 4 * d ≤ length frames.now }
    requires d_bound { function_word frames.now (d - 1) < functions_of (decode form1 image.bytes.now) }
    ensures { result ≡ top_of (decode form1 image.entry.bytes.now) frames.now d }
{
    let at = FRAME_WORDS * (d - 1);
    let function = frames[at] as usize;
    Top {
        function,
        place: frames[at + 1] as usize,
        first: frames[at + 3] as usize,
        limit: image.function(function).unwrap().regs as usize,
    }
}

// The running frame's place, back in its record.
pub fn move_to(frames: &mut [u64], d: usize, place: u64)
    requires le_d { 1 ≤ d }
    requires d_in_bounds { 4 * d ≤ length frames.old }
    ensures { frames.new ≡ set frames.old (4 * (d - 1) + 1) place }
{
    frames[FRAME_WORDS * (d - 1) + 1] = place;
}

// Record k. The words are the caller's, as the C interface lends them; a conversion from an array of four would first copy them into one.
pub fn load_record(frames: &[u64], k: usize) -> FrameRecord
    requires { 4 * (k + 1) ≤ length frames.now }
    ensures { result ≡ record_in frames.now k }
{
    let at = FRAME_WORDS * k;
    FrameRecord {
        function: frames[at],
        place: frames[at + 1],
        dst: frames[at + 2],
        first: frames[at + 3],
    }
}

pub fn store_record(frames: &mut [u64], k: usize, r: FrameRecord)
    requires { 4 * (k + 1) ≤ length frames.old }
    ensures { frames.new ≡ sets frames.old (4 * k) (record_words r) }
{
    let at = FRAME_WORDS * k;
    frames[at] = r.function;
    frames[at + 1] = r.place;
    frames[at + 2] = r.dst;
    frames[at + 3] = r.first;
}

// The record of a frame that begins, on top of d others.
pub fn begin_record(frames: &mut [u64], d: usize, function: usize, dst: usize, first: usize)
    requires { 4 * (d + 1) ≤ length frames.old }
    ensures { frames.new ≡ sets frames.old (4 * d) (record_of function 0 dst first) }
{
    let r = FrameRecord {
        function: function as u64,
        place: 0,
        dst: dst as u64,
        first: first as u64,
    };
    store_record(frames, d, r);
}

// n registers from another place, which is below.
pub fn copy(registers: &mut [u64], src: usize, dst: usize, n: usize)
    requires n_bound { 1 ≤ n → src + n ≤ dst }
    requires n_in_bounds { dst + n ≤ length registers.old }
    ensures { registers.new ≡ sets registers.old dst (take n (drop src registers.old)) }
{
    if 0 < n {
        registers.copy_within(src..src + n, dst);
    }
}

// n registers become Unit.
pub fn clear(registers: &mut [u64], dst: usize, n: usize)
    requires { dst + n ≤ length registers.old }
    ensures { registers.new ≡ sets registers.old dst (replicate n unit_word) }
{
    registers[dst..dst + n].fill(0);
}
