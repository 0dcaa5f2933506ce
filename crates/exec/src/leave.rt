// Call and Ret, which leave the running frame.
ghost use Rattle.std.specs.Prelude.{◌≡◌, true, ◌+◌, ◌*◌, ◌-◌, ◌≤◌, ◌<◌, ◌^◌, length};
ghost use Rattle.image.specs.Records.{form1};
ghost use Rattle.image.specs.Program.{decode};
ghost use Rattle.exec.specs.Lent.{top_of, state};
ghost use Rattle.exec.specs.Step.{stepped, window_fits, pushed_frames, pushed_regs, called, handed, returned, step};
ghost use Rattle.exec.specs.Burst.{Ready, AtLeave, Window};

use crate::burst::instr_of;
use crate::frame::{FRAME_WORDS, Top};
use crate::{Ending, Step, frame};
use image::program::Image;
use instr::Instr;
use runtime::CoreTrap;

// Opcodes are told apart by their numbers: a rule of the project.
const CALL: u8 = 54;

// A Call's arguments are within the caller's registers, and no more than the callee has.
#[tactic(auto, unfolding(crate::specs::Step::window_fits))]
fn window_fits(caller: usize, callee: usize, i: Instr) -> bool
    requires { i.c < 2 ^ 16 }
    ensures value { result ≡ window_fits caller callee i }
    ensures window { result ≡ true → Window caller callee i.c i.w }
{
    let count = i.w as usize;
    count == 0 || (i.c + count <= caller && count <= callee)
}

// A callee with n registers begins: its arguments first, and Unit after them.
#[tactic(auto, using(crate::proofs::Lists::push_regs), unfolding(crate::specs::Step::pushed_regs))]
fn push_registers(registers: &mut [u64], t: Top, i: Instr, n: usize)
    requires window { Window t.limit n i.c i.w }
    requires c_bound { i.c < 2 ^ 16 }
    requires n_in_bounds { t.first + t.limit + n ≤ length registers.old }
    ensures { registers.new ≡ pushed_regs registers.old t i n }
{
    let first = t.first + t.limit;
    let count = i.w as usize;
    frame::copy(registers, t.first + i.c, first, count);
    frame::clear(registers, first + count, n - count);
}

// The caller goes on after the Call, and the callee's record is on top.
#[tactic(auto, unfolding(crate::specs::Step::pushed_frames))]
fn push_record(frames: &mut [u64], d: usize, t: Top, i: Instr)
    requires le_d { 1 ≤ d }
    requires d_in_bounds { 4 * (d + 1) ≤ length frames.old }
    requires place_bound { t.place < 2 ^ 63 }
    requires limit_bound { t.first + t.limit < 2 ^ 64 }
    ensures { frames.new ≡ pushed_frames frames.old d t i }
{
    frame::move_to(frames, d, t.place as u64 + 1);
    frame::begin_record(frames, d, i.b, i.a, t.first + t.limit);
}

fn call(
    image: Image,
    frames: &mut [u64],
    registers: &mut [u64],
    d: usize,
    most: usize,
    t: Top,
    i: Instr,
) -> Step
    requires le_d { (1 ≤ d) × (4 * d ≤ length frames.old) × (t.first + t.limit ≤ length registers.old) × (t.place < 2 ^ 63) }
    requires c_bound { i.c < 2 ^ 16 }
    ensures { stepped result frames.new registers.new ≡ called (decode form1 image.entry.bytes.now) most (state frames.old registers.old d) t i }
{
    if most <= d {
        return Err(Ending::Trapped(CoreTrap::CallDepthExceeded));
    }
    let Some(callee) = image.function(i.b) else {
        return Err(Ending::Trapped(CoreTrap::InvalidFunction));
    };
    let n = callee.regs as usize;
    if !window_fits(t.limit, n, i) {
        return Err(Ending::Trapped(CoreTrap::InvalidRegister));
    }
    if frames.len() < FRAME_WORDS * (d + 1) {
        return Err(Ending::FrameRoom);
    }
    if registers.len() < t.first + t.limit + n {
        return Err(Ending::RegisterRoom);
    }
    push_registers(registers, t, i, n);
    push_record(frames, d, t, i);
    Ok(d + 1)
}

// What is returned goes into the frame below.
#[tactic(auto, using(crate::proofs::Leaving::hand_on, crate::proofs::Leaving::hand_no))]
fn hand_over(image: Image, frames: &[u64], registers: &mut [u64], d: usize, v: u64) -> Step
    requires ready { Ready (decode form1 image.bytes.now) frames.now (length registers.old) d }
    requires le_d { 2 ≤ d }
    ensures { stepped result frames.now registers.new ≡ handed (decode form1 image.entry.bytes.now) (state frames.now registers.old d) v }
{
    let dst = frames[FRAME_WORDS * (d - 1) + 2] as usize;
    let below = frame::running(image, frames, d - 1);
    if dst < below.limit {
        registers[below.first + dst] = v;
        Ok(d - 1)
    } else {
        Err(Ending::Trapped(CoreTrap::InvalidRegister))
    }
}

#[tactic(auto, using(crate::proofs::Leaving::ret_hand, crate::proofs::Leaving::ret_ends, crate::proofs::Leaving::ret_no))]
fn ret(image: Image, frames: &[u64], registers: &mut [u64], d: usize, t: Top, i: Instr) -> Step
    requires ready { Ready (decode form1 image.bytes.now) frames.now (length registers.old) d }
    requires t_value { t ≡ top_of (decode form1 image.bytes.now) frames.now d }
    ensures { stepped result frames.now registers.new ≡ returned (decode form1 image.entry.bytes.now) (state frames.now registers.old d) t i }
{
    if i.a < t.limit {
        let v = registers[t.first + i.a];
        if 1 < d {
            hand_over(image, frames, registers, d, v)
        } else {
            Err(Ending::Returned(v))
        }
    } else {
        Err(Ending::Trapped(CoreTrap::InvalidRegister))
    }
}

// The instruction at which the running frame t is left.
pub fn leave(
    image: Image,
    frames: &mut [u64],
    registers: &mut [u64],
    d: usize,
    most: usize,
    t: Top,
) -> Step
    requires ready { Ready (decode form1 image.bytes.now) frames.old (length registers.old) d }
    requires at_leave { AtLeave (decode form1 image.bytes.now) frames.old registers.old d }
    requires t_value { t ≡ top_of (decode form1 image.bytes.now) frames.old d }
    ensures { stepped result frames.new registers.new ≡ step (decode form1 image.entry.bytes.now) most (state frames.old registers.old d) }
{
    let f = image.function(t.function).unwrap();
    let code = image.code_place(f.first);
    let i = instr_of(image, code, t.place);
    if i.op == CALL {
        call(image, frames, registers, d, most, t, i)
    } else {
        ret(image, frames, registers, d, t, i)
    }
}
