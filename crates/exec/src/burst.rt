// The inner loop: the running frame goes on by itself, with its place and the fuel in locals and its registers as a part of the lent
// words. Everything that a step of every opcode shares stands here once: the test of the place, the instruction, the charge. The
// charge is the meter's rule on a plain number: through the meter a step would have five machine instructions more.
ghost use Rattle.std.specs.Prelude.{◌≡◌, ◌+◌, ◌*◌, ◌≤◌, ◌<◌, ◌^◌, length};
ghost use Rattle.image.specs.Records.{form1, form1_instr};
ghost use Rattle.image.specs.Program.{decode};
ghost use Rattle.image.specs.Parts.{functions_of};
ghost use Rattle.exec.specs.Price.{unit};
ghost use Rattle.exec.specs.Lent.{state, top_of};
ghost use Rattle.exec.specs.Burst.{halted, burst, paused, stretch, Ready};

use crate::frame;
use crate::frame::Top;
use image::program::Image;
use image::record::{INSTR_SIZE, instr_at};
use instr::Instr;
use runtime::CoreTrap;
use straight::{Went, straight};

// Why a burst stopped: at the function's end, without fuel for the next instruction, by a trap, or at a Call or Ret, which is charged
// and has not acted yet. A `Result` with a trap would lose what `one_step` asks: whether the trap is an instruction's own.
#[derive(Clone, Copy, Debug, PartialEq, Eq)]
pub enum Why {
    Past,
    Dry,
    Fails(CoreTrap),
    Leaves,
}

#[derive(Clone, Copy, Debug, PartialEq, Eq)]
pub struct Halt {
    pub why: Why,
    pub place: usize,
    pub left: u64,
}

// What an instruction is charged.
#[tactic(auto, unfolding(crate::specs::Price::unit))]
fn price(op: u8) -> u64
    ensures { result ≡ unit op }
{
    1
}

// The instruction at a place of the code that starts there, out of its own bytes. Tried: with `Image::instr` and `unwrap` the loop tests
// for the record's end in each step, and `./bench` gave 1.09 of the Rust's time for the counting loop in place of 0.73.
#[tactic(auto, using(image::proofs::Slices::instr_in_slice))]
pub fn instr_of(image: Image, code: usize, place: usize) -> Instr
    requires { code + 12 * place + 12 ≤ length image.bytes.now }
    ensures value { result ≡ form1_instr image.entry.bytes.now (code + 12 * place) }
    ensures bound { (result.a < 2 ^ 16) × (result.b < 2 ^ 16) × (result.c < 2 ^ 16) }
{
    let at = code + INSTR_SIZE * place;
    instr_at(&image.bytes[at..at + INSTR_SIZE], 0)
}

fn burst(image: Image, function: usize, win: &mut [u64], from: usize, fuel: u64) -> Halt
    requires { function < functions_of (decode form1 image.bytes.now) }
    ensures { halted result.why result.place result.left win.new ≡ burst (decode form1 image.entry.bytes.now) unit function fuel fuel from win.old }
{
    let f = image.function(function).unwrap();
    let code = image.code_place(f.first);
    let count = f.count as usize;
    let mut place = from;
    let mut left = fuel;
    // The place is the program's and goes where jumps say, so no iterator walks it.
    loop {
        if count <= place {
            return Halt {
                why: Why::Past,
                place,
                left,
            };
        }
        let i = instr_of(image, code, place);
        let cost = price(i.op);
        if left < cost {
            return Halt {
                why: Why::Dry,
                place,
                left: 0,
            };
        }
        left -= cost;
        match straight(i, win) {
            Ok(Went::On) => {
                place += 1;
            }
            Ok(Went::To(q)) => {
                place = q;
            }
            Ok(Went::Leaves) => {
                return Halt {
                    why: Why::Leaves,
                    place,
                    left,
                };
            }
            Err(t) => {
                return Halt {
                    why: Why::Fails(t),
                    place,
                    left,
                };
            }
        }
    }
}

// A burst that stopped, and its frame then.
#[derive(Clone, Copy, Debug, PartialEq, Eq)]
pub struct Pause {
    pub why: Why,
    pub left: u64,
    pub top: Top,
}

// The running frame's burst: its registers are lent as a part, and its place goes back into its record.
pub fn stretch(
    image: Image,
    frames: &mut [u64],
    registers: &mut [u64],
    d: usize,
    fuel: u64,
) -> Pause
    requires { Ready (decode form1 image.bytes.now) frames.old (length registers.old) d }
    ensures registers_after { paused result.why result.left frames.new registers.new ≡ stretch (decode form1 image.entry.bytes.now) unit fuel (state frames.old registers.old d) }
    ensures top_value { result.top ≡ top_of (decode form1 image.entry.bytes.now) frames.new d }
{
    let t = frame::running(image, frames, d);
    let window = &mut registers[t.first..t.first + t.limit];
    let h = burst(image, t.function, window, t.place, fuel);
    frame::move_to(frames, d, h.place as u64);
    Pause {
        why: h.why,
        left: h.left,
        top: Top {
            place: h.place,
            ..t
        },
    }
}
