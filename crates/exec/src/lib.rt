// Source document 000, its executor: one step, the run, `execute_outcome` and `execute`, over frames and registers that the caller
// lends. The program is an image, so its faults come first.
//
// A run is turns: bursts of one frame, and Call and Ret between them. The definition that all of it is proved against knows nothing of
// that: it does step after step.
#![tactic(auto)]

ghost use Rattle.std.specs.Prelude.{◌≡◌, [], ◌∷◌, ◌+◌, ◌*◌, ◌-◌, ◌<◌, length};
ghost use Rattle.value.specs.Value.{value_at};
ghost use Rattle.image.specs.Records.{form1};
ghost use Rattle.image.specs.Program.{decode};
ghost use Rattle.exec.specs.declared.Refusal.TheVariants.{Image};
ghost use Rattle.exec.specs.Price.{unit};
ghost use Rattle.exec.specs.Lent.{state};
ghost use Rattle.exec.specs.Step.{stepped, stands_at, stands, round, found, step_found};
ghost use Rattle.exec.specs.Run.{final, run};
ghost use Rattle.exec.specs.Execute.{refusal_numbers, outcome_numbers, value_in, outcome_of, made, entered, executed, execution, by_status, settled, execution_numbers, trap_alone};
ghost use Rattle.exec.specs.Burst.{Ready, Good};

use burst::Why;
use config::CoreConfig;
use frame::FRAME_WORDS;
use image::ImageFault;
use image::program::Image;
use runtime::CoreTrap;
use value::result::{CoreResult, CoreStatus};
use value::word::CoreValue;

mod burst;
pub mod config;
mod frame;
pub mod in_frames;
mod leave;
mod turn;

// How a run ends: with a register word, with a trap, or without room for a frame.
#[derive(Clone, Copy, Debug, PartialEq, Eq)]
pub enum Ending {
    Returned(u64),
    Trapped(CoreTrap),
    FrameRoom,
    RegisterRoom,
}

// After a step there are so many frames, or the run is over.
pub type Step = Result<usize, Ending>;

// A run's end and the fuel that it used.
#[derive(Clone, Copy, Debug, PartialEq, Eq)]
pub struct Ended {
    pub what: Ending,
    pub used: u64,
}

// Why there is no result: bytes that are no image, or a frame with no room for its record or its registers. Those for room say how
// much fuel was used.
#[derive(Clone, Copy, Debug, PartialEq, Eq)]
pub enum Refusal {
    Image(ImageFault),
    FrameRoom(u64),
    RegisterRoom(u64),
}

impl From<ImageFault> for Refusal {
    ghost from_gives = { λ fault r. r ≡ Image fault };

    fn from(fault: ImageFault) -> Refusal {
        Refusal::Image(fault)
    }
}

impl Refusal {
    // Its number, and what it answers with: where the image is at fault, or the fuel used.
    pub fn numbers(self) -> (u64, u64)
        ensures { refusal_numbers self ≡ result.0 ∷ result.1 ∷ [] }
    {
        match self {
            Refusal::Image(error) => error.numbers(),
            Refusal::FrameRoom(used) => (6, used),
            Refusal::RegisterRoom(used) => (7, used),
        }
    }
}

// What an execution answers.
pub type CoreOutcome = Result<CoreResult, Refusal>;

// The same with a trap by itself.
pub type CoreExecution = Result<Result<CoreResult, CoreTrap>, Refusal>;

// The run of the entry frame, which stands: turn after turn.
fn run(image: Image, frames: &mut [u64], registers: &mut [u64], most: usize, fuel: u64) -> Ended
    requires { Good (decode form1 image.bytes.now) frames.old (length registers.old) 1 }
    ensures { final result.what result.used frames.new registers.new ≡ run (decode form1 image.entry.bytes.now) unit most fuel (state frames.old registers.old 1) }
{
    let mut d = 1;
    let mut left = fuel;
    loop {
        let t = turn::turn(image, frames, registers, d, most, left);
        left = t.left;
        match t.step {
            Ok(n) => {
                d = n;
            }
            Err(what) => {
                return Ended {
                    what,
                    used: fuel - left,
                };
            }
        }
    }
}

// The entry frame is made, as the first of all frames.
fn make(image: Image, frames: &mut [u64], registers: &mut [u64]) -> Step
    ensures { stepped result frames.new registers.new ≡ made (decode form1 image.entry.bytes.now) frames.old registers.old }
{
    let entry = image.entry();
    let Some(f) = image.function(entry) else {
        return Err(Ending::Trapped(CoreTrap::InvalidFunction));
    };
    if frames.len() < FRAME_WORDS {
        return Err(Ending::FrameRoom);
    }
    let n = f.regs as usize;
    if registers.len() < n {
        return Err(Ending::RegisterRoom);
    }
    frame::begin_record(frames, 0, entry, 0, 0);
    frame::clear(registers, 0, n);
    Ok(1)
}

// The entry frame, and the run.
fn enter(image: Image, frames: &mut [u64], registers: &mut [u64], most: usize, fuel: u64) -> Ended
    ensures { final result.what result.used frames.new registers.new ≡ entered (decode form1 image.entry.bytes.now) unit most fuel frames.old registers.old }
{
    match make(image, frames, registers) {
        Ok(_) => run(image, frames, registers, most, fuel),
        Err(what) => Ended { what, used: 0 },
    }
}

// The value that a word holds. In a run every register holds one.
#[tactic(auto, unfolding(crate::specs::Execute::value_in))]
fn value_in(word: u64) -> CoreValue
    ensures { result ≡ value_in (value_at word) }
{
    CoreValue::from_word(word).unwrap_or(CoreValue::Unit)
}

fn outcome_of(e: Ended) -> CoreOutcome
    ensures { result ≡ outcome_of e.what e.used }
{
    match e.what {
        Ending::Returned(word) => Ok(CoreResult::returned(value_in(word), e.used)),
        Ending::Trapped(t) => Ok(CoreResult::trapped(t, e.used)),
        Ending::FrameRoom => Err(Refusal::FrameRoom(e.used)),
        Ending::RegisterRoom => Err(Refusal::RegisterRoom(e.used)),
    }
}

pub fn execute_outcome(
    image: &[u8],
    config: CoreConfig,
    frames: &mut [u64],
    registers: &mut [u64],
) -> CoreOutcome
    ensures { executed (outcome_numbers result) frames.new registers.new ≡ execution form1 unit image.now config.max_call_depth config.fuel frames.old registers.old }
{
    let image = Image::of(image)?;
    let most = config.max_call_depth as usize;
    outcome_of(enter(image, frames, registers, most, config.fuel))
}

fn by_status(r: CoreResult) -> Result<CoreResult, CoreTrap>
    ensures { result ≡ by_status r.status r }
{
    match r.status {
        CoreStatus::Returned => Ok(r),
        CoreStatus::Trapped(t) => Err(t),
    }
}

#[tactic(auto, unfolding(crate::specs::Execute::settled))]
fn settle(o: CoreOutcome) -> CoreExecution
    ensures { result ≡ settled o }
{
    Ok(by_status(o?))
}

// Record k is whole, its function exists, and its registers are among the n lent ones.
fn stands_at(image: Image, frames: &[u64], n: usize, k: usize) -> bool
    ensures { result ≡ stands_at (decode form1 image.entry.bytes.now) frames.now n k }
{
    if frames.len() / FRAME_WORDS <= k {
        return false;
    }
    let function = frames[FRAME_WORDS * k] as usize;
    let Some(f) = image.function(function) else {
        return false;
    };
    let first = frames[FRAME_WORDS * k + 3] as usize;
    if n < first {
        return false;
    }
    f.regs as usize <= n - first
}

#[tactic(auto, unfolding(crate::specs::Step::stands))]
fn frame_stands(image: Image, frames: &[u64], n: usize, d: usize) -> bool
    ensures { result ≡ stands (decode form1 image.entry.bytes.now) frames.now n d }
{
    0 < d && stands_at(image, frames, n, d - 1) && (d == 1 || stands_at(image, frames, n, d - 2))
}

// A burst with fuel for one instruction, and Call or Ret if that is where it stops.
fn one_step(image: Image, frames: &mut [u64], registers: &mut [u64], d: usize, most: usize) -> Step
    requires { Ready (decode form1 image.bytes.now) frames.old (length registers.old) d }
    ensures { stepped result frames.new registers.new ≡ round (decode form1 image.entry.bytes.now) most (state frames.old registers.old d) }
{
    let h = burst::stretch(image, frames, registers, d, 1);
    match h.why {
        Why::Past => if h.left == 0 {
            Ok(d)
        } else {
            Err(Ending::Trapped(CoreTrap::InvalidPc))
        },
        Why::Dry => Ok(d),
        Why::Fails(t) => Err(Ending::Trapped(t)),
        Why::Leaves => leave::leave(image, frames, registers, d, most, h.top),
    }
}

// One step of the last of `depth` frames, of any bytes and any lent words: for whoever wants to see a run from the inside. None: the
// bytes are no image, or no frame stands at this depth.
pub fn step_once(
    image: &[u8],
    max_call_depth: u16,
    frames: &mut [u64],
    registers: &mut [u64],
    depth: usize,
) -> Option<Step>
    ensures { found result frames.new registers.new ≡ step_found form1 image.now max_call_depth (state frames.old registers.old depth) }
{
    let Ok(image) = Image::of(image) else {
        return None;
    };
    if frame_stands(image, frames, registers.len(), depth) {
        Some(one_step(image, frames, registers, depth, max_call_depth as usize))
    } else {
        None
    }
}

// An executor is its configuration.
#[derive(Clone, Copy, Debug, PartialEq, Eq)]
pub struct CoreExecutor {
    pub config: CoreConfig,
}

impl CoreExecutor {
    pub fn new(config: CoreConfig) -> Self
        ensures { result.config ≡ config }
    {
        Self { config }
    }

    pub fn config(self) -> CoreConfig
        ensures { result ≡ self.config }
    {
        self.config
    }

    pub fn execute_outcome(
        self,
        image: &[u8],
        frames: &mut [u64],
        registers: &mut [u64],
    ) -> CoreOutcome
        ensures { executed (outcome_numbers result) frames.new registers.new ≡ execution form1 unit image.now self.config.max_call_depth self.config.fuel frames.old registers.old }
    {
        execute_outcome(image, self.config, frames, registers)
    }

    // The result, or the trap by itself.
    pub fn execute(self, image: &[u8], frames: &mut [u64], registers: &mut [u64]) -> CoreExecution
        ensures { executed (execution_numbers result) frames.new registers.new ≡ trap_alone (execution form1 unit image.now self.config.max_call_depth self.config.fuel frames.old registers.old) }
    {
        settle(execute_outcome(image, self.config, frames, registers))
    }
}
