// The functions that programs in C, Rust and Python call, by way of capi_c, whose exports of the same names hand on to them;
// include/knitcauldron.h declares these. Each takes its arguments apart, calls one proved function and writes the answer's words.
#![tactic(auto)]

ghost use Rattle.std.specs.Prelude.{◌≡◌, ◌≤◌, ◌∷◌};
ghost use Rattle.runtime.specs.Profile.{error_numbers};
ghost use Rattle.value.specs.Digest.{digested};
ghost use Rattle.image.specs.Image.{fault_numbers};
ghost use Rattle.image.specs.Records.{form1};
ghost use Rattle.admission.specs.Verdict.{refusal_numbers, verdict_numbers, verdict};
ghost use Rattle.exec.specs.Price.{unit};
ghost use Rattle.exec.specs.Execute.{result_numbers, outcome_numbers, execution};
ghost use Rattle.text.specs.Identifier.{id_numbers, identification};
ghost use Rattle.capi.specs.Boundary.{Answered, answer_of, with_digest, crossing, crossed, naming, named};

use admission::{CoreValidationError, validate_program};
use exec::config::{CoreConfig, CoreEnginePolicy};
use exec::{CoreOutcome, execute_outcome};
use image::ImageFault;
use runtime::{CoreAdmissionProfile, CoreProfileError};
use text::event::{EVENT_ID_BYTES, IdRoom, event_id};
use value::digest::digest_words;
use value::result::CoreResult;

// An answer's number and its five words: its values, and zeros after those that it has.
#[derive(Clone, Copy, Debug, PartialEq, Eq)]
pub struct Answer {
    pub number: u64,
    pub words: [u64; 5],
}

fn answer_of<const N: usize>(number: u64, values: [usize; N]) -> Answer
    requires { N ≤ 5 }
    ensures { result ≡ answer_of (number ∷ values.entry) }
{
    let mut words = [0; 5];
    for (i, value) in values.iter().enumerate() {
        words[i] = *value as u64;
    }
    Answer { number, words }
}

fn of_fault(fault: ImageFault) -> Answer
    ensures { result ≡ answer_of (fault_numbers fault) }
{
    let (number, value) = fault.numbers();
    answer_of(number, [value as usize])
}

fn of_profile(error: CoreProfileError) -> Answer
    ensures { result ≡ answer_of (10 ∷ error_numbers error) }
{
    match error {
        CoreProfileError::ZeroLimit(field) => answer_of(10, [0, usize::from(field.number())]),
        CoreProfileError::UnboundedLimit(field) => answer_of(10, [1, usize::from(field.number())]),
    }
}

fn of_refusal(error: CoreValidationError) -> Answer
    ensures { result ≡ answer_of (refusal_numbers error) }
{
    match error {
        CoreValidationError::Image(fault) => of_fault(fault),
        CoreValidationError::Profile(error) => of_profile(error),
        CoreValidationError::EmptyProgram => answer_of(11, []),
        CoreValidationError::InvalidEntry(entry) => answer_of(12, [entry]),
        CoreValidationError::TooManyFunctions { count, max } => answer_of(13, [count, max]),
        CoreValidationError::TooManyRegisters {
            function,
            regs,
            max,
        } => answer_of(14, [function, regs, max]),
        CoreValidationError::TooManyInstructions {
            function,
            instrs,
            max,
        } => answer_of(15, [function, instrs, max]),
        CoreValidationError::InvalidRegister { function, reg } => answer_of(16, [function, reg]),
        CoreValidationError::InvalidJump { function, target } => answer_of(17, [function, target]),
        CoreValidationError::InvalidCall { function, target } => answer_of(18, [function, target]),
        CoreValidationError::MissingReturn { function } => answer_of(19, [function]),
        CoreValidationError::InvalidArgWindow {
            function,
            base,
            count,
        } => answer_of(20, [function, base, count]),
    }
}

#[tactic(auto, unfolding(crate::specs::Boundary::number_of, crate::specs::Boundary::words_of))]
fn of_verdict(verdict: Result<(), CoreValidationError>) -> Answer
    ensures { result ≡ answer_of (verdict_numbers verdict) }
{
    match verdict {
        Ok(()) => answer_of(0, []),
        Err(error) => of_refusal(error),
    }
}

// Status, kind, payload, fuel used and digest.
#[tactic(auto, unfolding(crate::specs::Boundary::with_digest, crate::specs::Boundary::number_of, crate::specs::Boundary::words_of))]
fn of_result(res: CoreResult) -> Answer
    ensures { result ≡ answer_of (with_digest (0 ∷ result_numbers res)) }
{
    let status = res.status.number();
    let kind = u64::from(res.return_value.kind().number());
    let payload = u64::from(res.return_value.payload());
    let used = res.fuel_used;
    let digest = digest_words(status, kind, payload, used);
    Answer {
        number: 0,
        words: [status, kind, payload, used, digest],
    }
}

// A refusal for room answers with the fuel used.
#[tactic(auto, using(crate::proofs::Words::refusal_alone), unfolding(crate::specs::Boundary::with_digest))]
fn of_outcome(outcome: CoreOutcome) -> Answer
    ensures { result ≡ answer_of (with_digest (outcome_numbers outcome)) }
{
    match outcome {
        Ok(result) => of_result(result),
        Err(refusal) => {
            let (number, value) = refusal.numbers();
            answer_of(number, [value as usize])
        }
    }
}

fn of_event_id(id: Result<(), IdRoom>) -> Answer
    ensures { result ≡ answer_of (id_numbers id) }
{
    match id {
        Ok(()) => answer_of(0, [EVENT_ID_BYTES]),
        Err(IdRoom) => answer_of(9, [0]),
    }
}

pub fn knit_validate(
    image: &[u8],
    max_registers: u16,
    max_functions: u16,
    max_call_depth: u16,
    max_instrs_per_function: u32,
    max_fuel: u64,
    answer: &mut [u64; 5],
) -> u64
    ensures { Answered (verdict form1 image.now (record { max_registers = max_registers; max_functions = max_functions; max_call_depth = max_call_depth; max_instrs_per_function = max_instrs_per_function; max_fuel = max_fuel })) result answer.new }
{
    let profile = CoreAdmissionProfile {
        max_registers,
        max_functions,
        max_call_depth,
        max_instrs_per_function,
        max_fuel,
    };
    let Answer { number, words } = of_verdict(validate_program(image, profile));
    *answer = words;
    number
}

pub fn knit_execute(
    image: &[u8],
    fuel: u64,
    max_call_depth: u16,
    frames: &mut [u64],
    registers: &mut [u64],
    answer: &mut [u64; 5],
) -> u64
    ensures { crossing result answer.new frames.new registers.new ≡ crossed (execution form1 unit image.now max_call_depth fuel frames.old registers.old) }
{
    let config = CoreConfig {
        fuel,
        max_call_depth,
        engine_policy: CoreEnginePolicy::Auto,
        validate_before_execute: true,
        profile: CoreAdmissionProfile::safe(),
    };
    let Answer { number, words } = of_outcome(execute_outcome(image, config, frames, registers));
    *answer = words;
    number
}

pub fn knit_digest(status: u64, kind: u64, payload: u64, fuel_used: u64) -> u64
    ensures { result ≡ digested status kind payload fuel_used }
{
    digest_words(status, kind, payload, fuel_used)
}

pub fn knit_event_id(lesson: u32, digest: u64, out: &mut [u8], answer: &mut [u64; 5]) -> u64
    ensures { naming result answer.new out.new ≡ named (identification lesson digest out.old) }
{
    let Answer { number, words } = of_event_id(event_id(lesson, digest, out));
    *answer = words;
    number
}
