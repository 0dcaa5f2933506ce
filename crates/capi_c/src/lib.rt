// The C boundary: what a program in C, Rust or Python links, with include/knitcauldron.h. Each function hands on to the one of its name
// in capi and says the same, clause for clause; this crate is by itself because a static library is no library for other crates.
#![tactic(auto)]

ghost use Rattle.std.specs.Prelude.{◌≡◌};
ghost use Rattle.value.specs.Digest.{digested};
ghost use Rattle.image.specs.Records.{form1};
ghost use Rattle.admission.specs.Verdict.{verdict};
ghost use Rattle.exec.specs.Price.{unit};
ghost use Rattle.exec.specs.Execute.{execution};
ghost use Rattle.text.specs.Identifier.{identification};
ghost use Rattle.capi.specs.Boundary.{Answered, crossing, crossed, naming, named};

#[unsafe(no_mangle)]
pub extern "C" fn knit_validate(
    image: &[u8],
    max_registers: u16,
    max_functions: u16,
    max_call_depth: u16,
    max_instrs_per_function: u32,
    max_fuel: u64,
    answer: &mut [u64; 5],
) -> u64
    ensures { Answered (verdict form1 image.now (record { max_registers = max_registers; max_functions = max_functions; max_call_depth = max_call_depth; max_instrs_per_function = max_instrs_per_function; max_fuel = max_fuel })) result answer.new }
{
    capi::knit_validate(
        image,
        max_registers,
        max_functions,
        max_call_depth,
        max_instrs_per_function,
        max_fuel,
        answer,
    )
}

#[unsafe(no_mangle)]
pub extern "C" fn knit_execute(
    image: &[u8],
    fuel: u64,
    max_call_depth: u16,
    frames: &mut [u64],
    registers: &mut [u64],
    answer: &mut [u64; 5],
) -> u64
    ensures { crossing result answer.new frames.new registers.new ≡ crossed (execution form1 unit image.now max_call_depth fuel frames.old registers.old) }
{
    capi::knit_execute(image, fuel, max_call_depth, frames, registers, answer)
}

#[unsafe(no_mangle)]
pub extern "C" fn knit_digest(status: u64, kind: u64, payload: u64, fuel_used: u64) -> u64
    ensures { result ≡ digested status kind payload fuel_used }
{
    capi::knit_digest(status, kind, payload, fuel_used)
}

#[unsafe(no_mangle)]
pub extern "C" fn knit_event_id(
    lesson: u32,
    digest: u64,
    out: &mut [u8],
    answer: &mut [u64; 5],
) -> u64
    ensures { naming result answer.new out.new ≡ named (identification lesson digest out.old) }
{
    capi::knit_event_id(lesson, digest, out, answer)
}
