// Operands out of a register window, and words into it.
ghost use Rattle.std.specs.Prelude.{◌≡◌, ◌≤◌, ◌^◌};
ghost use Rattle.value.specs.Value.{payloads};
ghost use Rattle.operate.specs.Rule.{valued};
ghost use Rattle.operate.specs.Operate.{read_as};

use crate::Outcome;
use runtime::CoreTrap;
use value::word::Kind;

// A kind is its number here: `operand` and `word` are public and take any number, and a `Kind` would ask more of their callers.
const UNIT: u8 = Kind::Unit as u8;

const QUAD: u8 = Kind::Quad as u8;

const BOOL: u8 = Kind::Bool as u8;

// How many payloads a kind has.
fn payloads_of(kind: u8) -> u64
    ensures { (result ≡ payloads kind) × (result ≤ 2 ^ 32) }
{
    match kind {
        UNIT => 1,
        QUAD => 4,
        BOOL => 2,
        _ => 0x1_0000_0000,
    }
}

// A register read as a kind. The words of a kind lie side by side: a word is one of them unless it lies below the first or past the last.
#[tactic(auto, using(crate::proofs::Words::read_missing, crate::proofs::Words::read_below, crate::proofs::Words::read_inside, crate::proofs::Words::read_above))]
pub fn operand(win: &[u64], r: usize, kind: u8) -> Result<u32, CoreTrap>
    ensures { result ≡ read_as kind win.now r }
{
    let word = *win.get(r).ok_or(CoreTrap::InvalidRegister)?;
    let first = kind as u64 * 0x1_0000_0000;
    // Tried: `checked_sub`. Its two tests are no plainer than these, and the compiler made both in each read where it joins these into one,
    // so that the machine's loop had an eighth more code. It was not timed.
    if word < first {
        return Err(CoreTrap::TypeMismatch);
    }
    let payload = word - first;
    if payload < payloads_of(kind) {
        Ok(payload as u32)
    } else {
        Err(CoreTrap::TypeMismatch)
    }
}

// The word of a kind and a payload.
pub fn word(kind: u8, payload: u32) -> Outcome
    ensures { result ≡ valued kind payload }
{
    Ok(Some(kind as u64 * 0x1_0000_0000 + payload as u64))
}
