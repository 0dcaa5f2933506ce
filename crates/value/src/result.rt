// How a run ended: with a value, or with a trap and the value Unit.
ghost use Rattle.std.specs.Prelude.{◌≡◌};
ghost use Rattle.value.specs.Result.{status_word, returned_with, trapped_with};

use crate::word::CoreValue;
use runtime::CoreTrap;

// The Rust's own two types. Status and value are a word of the digest each, of a trap too, whose value is Unit; a `Result` would have no
// value for a trap, and `result_digest` and `trapped_with` of specs/ speak of both.
#[derive(Clone, Copy, Debug, PartialEq, Eq)]
pub enum CoreStatus {
    Returned,
    Trapped(CoreTrap),
}

impl CoreStatus {
    // 0, or one more than the trap's code.
    pub fn number(self) -> u64
        ensures { result ≡ status_word self }
    {
        match self {
            CoreStatus::Returned => 0,
            CoreStatus::Trapped(t) => 1 + t.code() as u64,
        }
    }
}

#[derive(Clone, Copy, Debug, PartialEq, Eq)]
pub struct CoreResult {
    pub status: CoreStatus,
    pub return_value: CoreValue,
    pub fuel_used: u64,
}

impl CoreResult {
    pub fn returned(return_value: CoreValue, fuel_used: u64) -> Self
        ensures { result ≡ returned_with return_value fuel_used }
    {
        Self {
            status: CoreStatus::Returned,
            return_value,
            fuel_used,
        }
    }

    pub fn trapped(trap: CoreTrap, fuel_used: u64) -> Self
        ensures { result ≡ trapped_with trap fuel_used }
    {
        Self {
            status: CoreStatus::Trapped(trap),
            return_value: CoreValue::Unit,
            fuel_used,
        }
    }
}
