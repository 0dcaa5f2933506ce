// Source document 001: traps, the admission profile and the fuel meter.
//
// Where the Rust names a field of a profile by a `&'static str`, a `ProfileField` does so here, whose number answers carry at the C boundary.
// The rule of `FuelMeter::consume(&mut self)` stands in `charge`, by value; `consume` is thin over it.
#![tactic(auto)]

ghost use Rattle.std.specs.Prelude.{◌≡◌, eqb};
ghost use Rattle.runtime.specs.Trap.{trap_code};
ghost use Rattle.runtime.specs.Profile.{field_number, profile_numbers, profile_fault, safe_profile};
ghost use Rattle.runtime.specs.Fuel.{charge_numbers, charge_fault, left};

#[derive(Clone, Copy, Debug, PartialEq, Eq)]
pub enum CoreTrap {
    InvalidPc = 0,
    InvalidRegister = 1,
    TypeMismatch = 2,
    DivisionByZero = 3,
    IntegerOverflow = 4,
    FuelExceeded = 5,
    CallDepthExceeded = 6,
    InvalidFunction = 7,
    AssertFailed = 8,
    ExplicitTrap = 9,
}

impl CoreTrap {
    pub fn code(self) -> u8
        ensures { result ≡ trap_code self }
    {
        self as u8
    }
}

// What a run may use at most.
#[derive(Clone, Copy, Debug, PartialEq, Eq)]
pub struct CoreAdmissionProfile {
    pub max_registers: u16,
    pub max_functions: u16,
    pub max_call_depth: u16,
    pub max_instrs_per_function: u32,
    pub max_fuel: u64,
}

// The fields of a profile, by the numbers that answers carry.
#[derive(Clone, Copy, Debug, PartialEq, Eq)]
pub enum ProfileField {
    MaxRegisters = 1,
    MaxFunctions = 2,
    MaxCallDepth = 3,
    MaxInstrsPerFunction = 4,
    MaxFuel = 5,
}

impl ProfileField {
    pub fn number(self) -> u8
        ensures { result ≡ field_number self }
    {
        self as u8
    }
}

// What is wrong with a profile: the first field that is 0, or the first above its bound.
#[derive(Clone, Copy, Debug, PartialEq, Eq)]
pub enum CoreProfileError {
    ZeroLimit(ProfileField),
    UnboundedLimit(ProfileField),
}

impl CoreAdmissionProfile {
    pub const MAX_REGISTERS_BOUND: u16 = 16_384;

    pub const MAX_FUNCTIONS_BOUND: u16 = 4_096;

    pub const MAX_CALL_DEPTH_BOUND: u16 = 1_024;

    pub const MAX_INSTRS_BOUND: u32 = 1_000_000;

    pub const MAX_FUEL_BOUND: u64 = 1_000_000_000;

    pub fn safe() -> Self
        ensures { result ≡ safe_profile }
    {
        Self {
            max_registers: 256,
            max_functions: 256,
            max_call_depth: 64,
            max_instrs_per_function: 8_192,
            max_fuel: 1_000_000,
        }
    }

    #[tactic(auto, unfolding(crate::specs::Profile::profile_fault))]
    pub fn validate(self) -> Result<(), CoreProfileError>
        ensures { profile_numbers result ≡ profile_fault self }
    {
        if self.max_registers == 0 {
            return Err(CoreProfileError::ZeroLimit(ProfileField::MaxRegisters));
        }
        if self.max_functions == 0 {
            return Err(CoreProfileError::ZeroLimit(ProfileField::MaxFunctions));
        }
        if self.max_call_depth == 0 {
            return Err(CoreProfileError::ZeroLimit(ProfileField::MaxCallDepth));
        }
        if self.max_instrs_per_function == 0 {
            return Err(CoreProfileError::ZeroLimit(ProfileField::MaxInstrsPerFunction));
        }
        if self.max_fuel == 0 {
            return Err(CoreProfileError::ZeroLimit(ProfileField::MaxFuel));
        }
        if self.max_registers > Self::MAX_REGISTERS_BOUND {
            return Err(CoreProfileError::UnboundedLimit(ProfileField::MaxRegisters));
        }
        if self.max_functions > Self::MAX_FUNCTIONS_BOUND {
            return Err(CoreProfileError::UnboundedLimit(ProfileField::MaxFunctions));
        }
        if self.max_call_depth > Self::MAX_CALL_DEPTH_BOUND {
            return Err(CoreProfileError::UnboundedLimit(ProfileField::MaxCallDepth));
        }
        if self.max_instrs_per_function > Self::MAX_INSTRS_BOUND {
            return Err(CoreProfileError::UnboundedLimit(ProfileField::MaxInstrsPerFunction));
        }
        if self.max_fuel > Self::MAX_FUEL_BOUND {
            return Err(CoreProfileError::UnboundedLimit(ProfileField::MaxFuel));
        }
        Ok(())
    }
}

#[derive(Clone, Copy, Debug, PartialEq, Eq)]
pub struct FuelMeter {
    pub remaining: u64,
}

// What is left of a meter that was charged, and whether the charge was paid.
#[derive(Clone, Copy, Debug, PartialEq, Eq)]
pub struct Charged {
    pub meter: FuelMeter,
    pub answer: Result<(), CoreTrap>,
}

impl FuelMeter {
    pub fn new(remaining: u64) -> Self
        ensures { result.remaining ≡ remaining }
    {
        Self { remaining }
    }

    // The rule of a charge, by value: a refused charge empties the meter.
    #[tactic(auto, unfolding(crate::specs::Fuel::charge_fault, crate::specs::Fuel::left))]
    pub fn charge(self, amount: u64) -> Charged
        ensures { (charge_numbers result.answer ≡ charge_fault self.remaining amount) × (result.meter.remaining ≡ left self.remaining amount) }
    {
        match self.remaining.checked_sub(amount) {
            Some(remaining) => Charged {
                meter: FuelMeter { remaining },
                answer: Ok(()),
            },
            None => Charged {
                meter: FuelMeter { remaining: 0 },
                answer: Err(CoreTrap::FuelExceeded),
            },
        }
    }

    // The Rust's own form: the caller's meter is charged.
    pub fn consume(&mut self, amount: u64) -> Result<(), CoreTrap>
        ensures { (charge_numbers result ≡ charge_fault self.old.remaining amount) × (self.new.remaining ≡ left self.old.remaining amount) }
    {
        let charged = self.charge(amount);
        *self = charged.meter;
        charged.answer
    }

    pub fn remaining(self) -> u64
        ensures { result ≡ self.remaining }
    {
        self.remaining
    }

    pub fn is_exhausted(self) -> bool
        ensures { result ≡ eqb self.remaining 0 }
    {
        self.remaining == 0
    }
}
