// Source document 000, its `validate_program`: whether a program may run at all under a profile. The program is an image, so its
// faults come first.
#![tactic(auto)]

ghost use Rattle.std.specs.Prelude.{◌≡◌};
ghost use Rattle.image.specs.Records.{form1};
ghost use Rattle.image.specs.Program.{decode};
ghost use Rattle.admission.specs.declared.CoreValidationError.TheVariants.{Image, Profile};
ghost use Rattle.admission.specs.Verdict.{verdict_numbers, program_fault, verdict};

use image::ImageFault;
use image::program::Image;
use runtime::{CoreAdmissionProfile, CoreProfileError};

mod function;
mod operand;

// Why a program may not run.
#[derive(Clone, Copy, Debug, PartialEq, Eq)]
pub enum CoreValidationError {
    Image(ImageFault),
    Profile(CoreProfileError),
    EmptyProgram,
    InvalidEntry(usize),
    TooManyFunctions {
        count: usize,
        max: usize,
    },
    TooManyRegisters {
        function: usize,
        regs: usize,
        max: usize,
    },
    TooManyInstructions {
        function: usize,
        instrs: usize,
        max: usize,
    },
    InvalidRegister {
        function: usize,
        reg: usize,
    },
    InvalidJump {
        function: usize,
        target: usize,
    },
    InvalidCall {
        function: usize,
        target: usize,
    },
    MissingReturn {
        function: usize,
    },
    InvalidArgWindow {
        function: usize,
        base: usize,
        count: usize,
    },
}

impl From<ImageFault> for CoreValidationError {
    ghost from_gives = { λ fault error. error ≡ Image fault };

    fn from(fault: ImageFault) -> CoreValidationError {
        CoreValidationError::Image(fault)
    }
}

impl From<CoreProfileError> for CoreValidationError {
    ghost from_gives = { λ fault error. error ≡ Profile fault };

    fn from(fault: CoreProfileError) -> CoreValidationError {
        CoreValidationError::Profile(fault)
    }
}

// The profile, then the program as a whole, then its functions in order.
#[tactic(auto, using(crate::proofs::Programs::by_profile, crate::proofs::Programs::no_functions, crate::proofs::Programs::too_many, crate::proofs::Programs::no_entry, crate::proofs::Programs::by_functions))]
fn program_fault(image: Image, profile: CoreAdmissionProfile) -> Result<(), CoreValidationError>
    ensures { verdict_numbers result ≡ program_fault profile (decode form1 image.entry.bytes.now) }
{
    profile.validate()?;
    let count = image.function_count() as usize;
    let max = profile.max_functions as usize;
    let entry = image.entry();
    if count == 0 {
        return Err(CoreValidationError::EmptyProgram);
    }
    if count > max {
        return Err(CoreValidationError::TooManyFunctions { count, max });
    }
    if entry >= count {
        return Err(CoreValidationError::InvalidEntry(entry));
    }
    function::check_all(image, profile)
}

#[tactic(auto, using(crate::proofs::Programs::by_image, crate::proofs::Programs::by_program))]
pub fn validate_program(
    image: &[u8],
    profile: CoreAdmissionProfile,
) -> Result<(), CoreValidationError>
    ensures { verdict_numbers result ≡ verdict form1 image.now profile }
{
    program_fault(Image::of(image)?, profile)
}
