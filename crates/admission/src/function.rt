// The functions of a program, one after the other.
ghost use Rattle.std.specs.Prelude.{◌≡◌, ◌<◌};
ghost use Rattle.basis.specs.Answers.{first_of};
ghost use Rattle.image.specs.Records.{form1, header_of, function_no};
ghost use Rattle.image.specs.Program.{decode};
ghost use Rattle.admission.specs.Verdict.{verdict_numbers, code_fault, function_fault};

use crate::CoreValidationError;
use image::program::Image;
use image::record::FunctionRecord;
use runtime::CoreAdmissionProfile;

// Opcodes are told apart by their numbers: a rule of the project.
const RET: u8 = 55;

// A function of a program: its number, and its row of the function table. It derives no more, since it holds an Image, which has no
// equality.
#[derive(Clone, Copy, Debug)]
pub struct Function<'a> {
    pub image: Image<'a>,
    pub number: usize,
    pub row: FunctionRecord,
    pub ghost exists: { number < (header_of image.bytes.now).functions },
    pub ghost is_read: { row ≡ function_no image.bytes.now number },
}

impl<'a> Function<'a> {
    pub fn of(image: Image<'a>, number: usize) -> Function<'a>
        requires { number < (header_of image.bytes.now).functions }
        ensures image_value { result.image.bytes.now ≡ image.entry.bytes.now }
        ensures number_value { result.number ≡ number }
    {
        Function {
            image,
            number,
            row: image.function(number).unwrap(),
        }
    }

    // Each instruction in order, then that one of them returns.
    #[tactic(auto, using(basis::proofs::First::first_none, crate::proofs::Functions::returns_none, crate::proofs::Functions::returns_more, crate::proofs::Functions::code_more, crate::proofs::Functions::code_found, crate::proofs::Functions::code_fine, crate::proofs::Functions::code_missing))]
    fn check_code(self) -> Result<(), CoreValidationError>
        ensures { verdict_numbers result ≡ code_fault (decode form1 self.entry.image.bytes.now) self.entry.number }
    {
        let start = self.image.code_place(self.row.first);
        let mut has_return = false;
        for j in 0..self.row.count as usize {
            let i = self.image.instr(start, j).unwrap();
            self.check_instr(i)?;
            has_return |= i.op == RET;
        }
        if has_return {
            return Ok(());
        }
        let function = self.number;
        Err(CoreValidationError::MissingReturn { function })
    }

    // Its registers, its length, its code.
    #[tactic(auto, using(crate::proofs::Functions::too_wide, crate::proofs::Functions::too_long, crate::proofs::Functions::by_code))]
    fn check(self, profile: CoreAdmissionProfile) -> Result<(), CoreValidationError>
        ensures { verdict_numbers result ≡ function_fault profile (decode form1 self.entry.image.bytes.now) self.entry.number }
    {
        let function = self.number;
        let regs = self.row.regs as usize;
        let instrs = self.row.count as usize;
        let max_regs = profile.max_registers as usize;
        let max_instrs = profile.max_instrs_per_function as usize;
        if regs > max_regs {
            return Err(CoreValidationError::TooManyRegisters {
                function,
                regs,
                max: max_regs,
            });
        }
        if instrs > max_instrs {
            return Err(CoreValidationError::TooManyInstructions {
                function,
                instrs,
                max: max_instrs,
            });
        }
        self.check_code()
    }
}

#[tactic(auto, using(basis::proofs::First::first_none, basis::proofs::First::first_more, crate::proofs::Functions::all_found))]
pub fn check_all(image: Image, profile: CoreAdmissionProfile) -> Result<(), CoreValidationError>
    ensures { verdict_numbers result ≡ first_of (function_fault profile (decode form1 image.entry.bytes.now)) (header_of image.entry.bytes.now).functions }
{
    for k in 0..image.function_count() as usize {
        Function::of(image, k).check(profile)?;
    }
    Ok(())
}
