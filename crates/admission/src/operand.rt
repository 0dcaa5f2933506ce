// The operands of one instruction of a function, decided by its opcode's number, with ranges for opcodes of equal operands: a rule of
// the project.
ghost use Rattle.std.specs.Prelude.{◌≡◌, ◌^◌, ◌<◌, ltb};
ghost use Rattle.basis.specs.Answers.{demand, or_else};
ghost use Rattle.image.specs.Records.{form1};
ghost use Rattle.image.specs.Program.{decode};
ghost use Rattle.image.specs.Parts.{functions_of, regs_of};
ghost use Rattle.admission.specs.Verdict.{refusal_numbers, verdict_numbers, register_fault, jump_fault, call_fault, window_fault, instr_fault};

use crate::CoreValidationError;
use crate::function::Function;
use image::program::Image;
use instr::Instr;

// What names a register, a place or a function has to be below their number.
fn below(n: usize, limit: usize, error: CoreValidationError) -> Result<(), CoreValidationError>
    ensures { verdict_numbers result ≡ demand (ltb n limit) (refusal_numbers error) }
{
    if n < limit {
        return Ok(());
    }
    Err(error)
}

// The registers of the function that a Call names, none where it is not there.
#[tactic(auto, using(image::proofs::Numbers::regs_in, image::proofs::Numbers::regs_out))]
fn callee_regs(image: Image, callee: usize) -> usize
    ensures { result ≡ regs_of (decode form1 image.entry.bytes.now) callee }
{
    match image.function(callee) {
        Some(row) => row.regs as usize,
        None => 0,
    }
}

impl<'a> Function<'a> {
    #[tactic(auto, unfolding(crate::specs::Verdict::register_fault))]
    fn check_register(self, reg: usize) -> Result<(), CoreValidationError>
        ensures { verdict_numbers result ≡ register_fault self.entry.number self.entry.row.regs reg }
    {
        let error = CoreValidationError::InvalidRegister {
            function: self.number,
            reg,
        };
        below(reg, self.row.regs as usize, error)
    }

    #[tactic(auto, unfolding(crate::specs::Verdict::jump_fault))]
    fn check_target(self, target: usize) -> Result<(), CoreValidationError>
        ensures { verdict_numbers result ≡ jump_fault self.entry.number self.entry.row.count target }
    {
        let error = CoreValidationError::InvalidJump {
            function: self.number,
            target,
        };
        below(target, self.row.count as usize, error)
    }

    #[tactic(auto, using(image::proofs::Parts::functions_length), unfolding(crate::specs::Verdict::call_fault))]
    fn check_callee(self, target: usize) -> Result<(), CoreValidationError>
        ensures { verdict_numbers result ≡ call_fault self.entry.number (functions_of (decode form1 self.entry.image.bytes.now)) target }
    {
        let error = CoreValidationError::InvalidCall {
            function: self.number,
            target,
        };
        below(target, self.image.function_count() as usize, error)
    }

    #[tactic(auto, unfolding(crate::specs::Verdict::window_fault))]
    fn check_window(self, room: usize, base: usize, count: usize) -> Result<(), CoreValidationError>
        requires { (base < 2 ^ 16) × (count < 2 ^ 32) }
        ensures { verdict_numbers result ≡ window_fault self.entry.number self.entry.row.regs room base count }
    {
        if base + count > self.row.regs as usize || count > room {
            return Err(CoreValidationError::InvalidArgWindow {
                function: self.number,
                base,
                count,
            });
        }
        Ok(())
    }

    fn check_two(self, first: usize, second: usize) -> Result<(), CoreValidationError>
        ensures { verdict_numbers result ≡ or_else (register_fault self.entry.number self.entry.row.regs first) (register_fault self.entry.number self.entry.row.regs second) }
    {
        self.check_register(first)?;
        self.check_register(second)
    }

    fn check_three(self, a: usize, b: usize, c: usize) -> Result<(), CoreValidationError>
        ensures { verdict_numbers result ≡ or_else (register_fault self.entry.number self.entry.row.regs a) (or_else (register_fault self.entry.number self.entry.row.regs b) (register_fault self.entry.number self.entry.row.regs c)) }
    {
        self.check_register(a)?;
        self.check_two(b, c)
    }

    fn check_branch(self, cond: usize, target: usize) -> Result<(), CoreValidationError>
        ensures { verdict_numbers result ≡ or_else (register_fault self.entry.number self.entry.row.regs cond) (jump_fault self.entry.number self.entry.row.count target) }
    {
        self.check_register(cond)?;
        self.check_target(target)
    }

    fn check_call(self, i: Instr) -> Result<(), CoreValidationError>
        requires { i.c < 2 ^ 16 }
        ensures { verdict_numbers result ≡ or_else (register_fault self.entry.number self.entry.row.regs i.a) (or_else (call_fault self.entry.number (functions_of (decode form1 self.entry.image.bytes.now)) i.b) (window_fault self.entry.number self.entry.row.regs (regs_of (decode form1 self.entry.image.bytes.now) i.b) i.c i.w)) }
    {
        self.check_register(i.a)?;
        self.check_callee(i.b)?;
        self.check_window(callee_regs(self.image, i.b), i.c, i.w as usize)
    }

    pub fn check_instr(self, i: Instr) -> Result<(), CoreValidationError>
        requires { i.c < 2 ^ 16 }
        ensures { verdict_numbers result ≡ instr_fault (decode form1 self.entry.image.bytes.now) self.entry.number i }
    {
        match i.op {
            2..=8 | 55 => self.check_register(i.a),
            9 | 15..=18 | 50 => self.check_two(i.a, i.b),
            10..=14 | 19..=49 => self.check_three(i.a, i.b, i.c),
            51 => self.check_target(i.w as usize),
            52..=53 => self.check_branch(i.a, i.w as usize),
            54 => self.check_call(i),
            _ => Ok(()),
        }
    }
}
