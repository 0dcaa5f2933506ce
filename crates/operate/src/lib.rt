// What an instruction makes of the running frame's registers: a register word, or a trap. Nothing is stored here.
//
// One function decides for the opcodes 3 to 50. By a rule of the project each opcode is a decision by its number, with ranges for
// groups of equal operands; so the functions below it, which are small, take the number along. Called with the opcode as a literal, the
// compiler folds them into the code of that opcode alone.
#![tactic(auto)]

ghost use Rattle.std.specs.Prelude.{◌≡◌, ◌≤◌, ◌<◌};
ghost use Rattle.value.specs.Value.{kind_number};
ghost use Rattle.operate.specs.Parts.{rule_kind, on_one, on_two, on_load};
ghost use Rattle.operate.specs.Opcodes.{rule_of};
ghost use Rattle.operate.specs.Operate.{read_one, read_two, read_dividing, read_shortcut, read_any, operated};

use instr::Instr;
use runtime::CoreTrap;
use value::word::Kind;

mod apply;
pub mod read;

// What an instruction computes: a register word or a trap. Opcodes that compute no value, and numbers that are no opcode, answer None.
pub type Outcome = Result<Option<u64>, CoreTrap>;

// The type of an opcode's operands, by its number.
#[tactic(auto, unfolding(crate::specs::Opcodes::rules, crate::specs::Opcodes::rule_of, crate::specs::Parts::rule_kind))]
fn kind_of(op: u8) -> Kind
    requires { (9 ≤ op) × (op < 50) }
    ensures { kind_number result ≡ rule_kind (rule_of op) }
{
    match op {
        0..=17 => Kind::Quad,
        18..=22 => Kind::Bool,
        23..=31 => Kind::I32,
        32..=40 => Kind::U32,
        _ => Kind::Fx,
    }
}

#[tactic(auto, unfolding(crate::specs::Operate::read_one))]
fn one_operand(op: u8, win: &[u64], src: usize) -> Outcome
    requires { (9 ≤ op) × (op < 19) }
    ensures { result ≡ read_one (rule_kind (rule_of op)) (on_one (rule_of op)) win.now src }
{
    let p = read::operand(win, src, kind_of(op).number())?;
    apply::one(op, p)
}

#[tactic(auto, unfolding(crate::specs::Operate::read_two))]
fn two_operands(op: u8, win: &[u64], lhs: usize, rhs: usize) -> Outcome
    requires { (10 ≤ op) × (op < 50) }
    ensures { result ≡ read_two (rule_kind (rule_of op)) (on_two (rule_of op)) win.now lhs rhs }
{
    let kind = kind_of(op).number();
    let l = read::operand(win, lhs, kind)?;
    let r = read::operand(win, rhs, kind)?;
    apply::two(op, l, r)
}

// I32Div and U32Div read rhs and test it before they read lhs.
#[tactic(auto, unfolding(crate::specs::Operate::read_dividing))]
fn dividing(op: u8, win: &[u64], lhs: usize, rhs: usize) -> Outcome
    requires { (10 ≤ op) × (op < 50) }
    ensures { result ≡ read_dividing (rule_kind (rule_of op)) (on_two (rule_of op)) win.now lhs rhs }
{
    let kind = kind_of(op).number();
    let divisor = read::operand(win, rhs, kind)?;
    if divisor == 0 {
        return Err(CoreTrap::DivisionByZero);
    }
    let dividend = read::operand(win, lhs, kind)?;
    apply::two(op, dividend, divisor)
}

// BoolAnd is done at a false lhs, BoolOr at a true one; else rhs is the answer.
#[tactic(auto, unfolding(crate::specs::Operate::read_shortcut))]
fn shortcut(stop: u32, win: &[u64], lhs: usize, rhs: usize) -> Outcome
    ensures { result ≡ read_shortcut stop win.now lhs rhs }
{
    let kind = Kind::Bool.number();
    let l = read::operand(win, lhs, kind)?;
    if l == stop {
        return read::word(kind, l);
    }
    let r = read::operand(win, rhs, kind)?;
    read::word(kind, r)
}

#[tactic(auto, unfolding(crate::specs::Operate::read_any))]
fn moved(win: &[u64], src: usize) -> Outcome
    ensures { result ≡ read_any win.now src }
{
    let word = win.get(src).ok_or(CoreTrap::InvalidRegister)?;
    Ok(Some(*word))
}

// LoadUnit, LoadQuad, LoadBool, LoadI32, LoadU32, LoadFx.
#[tactic(auto, unfolding(crate::specs::Opcodes::rules, crate::specs::Opcodes::rule_of, crate::specs::Parts::on_load))]
fn loaded(op: u8, small: u8, w: u32) -> Outcome
    requires { (3 ≤ op) × (op < 9) }
    ensures { result ≡ on_load (rule_of op) small w }
{
    match op {
        3 => read::word(Kind::Unit.number(), 0),
        4 => read::word(Kind::Quad.number(), small as u32),
        5 => read::word(Kind::Bool.number(), small as u32),
        6 => read::word(Kind::I32.number(), w),
        7 => read::word(Kind::U32.number(), w),
        _ => read::word(Kind::Fx.number(), w),
    }
}

// What the instruction computes, whose opcode is passed beside it so that a caller can pass a literal.
#[tactic(auto, using(crate::proofs::Rows::load_rows, crate::proofs::Rows::quad_rows, crate::proofs::Rows::one_rows, crate::proofs::Rows::two_rows, crate::proofs::Rows::computes_nothing), unfolding(crate::specs::Opcodes::rules, crate::specs::Opcodes::rule_of, crate::specs::Operate::computed, crate::specs::Parts::rule_kind, crate::specs::Parts::on_one, crate::specs::Parts::on_two))]
pub fn operate(op: u8, i: Instr, win: &[u64]) -> Outcome
    ensures { result ≡ operated op i win.now }
{
    match op {
        3..=8 => loaded(op, i.small, i.w),
        9 => one_operand(op, win, i.b),
        10..=14 => two_operands(op, win, i.b, i.c),
        15..=18 => one_operand(op, win, i.b),
        19 => shortcut(0, win, i.b, i.c),
        20 => shortcut(1, win, i.b, i.c),
        26 => dividing(op, win, i.b, i.c),
        35 => dividing(op, win, i.b, i.c),
        21..=49 => two_operands(op, win, i.b, i.c),
        50 => moved(win, i.b),
        _ => Ok(None),
    }
}
