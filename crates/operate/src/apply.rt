// The operations on payloads of the opcode's own kind. Each opcode is a decision by its number, with ranges for groups of equal
// operands: a rule of the project.
ghost use Rattle.std.specs.Prelude.{◌≡◌, ◌≤◌, ◌<◌};
ghost use Rattle.quad.specs.Quad.{inverse_bits};
ghost use Rattle.value.specs.Checked.{signed};
ghost use Rattle.operate.specs.Rule.{bool_result};
ghost use Rattle.operate.specs.Parts.{on_one, on_two, arithmetic, relation};
ghost use Rattle.operate.specs.Opcodes.{rule_of};

use crate::{Outcome, read};
use runtime::CoreTrap;
use std::cmp::Ordering;
use value::checked;
use value::checked::Checked;
use value::fx::Fx;
use value::word::Kind;

#[tactic(auto, unfolding(crate::specs::Rule::bool_result))]
fn truth(b: bool) -> Outcome
    ensures { result ≡ bool_result b }
{
    read::word(Kind::Bool.number(), b as u32)
}

// Beside QuadState's own method, as are the tests in `one`: a register holds bits, and a QuadState in between would be a second decision.
fn inverse(bits: u32) -> u32
    ensures { result ≡ inverse_bits bits }
{
    match bits {
        1 => 2,
        2 => 1,
        _ => bits,
    }
}

// QNot, QIsKnown, QIsConflict, QIsNull, BoolNot.
#[tactic(auto, unfolding(crate::specs::Opcodes::rules, crate::specs::Opcodes::rule_of, crate::specs::Parts::on_one))]
pub fn one(op: u8, p: u32) -> Outcome
    requires { (9 ≤ op) × (op < 19) }
    ensures { result ≡ on_one (rule_of op) p }
{
    match op {
        9 => read::word(Kind::Quad.number(), inverse(p)),
        15 => truth((p == 1) | (p == 2)),
        16 => truth(p == 3),
        17 | 18 => truth(p == 0),
        _ => Ok(None),
    }
}

fn fixed_of(p: u32) -> Fx
    ensures { result.0 ≡ signed p }
{
    Fx::from_raw(checked::signed_of(p))
}

// Add, Sub, Mul, Div of a type of numbers. `which` is the opcode less its group's first: each opcode is a decision by its number.
#[tactic(auto, unfolding(crate::specs::Parts::arithmetic))]
fn arithmetic<N: Checked>(which: u8, a: N, b: N) -> Result<N, CoreTrap>
    requires { which < 4 }
    ensures { result ≡ arithmetic N.checked N.product N.quotient which (N.number a) (N.number b) }
{
    match which {
        0 => a.add_checked(b),
        1 => a.sub_checked(b),
        2 => a.mul_checked(b),
        _ => a.div_checked(b),
    }
}

// Lt, Le, Gt, Ge of two values in this order, by the opcode less its group's first as above.
#[tactic(auto, unfolding(crate::specs::Parts::relation))]
fn compared(which: u8, order: Ordering) -> Outcome
    requires { which < 4 }
    ensures { result ≡ bool_result (relation which order) }
{
    truth(match which {
        0 => order.is_lt(),
        1 => order.is_le(),
        2 => order.is_gt(),
        _ => order.is_ge(),
    })
}

// The operation on lhs and rhs. Two values of a kind are equal where their payloads are.
#[tactic(auto, unfolding(crate::specs::Opcodes::rules, crate::specs::Opcodes::rule_of, crate::specs::Parts::on_two))]
pub fn two(op: u8, l: u32, r: u32) -> Outcome
    requires { (10 ≤ op) × (op < 50) }
    ensures { result ≡ on_two (rule_of op) l r }
{
    match op {
        // QJoin, QMeet, QImpl.
        10 => read::word(Kind::Quad.number(), l | r),
        11 => read::word(Kind::Quad.number(), l & r),
        12 => read::word(Kind::Quad.number(), inverse(l) | r),
        // Eq and Ne of each kind that has them.
        13 | 21 | 27 | 36 | 45 => truth(l == r),
        14 | 22 => truth(l != r),
        // Add, Sub, Mul, Div of I32, U32 and Fx.
        23..=26 => {
            let v = arithmetic(op - 23, checked::signed_of(l), checked::signed_of(r))?;
            read::word(Kind::I32.number(), checked::payload_of(v))
        }
        32..=35 => read::word(Kind::U32.number(), arithmetic(op - 32, l, r)?),
        41..=44 => {
            let v = arithmetic(op - 41, fixed_of(l), fixed_of(r))?;
            read::word(Kind::Fx.number(), v.payload())
        }
        // Lt, Le, Gt, Ge of I32, U32 and Fx.
        28..=31 => compared(op - 28, checked::signed_of(l).cmp(&checked::signed_of(r))),
        37..=40 => compared(op - 37, l.cmp(&r)),
        46..=49 => compared(op - 46, fixed_of(l).cmp(fixed_of(r))),
        _ => Ok(None),
    }
}
