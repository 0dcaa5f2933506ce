// One instruction in one frame: every opcode but Call and Ret, which leave it.
//
// `rule` is the rule, once for all opcodes; it only reads. `fan` has an arm for each opcode but Call and Ret, with the rule's copy for
// that opcode: a copy is compiled by itself first, so the compiler folds `operate` in it into the code of that opcode alone, and the
// match becomes one jump table. Without `inline(always)` a copy stays a call, since a call in one of more than fifty arms counts as
// cold. `straight` stores in one place for all opcodes, and the machine calls it in one.
#![tactic(auto)]

ghost use Rattle.std.specs.Prelude.{◌≡◌, Ok};
ghost use Rattle.straight.specs.Straight.{storing, branched, asks, local, stored, done, straight};

use instr::Instr;
use operate::{Outcome, operate, read};
use runtime::CoreTrap;
use value::word::Kind;

// What an instruction asks for, unless it traps. `Next` and `Jump` come first, as 0 and 1: a condition's truth value is then the choice
// between them, and the compiler makes it a branch where it would else make a second jump table.
#[derive(Clone, Copy, Debug, PartialEq, Eq)]
pub enum Deed {
    Next,
    Jump(usize),
    Put(u64),
    Leave,
}

// Where the frame goes on once it is done, unless it traps: at the next place or another, or nowhere.
#[derive(Clone, Copy, Debug, PartialEq, Eq)]
pub enum Went {
    On,
    To(usize),
    Leaves,
}

#[tactic(auto, unfolding(crate::specs::Straight::storing))]
fn to_store(x: Outcome) -> Result<Deed, CoreTrap>
    ensures { result ≡ storing x }
{
    match x? {
        Some(v) => Ok(Deed::Put(v)),
        None => Ok(Deed::Next),
    }
}

// Assert.
#[tactic(auto, unfolding(crate::specs::Flow::flow_of, crate::specs::Straight::asked, crate::specs::Straight::on_condition))]
fn assert(i: Instr, win: &[u64]) -> Result<Deed, CoreTrap>
    ensures { result ≡ asks 2 i win.now }
{
    let b = read::operand(win, i.a, Kind::Bool.number())?;
    if b == 0 {
        Err(CoreTrap::AssertFailed)
    } else {
        Ok(Deed::Next)
    }
}

// JumpIfTrue and JumpIfFalse.
#[tactic(auto, unfolding(crate::specs::Straight::on_condition))]
fn jump_if(truth: u32, i: Instr, win: &[u64]) -> Result<Deed, CoreTrap>
    ensures { result ≡ branched truth i win.now }
{
    let b = read::operand(win, i.a, Kind::Bool.number())?;
    if b == truth {
        Ok(Deed::Jump(i.w as usize))
    } else {
        Ok(Deed::Next)
    }
}

// The rule of one opcode. `operate` and all below it fold into each opcode's copy of it at the literal, and the copies into `fan`.
#[inline(always)]
#[tactic(auto, using(crate::proofs::Flows::stores, crate::proofs::Flows::leaving), unfolding(crate::specs::Flow::flow_of, crate::specs::Straight::asked))]
fn rule<const OP: u8>(i: Instr, win: &[u64]) -> Result<Deed, CoreTrap>
    ensures { result ≡ asks OP i win.now }
{
    match OP {
        0 => Ok(Deed::Next),
        1 => Err(CoreTrap::ExplicitTrap),
        2 => assert(i, win),
        3..=50 => to_store(operate(OP, i, win)),
        51 => Ok(Deed::Jump(i.w as usize)),
        52 => jump_if(1, i, win),
        53 => jump_if(0, i, win),
        _ => Ok(Deed::Leave),
    }
}

// Each opcode's own rule: the table over which the machine jumps. What leaves the frame comes last.
#[tactic(auto, using(crate::proofs::Flows::leaving))]
fn fan(op: u8, i: Instr, win: &[u64]) -> Result<Deed, CoreTrap>
    ensures { result ≡ asks op i win.now }
{
    match op {
        0 => rule::<0>(i, win),
        1 => rule::<1>(i, win),
        2 => rule::<2>(i, win),
        3 => rule::<3>(i, win),
        4 => rule::<4>(i, win),
        5 => rule::<5>(i, win),
        6 => rule::<6>(i, win),
        7 => rule::<7>(i, win),
        8 => rule::<8>(i, win),
        9 => rule::<9>(i, win),
        10 => rule::<10>(i, win),
        11 => rule::<11>(i, win),
        12 => rule::<12>(i, win),
        13 => rule::<13>(i, win),
        14 => rule::<14>(i, win),
        15 => rule::<15>(i, win),
        16 => rule::<16>(i, win),
        17 => rule::<17>(i, win),
        18 => rule::<18>(i, win),
        19 => rule::<19>(i, win),
        20 => rule::<20>(i, win),
        21 => rule::<21>(i, win),
        22 => rule::<22>(i, win),
        23 => rule::<23>(i, win),
        24 => rule::<24>(i, win),
        25 => rule::<25>(i, win),
        26 => rule::<26>(i, win),
        27 => rule::<27>(i, win),
        28 => rule::<28>(i, win),
        29 => rule::<29>(i, win),
        30 => rule::<30>(i, win),
        31 => rule::<31>(i, win),
        32 => rule::<32>(i, win),
        33 => rule::<33>(i, win),
        34 => rule::<34>(i, win),
        35 => rule::<35>(i, win),
        36 => rule::<36>(i, win),
        37 => rule::<37>(i, win),
        38 => rule::<38>(i, win),
        39 => rule::<39>(i, win),
        40 => rule::<40>(i, win),
        41 => rule::<41>(i, win),
        42 => rule::<42>(i, win),
        43 => rule::<43>(i, win),
        44 => rule::<44>(i, win),
        45 => rule::<45>(i, win),
        46 => rule::<46>(i, win),
        47 => rule::<47>(i, win),
        48 => rule::<48>(i, win),
        49 => rule::<49>(i, win),
        50 => rule::<50>(i, win),
        51 => rule::<51>(i, win),
        52 => rule::<52>(i, win),
        53 => rule::<53>(i, win),
        _ => Ok(Deed::Leave),
    }
}

#[tactic(auto, unfolding(crate::specs::Straight::stored))]
fn put(win: &mut [u64], dst: usize, v: u64) -> Result<Went, CoreTrap>
    ensures { local result win.new ≡ stored dst v win.old }
{
    if dst < win.len() {
        win[dst] = v;
        Ok(Went::On)
    } else {
        Err(CoreTrap::InvalidRegister)
    }
}

#[tactic(auto, unfolding(crate::specs::Straight::done))]
fn finish(deed: Deed, win: &mut [u64], dst: usize) -> Result<Went, CoreTrap>
    ensures { local result win.new ≡ done (Ok deed) dst win.old }
{
    match deed {
        Deed::Put(v) => put(win, dst, v),
        Deed::Next => Ok(Went::On),
        Deed::Jump(place) => Ok(Went::To(place)),
        Deed::Leave => Ok(Went::Leaves),
    }
}

#[tactic(auto, unfolding(crate::specs::Straight::straight, crate::specs::Straight::done))]
pub fn straight(i: Instr, win: &mut [u64]) -> Result<Went, CoreTrap>
    ensures { local result win.new ≡ straight i win.old }
{
    finish(fan(i.op, i, win)?, win, i.a)
}
