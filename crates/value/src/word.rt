// Values and the register words that hold them: kind times 2^32 plus a payload of 32 bits.
ghost use Rattle.std.specs.Prelude.{◌≡◌};
ghost use Rattle.value.specs.Value.{kind_number, kind_of, payload_of, word_of, value_at, quad_value, bool_value, unit_value};

use crate::checked;
use crate::fx::Fx;
use quad::QuadState;

// The types of values, by the numbers that registers and the digest carry.
#[derive(Clone, Copy, Debug, PartialEq, Eq)]
pub enum Kind {
    Unit = 0,
    Quad = 1,
    Bool = 2,
    I32 = 3,
    U32 = 4,
    Fx = 5,
    Tuple = 6,
    Record = 7,
    Adt = 8,
}

impl Kind {
    pub fn number(self) -> u8
        ensures { result ≡ kind_number self }
    {
        self as u8
    }
}

// The kinds as words divided by 2^32 give them.
const UNIT: u64 = Kind::Unit as u64;

const QUAD: u64 = Kind::Quad as u64;

const BOOL: u64 = Kind::Bool as u64;

const I32: u64 = Kind::I32 as u64;

const U32: u64 = Kind::U32 as u64;

const FX: u64 = Kind::Fx as u64;

const TUPLE: u64 = Kind::Tuple as u64;

const RECORD: u64 = Kind::Record as u64;

const ADT: u64 = Kind::Adt as u64;

#[derive(Clone, Copy, Debug, PartialEq, Eq)]
pub struct TupleRef(pub u32);

#[derive(Clone, Copy, Debug, PartialEq, Eq)]
pub struct RecordRef(pub u32);

#[derive(Clone, Copy, Debug, PartialEq, Eq)]
pub struct AdtRef(pub u32);

#[derive(Clone, Copy, Debug, PartialEq, Eq)]
pub enum CoreValue {
    Unit,
    Quad(QuadState),
    Bool(bool),
    I32(i32),
    U32(u32),
    Fx(Fx),
    Tuple(TupleRef),
    Record(RecordRef),
    Adt(AdtRef),
}

impl CoreValue {
    pub fn kind(self) -> Kind
        ensures { kind_number result ≡ kind_of self }
    {
        match self {
            CoreValue::Unit => Kind::Unit,
            CoreValue::Quad(_) => Kind::Quad,
            CoreValue::Bool(_) => Kind::Bool,
            CoreValue::I32(_) => Kind::I32,
            CoreValue::U32(_) => Kind::U32,
            CoreValue::Fx(_) => Kind::Fx,
            CoreValue::Tuple(_) => Kind::Tuple,
            CoreValue::Record(_) => Kind::Record,
            CoreValue::Adt(_) => Kind::Adt,
        }
    }

    pub fn payload(self) -> u32
        ensures { result ≡ payload_of self }
    {
        match self {
            CoreValue::Unit => 0,
            CoreValue::Quad(q) => q.bits() as u32,
            CoreValue::Bool(b) => b as u32,
            CoreValue::I32(v) => checked::payload_of(v),
            CoreValue::U32(v) => v,
            CoreValue::Fx(v) => v.payload(),
            CoreValue::Tuple(t) => t.0,
            CoreValue::Record(r) => r.0,
            CoreValue::Adt(a) => a.0,
        }
    }

    #[tactic(auto, unfolding(crate::specs::Value::word_of))]
    pub fn to_word(self) -> u64
        ensures { result ≡ word_of self }
    {
        self.kind().number() as u64 * 0x1_0000_0000 + self.payload() as u64
    }

    #[tactic(auto, using(crate::proofs::Words::no_kind, crate::proofs::Signs::read_back), unfolding(crate::specs::Value::value_at))]
    pub fn from_word(word: u64) -> Option<CoreValue>
        ensures { result ≡ value_at word }
    {
        let p = (word % 0x1_0000_0000) as u32;
        match word / 0x1_0000_0000 {
            UNIT => unit_of(p),
            QUAD => quad_of(p),
            BOOL => bool_of(p),
            I32 => Some(CoreValue::I32(checked::signed_of(p))),
            U32 => Some(CoreValue::U32(p)),
            FX => Some(CoreValue::Fx(Fx::from_raw(checked::signed_of(p)))),
            TUPLE => Some(CoreValue::Tuple(TupleRef(p))),
            RECORD => Some(CoreValue::Record(RecordRef(p))),
            ADT => Some(CoreValue::Adt(AdtRef(p))),
            _ => None,
        }
    }
}

fn unit_of(p: u32) -> Option<CoreValue>
    ensures { result ≡ unit_value p }
{
    if p == 0 { Some(CoreValue::Unit) } else { None }
}

// A payload above a byte is no quad's.
#[tactic(auto, using(quad::proofs::Bits::no_state))]
fn quad_of(p: u32) -> Option<CoreValue>
    ensures { result ≡ quad_value p }
{
    let bits = u8::try_from(p).ok()?;
    Some(CoreValue::Quad(QuadState::from_bits(bits)?))
}

fn bool_of(p: u32) -> Option<CoreValue>
    ensures { result ≡ bool_value p }
{
    match p {
        0 => Some(CoreValue::Bool(false)),
        1 => Some(CoreValue::Bool(true)),
        _ => None,
    }
}
