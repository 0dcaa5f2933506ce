// Source document 002, as far as the executor reaches it: the four states of a quad.
#![tactic(auto)]

ghost use Rattle.std.specs.Prelude.{◌≡◌, ◌<◌};
ghost use Rattle.std.specs.Int.Bits.{bit_or, bit_and};
ghost use Rattle.quad.specs.Quad.{quad_bits, state_at, inverse_bits, is_known, is_conflict, is_null};

#[derive(Clone, Copy, Debug, PartialEq, Eq)]
pub enum QuadState {
    N = 0,
    F = 1,
    T = 2,
    S = 3,
}

impl QuadState {
    pub fn bits(self) -> u8
        ensures { result ≡ quad_bits self }
    {
        self as u8
    }

    #[tactic(auto, using(crate::proofs::Bits::state_found, crate::proofs::Bits::no_state), unfolding(crate::specs::Quad::state_at))]
    pub fn from_bits(bits: u8) -> Option<Self>
        ensures { result ≡ state_at bits }
    {
        if bits < 4 { Some(state_of(bits)) } else { None }
    }

    pub fn is_null(self) -> bool
        ensures { result ≡ is_null (quad_bits self) }
    {
        self.bits() == 0
    }

    pub fn is_known(self) -> bool
        ensures { result ≡ is_known (quad_bits self) }
    {
        let bits = self.bits();
        (bits == 1) | (bits == 2)
    }

    pub fn is_conflict(self) -> bool
        ensures { result ≡ is_conflict (quad_bits self) }
    {
        self.bits() == 3
    }

    pub fn inverse(self) -> Self
        ensures { quad_bits result ≡ inverse_bits (quad_bits self) }
    {
        match self {
            QuadState::N => QuadState::N,
            QuadState::F => QuadState::T,
            QuadState::T => QuadState::F,
            QuadState::S => QuadState::S,
        }
    }

    pub fn join(self, other: Self) -> Self
        ensures { quad_bits result ≡ bit_or (quad_bits self) (quad_bits other) }
    {
        state_of(self.bits() | other.bits())
    }

    pub fn meet(self, other: Self) -> Self
        ensures { quad_bits result ≡ bit_and (quad_bits self) (quad_bits other) }
    {
        state_of(self.bits() & other.bits())
    }
}

// The state of two bits: Rust's `from_bits_unchecked`, where nothing above two bits arrives.
fn state_of(bits: u8) -> QuadState
    requires { bits < 4 }
    ensures { quad_bits result ≡ bits }
{
    match bits {
        0 => QuadState::N,
        1 => QuadState::F,
        2 => QuadState::T,
        _ => QuadState::S,
    }
}
