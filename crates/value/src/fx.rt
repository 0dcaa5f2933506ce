// Fixed-point numbers: an i32 of raw units of 1/65,536.
ghost use Rattle.std.specs.Prelude.{◌≡◌};
ghost use Rattle.value.specs.Checked.{payload};
ghost use Rattle.value.specs.Fixed.{checked_fx, fx_product, fx_quotient, ordered};

use crate::checked;
use crate::checked::Checked;
use runtime::CoreTrap;
use std::cmp::Ordering;

#[derive(Clone, Copy, Debug, PartialEq, Eq)]
pub struct Fx(pub i32);

impl Fx {
    pub const FRACTION_BITS: u32 = 16;

    pub fn from_raw(raw: i32) -> Self
        ensures { result.0 ≡ raw }
    {
        Fx(raw)
    }

    pub fn raw(self) -> i32
        ensures { result ≡ self.0 }
    {
        self.0
    }

    // Rust's `raw() as u32`.
    pub fn payload(self) -> u32
        ensures { result ≡ payload self.0 }
    {
        checked::payload_of(self.0)
    }

    // The Rust's own inherent method, by value.
    pub fn cmp(self, other: Self) -> Ordering
        ensures { result ≡ ordered self.0 other.0 }
    {
        self.0.cmp(&other.0)
    }
}

// A sum is that of the raw units; a product has its units squared, and a quotient none.
impl Checked for Fx {
    type Wide = i64;

    ghost number = { λ x. x.0 };

    ghost wide = { λ w. w };

    ghost checked = { checked_fx };

    ghost product = { fx_product };

    ghost quotient = { fx_quotient };

    fn fit(wide_result: i64) -> Result<Fx, CoreTrap> {
        Ok(Fx(i32::fit(wide_result)?))
    }

    fn add_checked(self, other: Fx) -> Result<Fx, CoreTrap> {
        Ok(Fx(self.0.add_checked(other.0)?))
    }

    fn sub_checked(self, other: Fx) -> Result<Fx, CoreTrap> {
        Ok(Fx(self.0.sub_checked(other.0)?))
    }

    // The shift that copies the sign rounds down.
    #[tactic(auto, using(crate::proofs::Wide::fx_product_is))]
    fn mul_checked(self, other: Fx) -> Result<Fx, CoreTrap> {
        Fx::fit((self.0 as i64 * other.0 as i64) >> Self::FRACTION_BITS)
    }

    #[tactic(auto, using(crate::proofs::Wide::fx_quotient_is, crate::proofs::Signs::zero_no))]
    fn div_checked(self, other: Fx) -> Result<Fx, CoreTrap> {
        if other.0 == 0 {
            return Err(CoreTrap::DivisionByZero);
        }
        Fx::fit((self.0 as i64 * 65536) / other.0 as i64)
    }
}
