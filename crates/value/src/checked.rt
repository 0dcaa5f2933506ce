// Rust's checked operations on the numbers of 32 bits, and its casts between them.
ghost use Rattle.std.specs.Prelude.{◌≡◌, ℤ, pos, ◌+ℤ◌, ◌-ℤ◌, ◌*ℤ◌, int_div, Result};
ghost use Rattle.runtime.specs.declared.CoreTrap.{CoreTrap};
ghost use Rattle.value.specs.Checked.{signed, payload, checked_i32, checked_u32, divided};

use runtime::CoreTrap;

// Numbers whose results are tested: one that the type cannot hold is the trap IntegerOverflow. An operation widens first, so that
// nothing wraps before the test, but where the library's own checked operation answers the same.
pub trait Checked: Copy {
    // What holds each result of an operation before the test.
    type Wide;

    // The number that a value is, and that a wide one is.
    ghost number: { Self → ℤ };

    ghost wide: { Self.Wide → ℤ };

    // A number as a value of the type, if it is one.
    ghost checked: { ℤ → Result Self CoreTrap };

    // What a product and a quotient are before the test.
    ghost product: { ℤ → ℤ → ℤ };

    ghost quotient: { ℤ → ℤ → ℤ };

    fn fit(wide_result: Self::Wide) -> Result<Self, CoreTrap>
        ensures { result ≡ checked (wide wide_result) };

    fn add_checked(self, other: Self) -> Result<Self, CoreTrap>
        ensures { result ≡ checked (number self +ℤ number other) };

    fn sub_checked(self, other: Self) -> Result<Self, CoreTrap>
        ensures { result ≡ checked (number self -ℤ number other) };

    fn mul_checked(self, other: Self) -> Result<Self, CoreTrap>
        ensures { result ≡ checked (product (number self) (number other)) };

    // Zero as the divisor is a trap of its own, and comes first.
    fn div_checked(self, other: Self) -> Result<Self, CoreTrap>
        ensures { result ≡ divided checked quotient (number self) (number other) };
}

impl Checked for i32 {
    type Wide = i64;

    ghost number = { λ a. a };

    ghost wide = { λ w. w };

    ghost checked = { checked_i32 };

    ghost product = { λ a b. a *ℤ b };

    ghost quotient = { int_div };

    fn fit(wide_result: i64) -> Result<i32, CoreTrap> {
        i32::try_from(wide_result).or(Err(CoreTrap::IntegerOverflow))
    }

    fn add_checked(self, other: i32) -> Result<i32, CoreTrap> {
        i32::fit(self as i64 + other as i64)
    }

    fn sub_checked(self, other: i32) -> Result<i32, CoreTrap> {
        i32::fit(self as i64 - other as i64)
    }

    #[tactic(auto, using(crate::proofs::Wide::product_is))]
    fn mul_checked(self, other: i32) -> Result<i32, CoreTrap> {
        i32::fit(self as i64 * other as i64)
    }

    #[tactic(auto, using(crate::proofs::Wide::quotient_is, crate::proofs::Signs::zero_no))]
    fn div_checked(self, other: i32) -> Result<i32, CoreTrap> {
        if other == 0 {
            return Err(CoreTrap::DivisionByZero);
        }
        i32::fit(self as i64 / other as i64)
    }
}

impl Checked for u32 {
    type Wide = u64;

    ghost number = { pos };

    ghost wide = { pos };

    ghost checked = { checked_u32 };

    ghost product = { λ a b. a *ℤ b };

    ghost quotient = { int_div };

    fn fit(wide_result: u64) -> Result<u32, CoreTrap> {
        u32::try_from(wide_result).or(Err(CoreTrap::IntegerOverflow))
    }

    fn add_checked(self, other: u32) -> Result<u32, CoreTrap> {
        u32::fit(self as u64 + other as u64)
    }

    fn sub_checked(self, other: u32) -> Result<u32, CoreTrap> {
        self.checked_sub(other).ok_or(CoreTrap::IntegerOverflow)
    }

    fn mul_checked(self, other: u32) -> Result<u32, CoreTrap> {
        u32::fit(self as u64 * other as u64)
    }

    fn div_checked(self, other: u32) -> Result<u32, CoreTrap> {
        self.checked_div(other).ok_or(CoreTrap::DivisionByZero)
    }
}

// Rust's `p as i32`. This and `payload_of` stand because the clauses above speak of `signed` and `payload`, and std's casts do not.
pub fn signed_of(p: u32) -> i32
    ensures { result ≡ signed p }
{
    p.cast_signed()
}

// Rust's `v as u32`.
pub fn payload_of(v: i32) -> u32
    ensures { result ≡ payload v }
{
    v.cast_unsigned()
}
