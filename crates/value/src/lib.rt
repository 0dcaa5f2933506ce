// Source document 000, its values: checked 32-bit arithmetic, fixed-point numbers, values and their register words, results and
// the digest of a result.
#![tactic(auto)]

pub mod checked;
pub mod digest;
pub mod fx;
pub mod result;
pub mod word;
