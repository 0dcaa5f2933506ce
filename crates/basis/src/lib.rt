// What every layer above leans on: the choice by a test, answers as numbers and the laws of both (in specs/ and proofs/), numbers in
// bytes, and the product modulo 2^64.
#![tactic(auto)]

ghost use Rattle.std.specs.Prelude.{◌≡◌, ◌*◌, ◌%◌, ◌^◌};

pub mod bytes;

// The product modulo 2^64, under the name by which the digest calls for it: the project wants a product of the program's own there.
pub fn wrapping_mul_u64(a: u64, b: u64) -> u64
    ensures { result ≡ a * b % 2 ^ 64 }
{
    a.wrapping_mul(b)
}
