// The digest that event identifiers carry.
ghost use Rattle.std.specs.Prelude.{◌≡◌};
ghost use Rattle.value.specs.Digest.{mixed, digested, result_digest};

use crate::result::CoreResult;
use basis::wrapping_mul_u64;

#[derive(Clone, Copy, Debug, PartialEq, Eq)]
pub struct CoreResultDigest(pub u64);

impl CoreResultDigest {
    #[tactic(auto, unfolding(crate::specs::Digest::result_digest))]
    pub fn from_result(res: CoreResult) -> Self
        ensures { result.0 ≡ result_digest res }
    {
        let value = res.return_value;
        CoreResultDigest(digest_words(
            res.status.number(),
            value.kind().number() as u64,
            value.payload() as u64,
            res.fuel_used,
        ))
    }
}

const OFFSET: u64 = 0xcbf2_9ce4_8422_2325;

const MULTIPLIER: u64 = 0x1000_0000_01b3;

// The digest of the five words themselves, the fourth of which is always 0.
#[tactic(auto, unfolding(crate::specs::Digest::digested))]
pub fn digest_words(status: u64, kind: u64, payload: u64, fuel_used: u64) -> u64
    ensures { result ≡ digested status kind payload fuel_used }
{
    let with_status = mix(OFFSET, status);
    let with_kind = mix(with_status, kind);
    let with_payload = mix(with_kind, payload);
    let with_zero = mix(with_payload, 0);
    mix(with_zero, fuel_used)
}

#[tactic(auto, unfolding(crate::specs::Digest::mixed))]
fn mix(acc: u64, value: u64) -> u64
    ensures { result ≡ mixed acc value }
{
    wrapping_mul_u64(acc ^ value, MULTIPLIER)
}
