// The identifier of a calendar event: which lesson, and the digest of what its rule answered.
ghost use Rattle.std.specs.Prelude.{◌≡◌};
ghost use Rattle.text.specs.Identifier.{identified, id_numbers, identification};

use crate::digits::put_digits;

pub const EVENT_ID_BYTES: usize = 25;

// What was lent is too short for an identifier.
#[derive(Clone, Copy, Debug, PartialEq, Eq)]
pub struct IdRoom;

// It takes the first bytes of what is lent, and nothing where that is too short. It is not written by `write!`: std says what a writer
// holds only where writing went well, and here nothing fails once there is room.
#[tactic(auto, using(crate::proofs::Texts::id_none))]
pub fn event_id(lesson: u32, digest: u64, out: &mut [u8]) -> Result<(), IdRoom>
    ensures { identified (id_numbers result) out.new ≡ identification lesson digest out.old }
{
    if out.len() < EVENT_ID_BYTES {
        return Err(IdRoom);
    }
    put_digits(u64::from(lesson), 16, &mut out[..8]);
    out[8] = b'-';
    put_digits(digest, 16, &mut out[9..EVENT_ID_BYTES]);
    Ok(())
}
