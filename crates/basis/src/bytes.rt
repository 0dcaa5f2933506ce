// Little-endian numbers at a place of a slice of bytes. Every place is good: what lies past the end reads as 0.
ghost use Rattle.std.specs.Prelude.{◌≡◌, ◌+◌, ◌*◌, ◌^◌, ◌<◌, ℕ, slice_index};
ghost use Rattle.basis.specs.Bytes.{byte_at, half_at, word_at};

// Two bytes, or two halves, put together.
pub fn join2(low: u8, high: u8) -> u16
    ensures { result ≡ low + high * 2 ^ 8 }
{
    u16::from(low) + u16::from(high) * 0x100
}

pub fn join4(low: u16, high: u16) -> u32
    ensures { result ≡ low + high * 2 ^ 16 }
{
    u32::from(low) + u32::from(high) * 0x1_0000
}

#[tactic(auto, unfolding(crate::specs::Bytes::byte_at))]
pub fn u8_at(bytes: &[u8], i: usize) -> u8
    ensures { result ≡ byte_at bytes.now i }
{
    bytes.get(i).copied().unwrap_or(0)
}

// The N bytes from a place on.
fn bytes_at<const N: usize>(bytes: &[u8], i: usize) -> [u8; N]
    ensures { (k : ℕ) → k < N → slice_index result k ≡ byte_at bytes.now (i + k) }
{
    let rest = bytes.get(i..).unwrap_or(&[]);
    let mut read = [0; N];
    for (k, byte) in read.iter_mut().enumerate() {
        *byte = u8_at(rest, k);
    }
    read
}

#[tactic(auto, unfolding(crate::specs::Bytes::half_at))]
pub fn u16_at(bytes: &[u8], i: usize) -> u16
    ensures { result ≡ half_at bytes.now i }
{
    u16::from_le_bytes(bytes_at(bytes, i))
}

#[tactic(auto, unfolding(crate::specs::Bytes::word_at, crate::specs::Bytes::half_at))]
pub fn u32_at(bytes: &[u8], i: usize) -> u32
    ensures { result ≡ word_at bytes.now i }
{
    u32::from_le_bytes(bytes_at(bytes, i))
}
