// Fields of a line. Each value has one spelling only: a reader that let a second one pass would hide a fault in whatever wrote the line.
ghost use Rattle.std.specs.Prelude.{◌≡◌, ◌^◌, ◌<◌, ◌↔◌, IsTrue, IfSome, Ok, OnSome, length};
ghost use Rattle.text.specs.Digits.{digit, digits};
ghost use Rattle.replay.specs.Fields.{IsImageOf, IsPlain};

use arrayvec::ArrayVec;
use std::num::ParseIntError;
use std::str;
use std::str::FromStr;

// As many bytes of an image as a line has room for.
const IMAGE_BYTES: usize = 8192;

pub type Image = ArrayVec<u8, IMAGE_BYTES>;

// Whether it ends a field.
pub fn is_space(byte: &u8) -> bool
    ensures { IsTrue result ↔ (byte.now ≡ 32) }
{
    *byte == b' '
}

// A lower-case hexadecimal digit. std's and the crate hex's own readers take upper-case ones too.
fn hex_digit(byte: u8) -> Option<u8>
    ensures { IfSome result (λ value. (value < 16) × (byte ≡ digit value)) }
{
    match byte {
        b'0'..=b'9' => Some(byte - b'0'),
        b'a'..=b'f' => Some(byte - b'a' + 10),
        _ => None,
    }
}

// So many lower-case hexadecimal digits.
#[tactic(auto, using(crate::proofs::Spelled::no_digit))]
pub fn hex(text: &[u8], count: usize) -> Option<u64>
    ensures length { OnSome result (length text.now ≡ count) }
    ensures spelling { IfSome result (λ number. text.now ≡ digits 16 count number) }
    ensures bound { IfSome result (λ number. number < 16 ^ count) }
{
    if text.len() != count {
        return None;
    }
    let mut number: u64 = 0;
    for byte in text {
        number = number
            .checked_mul(16)?
            .checked_add(u64::from(hex_digit(*byte)?))?;
    }
    Some(number)
}

// A decimal number that the type holds, without a sign or leading zeros.
pub fn decimal<T: FromStr<Err = ParseIntError>>(text: &[u8]) -> Option<T>
    ensures value { IfSome result (λ number. T.from_str_gives text.now (Ok number)) }
    ensures spelling { OnSome result (IsPlain text.now) }
{
    match text {
        b"0" | [b'1'..=b'9', ..] => str::from_utf8(text).ok()?.parse().ok(),
        _ => None,
    }
}

// An image as pairs of hexadecimal digits; a lone minus sign is an image without bytes. It is put into what is lent: handed back, its
// 8,192 bytes were copied several times for each line, and `validate` took 1.8 times as long.
pub fn image(text: &[u8], out: &mut Image) -> Option<()>
    ensures { OnSome result (IsImageOf text.now out.new.items) }
{
    out.clear();
    if text == b"-".as_slice() {
        return Some(());
    }
    let (pairs, rest) = text.as_chunks::<2>();
    if pairs.is_empty() || !rest.is_empty() {
        return None;
    }
    for [high, low] in pairs {
        let byte = hex_digit(*high)? * 16 + hex_digit(*low)?;
        out.try_push(byte).ok()?;
    }
    Some(())
}
