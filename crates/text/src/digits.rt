// Numbers as ASCII text.
ghost use Rattle.std.specs.Prelude.{◌≡◌, ◌≤◌, ◌<◌, length};
ghost use Rattle.text.specs.Digits.{digit, digits, width_of};

fn glyph(d: u64) -> u8
    requires { d < 16 }
    ensures { result ≡ digit d }
{
    b"0123456789abcdef"[d as usize]
}

// The last digits of n in a base, as many as there is room for.
pub fn put_digits(n: u64, base: u64, out: &mut [u8])
    requires lt_base { 1 < base }
    requires base_bound { base ≤ 16 }
    ensures { out.new ≡ digits base (length out.old) n }
{
    let mut rest = n;
    // Not `iter_mut().rev()`: std says nothing of what the slice holds after it.
    for place in (0..out.len()).rev() {
        out[place] = glyph(rest % base);
        rest /= base;
    }
}

pub fn decimal_width(n: u64) -> usize
    ensures value { result ≡ width_of n }
    ensures upper_bound { result ≤ 20 }
{
    n.max(1).ilog10() as usize + 1
}
