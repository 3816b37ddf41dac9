// Big-endian numbers (RFC 9162, section 1.2; RFC 8446, section 3.3): the first byte is the highest.
ghost use Rattle.std.specs.Prelude.{◌≡◌, ◌+◌, ◌≤◌, ◌<◌, ◌^◌, length, take, drop};
ghost use Rattle.octets.specs.Bytes.{put_within};
ghost use Rattle.octets.specs.Numbers.{width_of, be, unbe};

use crate::writing::copy;

// How many bytes a number has: no other count can be given.
#[derive(Clone, Copy)]
pub enum Width {
    One,
    Two,
    Three,
    Four,
    Five,
    Six,
    Seven,
    Eight,
}

pub fn width_of(w: Width) -> usize
    ensures { (result ≡ width_of w) × (1 ≤ result) × (result ≤ 8) }
{
    match w {
        Width::One => 1,
        Width::Two => 2,
        Width::Three => 3,
        Width::Four => 4,
        Width::Five => 5,
        Width::Six => 6,
        Width::Seven => 7,
        Width::Eight => 8,
    }
}

fn wide(x: u8) -> u64
    ensures { (result ≡ x) × (result < 256) }
{
    x as u64
}

// The number in `width` bytes that are there.
fn number(s: &[u8], at: usize, width: usize) -> u64
    requires { (at + width ≤ length s.now) × (width ≤ 8) }
    ensures { (result ≡ unbe (take width (drop at s.now))) × (result < 256 ^ width) }
{
    let mut n: u64 = 0;
    let mut i: usize = 0;
    while i < width {
        n = n * 256 + wide(s[at + i]);
        i += 1;
    }
    n
}

// The number at a place of any bytes, or in those that are there where they are fewer.
pub fn number_at(s: &[u8], at: usize, w: Width) -> u64
    ensures { (result ≡ unbe (take (width_of w) (drop at s.now))) × (result < 256 ^ width_of w) }
{
    let n = width_of(w);
    if s.len() < at {
        return 0;
    }
    if s.len() - at < n {
        return number(s, at, s.len() - at);
    }
    number(s, at, n)
}

// A number in 8 bytes.
pub fn be8(n: u64) -> [u8; 8]
    ensures { result ≡ be 8 n }
{
    [
        ((n >> 56) % 256) as u8,
        ((n >> 48) % 256) as u8,
        ((n >> 40) % 256) as u8,
        ((n >> 32) % 256) as u8,
        ((n >> 24) % 256) as u8,
        ((n >> 16) % 256) as u8,
        ((n >> 8) % 256) as u8,
        (n % 256) as u8,
    ]
}

// Writes the last bytes of a number, as many as the width says, over a buffer from `at` on.
pub fn put_number(out: &mut [u8], at: usize, w: Width, n: u64)
    ensures { out.new ≡ put_within out.old at (be (width_of w) n) }
{
    let digits = be8(n);
    let m = width_of(w);
    copy(&digits, 8 - m, m, out, at);
}
