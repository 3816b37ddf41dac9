// Bytes of a length that is known when the program runs.
ghost use Rattle.std.specs.Prelude.{◌≡◌, length};

// The first `len` bytes where `number` is 0; else the number of a refusal.
#[derive(Clone, Copy)]
pub struct Made {
    pub number: u32,
    pub len: usize,
    pub bytes: [u8; 256],
}

pub(crate) fn blank() -> [u8; 256]
    ensures { length result ≡ 256 }
{
    [0; 256]
}

// So many bytes from an index on, or none where there are fewer.
pub(crate) fn part(s: &[u8], from: usize, len: usize) -> &[u8] {
    if from > s.len() {
        return &s[..0];
    }
    if len > s.len() - from {
        return &s[..0];
    }
    &s[from..from + len]
}

// What was made.
pub(crate) fn slice(s: &[u8; 256], len: usize) -> &[u8] {
    part(s, 0, len)
}

// The first of two refusals.
pub(crate) fn first(a: u32, b: u32) -> u32 {
    if a != 0 {
        return a;
    }
    b
}

// An index behind another; past every array where it has no number.
pub(crate) fn after(at: usize, i: usize) -> usize {
    if at > usize::MAX - i {
        return usize::MAX;
    }
    at + i
}

fn put(out: &mut [u8], at: usize, b: u8) {
    if at < out.len() {
        out[at] = b;
    }
}

// Writes as many bytes as there is room for.
pub(crate) fn put_all(out: &mut [u8], at: usize, s: &[u8]) {
    let mut i = 0;
    while i < s.len() {
        put(out, after(at, i), s[i]);
        i += 1;
    }
}
