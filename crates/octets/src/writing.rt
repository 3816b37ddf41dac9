// Writing bytes over a lent buffer. Where they do not fit, nothing is written.
ghost use Rattle.std.specs.Prelude.{◌≡◌, ◌+◌, ◌≤◌, leb, length};
ghost use Rattle.octets.specs.Bytes.{put as put_bytes, put_within, copied};

// The one loop that copies: s over a buffer from `at` on.
fn store(out: &mut [u8], at: usize, s: &[u8])
    requires { at + length s.now ≤ length out.old }
    ensures { out.new ≡ put_bytes out.old at s.now }
{
    let mut i = 0;
    while i < s.len() {
        out[at + i] = s[i];
        i += 1;
    }
}

// Whether a buffer of a size has `len` bytes from `from` on.
fn reaches(size: usize, from: usize, len: usize) -> bool
    ensures { result ≡ leb (from + len) size }
{
    if size < from {
        return false;
    }
    len <= size - from
}

// Writes s over a buffer from `at` on.
pub fn put(out: &mut [u8], at: usize, s: &[u8])
    ensures { out.new ≡ put_within out.old at s.now }
{
    let n = s.len();
    if !reaches(out.len(), at, n) {
        return;
    }
    store(out, at, s);
}

// Writes the `len` bytes of s from `from` on over a buffer from `at` on; nothing where s has fewer.
pub fn copy(s: &[u8], from: usize, len: usize, out: &mut [u8], at: usize)
    ensures { out.new ≡ copied s.now from len out.old at }
{
    if !reaches(s.len(), from, len) {
        return;
    }
    let end = from + len;
    put(out, at, &s[from..end]);
}
