// Hashes joined in a buffer, 32 bytes each.
ghost use Rattle.std.specs.Prelude.{◌≡◌, ◌+◌, ◌≤◌, length};
ghost use Rattle.std.proofs.Math.Seq.{paste};
ghost use Rattle.octets.specs.Bytes.{same};
ghost use Rattle.tree.specs.Joined.{hash_at};

use hash::Digest;

// The hash at an index of a buffer, or 32 zeros where the buffer does not hold it.
pub fn node_at(s: &[u8], i: usize) -> Digest
    ensures { result.bytes ≡ hash_at i s.now }
{
    let mut h = [0u8; 32];
    if s.len() / 32 <= i {
        return Digest { bytes: h };
    }
    octets::copy(s, 32 * i, 32, &mut h, 0);
    Digest { bytes: h }
}

// Writes a hash into a buffer from `at` on.
pub(crate) fn put_node(h: Digest, out: &mut [u8], at: usize)
    requires { at + 32 ≤ length out.old }
    ensures { out.new ≡ paste out.old at h.bytes 32 }
{
    let bytes = h.bytes;
    octets::put(out, at, &bytes);
}

// Whether a hash is the byte string s.
pub fn equals(h: Digest, s: &[u8]) -> bool
    ensures { result ≡ same h.bytes s.now }
{
    let bytes = h.bytes;
    octets::same(&bytes, s)
}
