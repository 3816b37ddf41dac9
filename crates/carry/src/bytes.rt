// Strings and paths, written into lent buffers.
ghost use Rattle.std.specs.Prelude.{◌≡◌, ◌++◌, ◌+◌, ◌-◌, ◌*◌, ◌≤◌, length, take, drop};
ghost use Rattle.octets.specs.Bytes.{over};
ghost use Rattle.carry.specs.Limits.{pair_bytes};
ghost use Rattle.carry.specs.Strings.{string};
ghost use Rattle.carry.specs.Inner.{Appends};

use hash::Digest;
use octets::copy;

// Writes the string of a child pair behind the first `at` bytes of a buffer.
fn put_string(a: Digest, b: Digest, out: &mut [u8], at: usize)
    requires { at + 65 ≤ length out.old }
    ensures { Appends at (string a.bytes b.bytes) out.old out.new }
{
    let x = a.bytes;
    let y = b.bytes;
    copy(b"\x01", 0, 1, out, at);
    copy(&x, 0, 32, out, at + 1);
    copy(&y, 0, 32, out, at + 33);
}

// Writes the two strings of the child pairs a, b and c, d at the start of a buffer.
pub(crate) fn put_pair(a: Digest, b: Digest, c: Digest, d: Digest, out: &mut [u8])
    requires { pair_bytes ≤ length out.old }
    ensures { out.new ≡ over (string a.bytes b.bytes ++ string c.bytes d.bytes) out.old }
{
    put_string(a, b, out, 0);
    put_string(c, d, out, 65);
}

// Writes a path at the start of a buffer: the first `low` hashes of one, the first `hashed` of another (0 or 1), and those of a third from
// `high` on; returns how many bytes it is.
pub(crate) fn put_path(
    path: &[u8],
    low: usize,
    sibling: Digest,
    hashed: usize,
    proof: &[u8],
    high: usize,
    out: &mut [u8],
) -> usize
    requires { (32 * low ≤ length path.now)
        × (hashed ≤ 1)
        × (32 * high ≤ length proof.now)
        × (32 * low + 32 * hashed + (length proof.now - 32 * high) ≤ length out.old) }
    ensures { let w = take (32 * low) path.now ++ (take (32 * hashed) sibling.bytes ++ drop (32 * high) proof.now) in
        (result ≡ length w) × (out.new ≡ over w out.old) }
{
    let s = sibling.bytes;
    let p = 32 * low;
    let e = 32 * hashed;
    let q = 32 * high;
    let rest = proof.len() - q;
    copy(path, 0, p, out, 0);
    copy(&s, 0, e, out, p);
    copy(proof, q, rest, out, p + e);
    p + e + rest
}
