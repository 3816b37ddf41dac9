// Recursions on the two parts of a list of leaf hashes that are joined in a buffer: n of them, from an index on. The count falls.
ghost use Rattle.std.specs.Prelude.{◌≡◌, ◌+◌, ◌*◌, ◌≤◌, ◌<◌, length};
ghost use Rattle.std.proofs.Math.Seq.{paste};
ghost use Rattle.hash.specs.Digest.{hash_of};
ghost use Rattle.octets.specs.Bytes.{over, joined};
ghost use Rattle.tree.specs.Joined.{nodes_from};
ghost use Rattle.tree.specs.Tree.{root, path, subproof};

use super::nodes::{node_at, put_node};
use super::split::split_of;
use hash::{Algorithm, Digest};

// The root of the n leaf hashes from an index on, MTH of section 2.1.1.
pub(crate) fn part_root(alg: Algorithm, leaves: &[u8], from: usize, n: usize) -> Digest
    requires { (0 < n) × (32 * (from + n) ≤ length leaves.now) }
    ensures { result.bytes ≡ root (hash_of alg) (nodes_from from n leaves.now) }
{
    if n == 1 {
        return node_at(leaves, from);
    }
    let k = split_of(n as u64) as usize;
    let low = part_root(alg, leaves, from, k);
    let high = part_root(alg, leaves, from + k, n - k);
    hash::node(alg, low, high)
}

// Writes that root into the output from `at` on, and returns where it ends.
pub(crate) fn put_root(
    alg: Algorithm,
    leaves: &[u8],
    from: usize,
    n: usize,
    out: &mut [u8],
    at: usize,
) -> usize
    requires { (0 < n) × (32 * (from + n) ≤ length leaves.now) × (at + 32 ≤ length out.old) }
    ensures value { result ≡ at + 32 }
    ensures out_after { out.new ≡ paste out.old at (root (hash_of alg) (nodes_from from n leaves.now)) 32 }
{
    put_node(part_root(alg, leaves, from, n), out, at);
    at + 32
}

// Writes the inclusion path of a place of those n, joined, PATH of section 2.1.3.1, and returns how many bytes it is.
pub(crate) fn path_into(
    alg: Algorithm,
    leaves: &[u8],
    from: usize,
    n: usize,
    place: usize,
    out: &mut [u8],
) -> usize
    requires { (place < n)
        × (32 * (from + n) ≤ length leaves.now)
        × (length (joined (path (hash_of alg) place (nodes_from from n leaves.now))) ≤ length out.old) }
    ensures { let w = joined (path (hash_of alg) place (nodes_from from n leaves.now)) in
        (result ≡ length w) × (out.new ≡ over w out.old) }
{
    if n <= 1 {
        return 0;
    }
    let k = split_of(n as u64) as usize;
    if place < k {
        let c = path_into(alg, leaves, from, k, place, out);
        return put_root(alg, leaves, from + k, n - k, out, c);
    }
    let c = path_into(alg, leaves, from + k, n - k, place - k, out);
    put_root(alg, leaves, from, k, out, c)
}

// Writes the consistency path from the first m of those n, joined, SUBPROOF of section 2.1.4.1, and returns how many bytes it is.
pub(crate) fn proof_into(
    alg: Algorithm,
    leaves: &[u8],
    from: usize,
    n: usize,
    m: usize,
    known: bool,
    out: &mut [u8],
) -> usize
    requires { (0 < m)
        × (m ≤ n)
        × (32 * (from + n) ≤ length leaves.now)
        × (length (joined (subproof (hash_of alg) m (nodes_from from n leaves.now) known)) ≤ length out.old) }
    ensures { let w = joined (subproof (hash_of alg) m (nodes_from from n leaves.now) known) in
        (result ≡ length w) × (out.new ≡ over w out.old) }
{
    if m == n {
        if known {
            return 0;
        }
        return put_root(alg, leaves, from, n, out, 0);
    }
    let k = split_of(n as u64) as usize;
    if m <= k {
        let c = proof_into(alg, leaves, from, k, m, known, out);
        return put_root(alg, leaves, from + k, n - k, out, c);
    }
    let c = proof_into(alg, leaves, from + k, n - k, m - k, false, out);
    put_root(alg, leaves, from, k, out, c)
}
