// The roots that a path yields: the definition's splits are followed, with the given nodes in the place of the other parts' roots. A node is read behind the
// call for the part below it, so that no copy of it is kept over the call.
ghost use Rattle.std.specs.Prelude.{◌≡◌, ◌*◌, ◌≤◌, ◌<◌, length};
ghost use Rattle.hash.specs.Digest.{hash_of};
ghost use Rattle.tree.specs.Count.{inclusion_count, subproof_count};
ghost use Rattle.tree.specs.Joined.{first_nodes};
ghost use Rattle.tree.specs.Yield.{inclusion_root, old_root, new_root, yielded_root, yielded_old, yielded_new};

use super::count::{inclusion_count, subproof_count};
use super::nodes::node_at;
use super::split::split_of;
use hash::{Algorithm, Digest};

// The root that the first `count` nodes of a path yield for a leaf hash at a place.
pub(crate) fn inclusion_root(
    alg: Algorithm,
    leaf: Digest,
    place: u64,
    size: u64,
    path: &[u8],
    count: usize,
) -> Digest
    requires { (count ≡ inclusion_count place size) × (32 * count ≤ length path.now) }
    ensures { result.bytes ≡ inclusion_root (hash_of alg) place size leaf.bytes (first_nodes count path.now) }
{
    if size <= 1 {
        return leaf;
    }
    let k = split_of(size);
    let c = count - 1;
    if place < k {
        let low = inclusion_root(alg, leaf, place, k, path, c);
        let top = node_at(path, c);
        return hash::node(alg, low, top);
    }
    let high = inclusion_root(alg, leaf, place - k, size - k, path, c);
    let top = node_at(path, c);
    hash::node(alg, top, high)
}

// The same of as many nodes as the definition counts, of any path; the leaf hash where the path has fewer.
pub fn yielded_root(alg: Algorithm, leaf: Digest, place: u64, size: u64, path: &[u8]) -> Digest
    ensures { result.bytes ≡ yielded_root (hash_of alg) place size leaf.bytes path.now }
{
    let count = inclusion_count(place, size);
    if path.len() / 32 < count {
        return leaf;
    }
    inclusion_root(alg, leaf, place, size, path, count)
}

// The roots of the first leaves and of all.
#[derive(Clone, Copy)]
pub struct Roots {
    pub old: Digest,
    pub new: Digest,
}

// The two roots that the first `count` nodes of a consistency path yield, in one pass. Where the first m leaves are known, their root
// `first` stands for them.
pub(crate) fn consistency_roots(
    alg: Algorithm,
    first: Digest,
    m: u64,
    n: u64,
    known: bool,
    path: &[u8],
    count: usize,
) -> Roots
    requires { (0 < m) × (m ≤ n) × (count ≡ subproof_count m n known) × (32 * count ≤ length path.now) }
    ensures { let H = hash_of alg in
        let p = first_nodes count path.now in
        (result.old.bytes ≡ old_root H m n known first.bytes p) × (result.new.bytes ≡ new_root H m n known first.bytes p) }
{
    if m == n {
        if known {
            return Roots {
                old: first,
                new: first,
            };
        }
        let only = node_at(path, 0);
        return Roots {
            old: only,
            new: only,
        };
    }
    let k = split_of(n);
    let c = count - 1;
    if m <= k {
        let low = consistency_roots(alg, first, m, k, known, path, c);
        let old = low.old;
        let new = low.new;
        let top = node_at(path, c);
        return Roots {
            old,
            new: hash::node(alg, new, top),
        };
    }
    let high = consistency_roots(alg, first, m - k, n - k, false, path, c);
    let old = high.old;
    let new = high.new;
    let top = node_at(path, c);
    Roots {
        old: hash::node(alg, top, old),
        new: hash::node(alg, top, new),
    }
}

// Both roots by as many nodes as the definition counts, of any path; the first root for both where a first size of 0 or above the second
// has no path, or the path has fewer nodes.
pub fn yielded_roots(
    alg: Algorithm,
    first: Digest,
    m: u64,
    n: u64,
    known: bool,
    path: &[u8],
) -> Roots
    ensures { let H = hash_of alg in
        (result.old.bytes ≡ yielded_old H m n known first.bytes path.now)
        × (result.new.bytes ≡ yielded_new H m n known first.bytes path.now) }
{
    let count = subproof_count(m, n, known);
    if m == 0 || n < m || path.len() / 32 < count {
        return Roots {
            old: first,
            new: first,
        };
    }
    consistency_roots(alg, first, m, n, known, path, count)
}
