// The way from the top of the new tree down to the full subtree of the old one that holds a place.
ghost use Rattle.std.specs.Prelude.{◌≡◌, ◌+◌, ◌*◌, ◌≤◌, ◌<◌, length};
ghost use Rattle.hash.specs.Digest.{hash_of};
ghost use Rattle.tree.specs.Count.{inclusion_count, subproof_count};
ghost use Rattle.tree.specs.Joined.{first_nodes};
ghost use Rattle.tree.specs.Yield.{inclusion_root, old_root, new_root};
ghost use Rattle.carry.specs.Forward.{conflict, forward};
ghost use Rattle.carry.specs.Inner.{difference_of, path_as};

use super::level::{Recomputed, above, start};
use hash::{Algorithm, Digest};
use tree::nodes::node_at;
use tree::split::split_of;
use tree::yields::{yielded_root, yielded_roots};

// What was recomputed of the inclusion proof and of the consistency path, up to the old root that each yields; the new root; and the new path: `low` nodes of
// the old one, the sibling if `hashed` is 1, and the nodes of the consistency path from `high` on.
#[derive(Clone, Copy)]
pub(crate) struct Walked {
    pub recomputed: Recomputed,
    pub new: Digest,
    pub low: usize,
    pub hashed: usize,
    pub sibling: Digest,
    pub high: usize,
}

// The walk at place x of the first m of n leaves, with p nodes of the old path and q of the consistency path.
pub(crate) fn walk(
    alg: Algorithm,
    leaf: Digest,
    x: u64,
    m: u64,
    n: u64,
    known: bool,
    path: &[u8],
    p: usize,
    first: Digest,
    proof: &[u8],
    q: usize,
) -> Walked
    requires { (x < m)
        × (m ≤ n)
        × (p ≡ inclusion_count x m)
        × (32 * p ≤ length path.now)
        × (q ≡ subproof_count m n known)
        × (32 * q ≤ length proof.now) }
    ensures { let H = hash_of alg in
        let ps = first_nodes p path.now in
        let qs = first_nodes q proof.now in
        (result.recomputed.one.bytes ≡ inclusion_root H x m leaf.bytes ps)
        × ((result.recomputed.two.bytes ≡ old_root H m n known first.bytes qs)
        × ((result.new.bytes ≡ new_root H m n known first.bytes qs)
        × ((difference_of result.recomputed ≡ conflict H m n x leaf.bytes ps first.bytes qs)
        × ((path_as result path.now proof.now q ≡ forward H m n x ps first.bytes qs)
        × ((result.low ≤ p) × (result.hashed ≤ 1) × (result.high ≤ q)))))) }
{
    if m == n {
        let y = yielded_root(alg, leaf, x, m, path);
        let whole = yielded_roots(alg, first, m, n, known, proof);
        let old = whole.old;
        let new = whole.new;
        return Walked {
            recomputed: start(y, old),
            new,
            low: p,
            hashed: 0,
            sibling: new,
            high: q,
        };
    }
    let k = split_of(n);
    let j = q - 1;
    let top = node_at(proof, j);
    if m <= k {
        let below = walk(alg, leaf, x, m, k, known, path, p, first, proof, j);
        let recomputed = below.recomputed;
        let new = below.new;
        let sibling = below.sibling;
        return Walked {
            recomputed,
            new: hash::node(alg, new, top),
            low: below.low,
            hashed: below.hashed,
            sibling,
            high: below.high,
        };
    }
    let i = p - 1;
    let side = node_at(path, i);
    if x < k {
        let y = yielded_root(alg, leaf, x, k, path);
        let rest = yielded_roots(alg, first, m - k, n - k, false, proof);
        let old = rest.old;
        let new = rest.new;
        return Walked {
            recomputed: above(alg, y, side, top, old, start(y, old)),
            new: hash::node(alg, top, new),
            low: i,
            hashed: 1,
            sibling: new,
            high: q,
        };
    }
    let below = walk(
        alg,
        leaf,
        x - k,
        m - k,
        n - k,
        false,
        path,
        i,
        first,
        proof,
        j,
    );
    let recomputed = below.recomputed;
    let y = recomputed.one;
    let old = recomputed.two;
    let new = below.new;
    let sibling = below.sibling;
    Walked {
        recomputed: above(alg, side, y, top, old, recomputed),
        new: hash::node(alg, top, new),
        low: below.low,
        hashed: below.hashed,
        sibling,
        high: below.high,
    }
}
