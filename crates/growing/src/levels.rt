// More leaf hashes, and the root, level by level. The count is halved at each level.
ghost use Rattle.std.specs.Prelude.{◌≡◌, [], ◌∷◌, ◌++◌, ◌+◌, ◌*◌, ◌≤◌, ◌<◌, ◌^◌, length, drop};
ghost use Rattle.hash.specs.Digest.{hash_of};
ghost use Rattle.tree.specs.Full.{together};
ghost use Rattle.tree.specs.Joined.{first_nodes};
ghost use Rattle.growing.specs.Limits.{most_hashes};
ghost use Rattle.growing.specs.Hashes.{nothing, counting, with_leaves, root_now};

use super::{Growing, MOST_HASHES};
use hash::{Algorithm, Digest};
use tree::nodes::node_at;

// 32 zeros, where nothing counts.
pub(crate) fn no_hash() -> Digest
    ensures { result ≡ nothing }
{
    Digest { bytes: [0; 32] }
}

// The tree with the first n of joined leaf hashes, one after the other: each goes up a level for as long as a hash waits there. The hashes stay in one place,
// since they are two kilobytes.
pub(crate) fn with_leaves(alg: Algorithm, g: Growing, leaves: &[u8], n: usize) -> Growing
    requires { (32 * n ≤ length leaves.now) × (g.count + n < 2 ^ 64) }
    ensures { result ≡ with_leaves (hash_of alg) g (first_nodes n leaves.now) }
{
    let algorithm = g.algorithm;
    let mut hashes = g.hashes;
    let mut count = g.count;
    let mut i = 0;
    while i < n {
        let mut h = node_at(leaves, i);
        let mut m = count;
        let mut level = 0;
        while level < MOST_HASHES {
            if m % 2 == 0 {
                break;
            }
            let waiting = hashes[level];
            h = hash::node(alg, waiting, h);
            hashes[level] = no_hash();
            m = m / 2;
            level += 1;
        }
        if level < MOST_HASHES {
            hashes[level] = h;
        }
        count += 1;
        i += 1;
    }
    Growing {
        algorithm,
        hashes,
        count,
    }
}

// The root where `last` is the root of the last leaves, and the hashes from a level on, with so many of them, have those before.
fn root_above(alg: Algorithm, g: Growing, level: usize, count: u64, last: Digest) -> Digest
    requires { level ≤ most_hashes }
    ensures { result.bytes ≡ together (hash_of alg) (counting (drop level g.hashes) count ++ (last.bytes ∷ [])) }
{
    let hashes = g.hashes;
    let mut n = count;
    let mut right = last;
    let mut i = level;
    while i < MOST_HASHES {
        if n % 2 == 1 {
            let waiting = hashes[i];
            right = hash::node(alg, waiting, right);
        }
        n = n / 2;
        i += 1;
    }
    right
}

// The root of all: from the lowest hash that counts, upwards.
pub(crate) fn root_of(alg: Algorithm, g: Growing) -> Digest
    ensures { result.bytes ≡ root_now (hash_of alg) g }
{
    let hashes = g.hashes;
    let mut n = g.count;
    let mut i = 0;
    while i < MOST_HASHES {
        if n % 2 == 1 {
            let lowest = hashes[i];
            return root_above(alg, g, i + 1, n / 2, lowest);
        }
        n = n / 2;
        i += 1;
    }
    hash::empty(alg)
}
