// The verdicts on proofs: 0 where a proof is accepted, and else the number of the first refusal, in the order 5, 10, 6, 7, 8.
ghost use Rattle.std.specs.Prelude.{◌≡◌};
ghost use Rattle.hash.specs.Digest.{hash_of};
ghost use Rattle.tree.specs.Verdict.{inclusion_verdict, consistency_verdict};

use super::count::{inclusion_count, subproof_count};
use super::nodes::{equals, node_at};
use super::refusal::{ACCEPTED, COUNT, JOINED, LENGTH, RANGE, ROOT};
use super::yields::{consistency_roots, inclusion_root};
use hash::Algorithm;

// Whether a path shows the leaf hash at a place of a tree with this size and root.
pub fn inclusion_verdict(
    alg: Algorithm,
    leaf: &[u8],
    place: u64,
    size: u64,
    root: &[u8],
    path: &[u8],
) -> u32
    ensures { result ≡ inclusion_verdict (hash_of alg) leaf.now place size root.now path.now }
{
    if leaf.len() != 32 {
        return LENGTH;
    }
    if root.len() != 32 {
        return LENGTH;
    }
    if path.len() % 32 != 0 {
        return JOINED;
    }
    if size == 0 {
        return RANGE;
    }
    if size <= place {
        return RANGE;
    }
    let count = path.len() / 32;
    if count != inclusion_count(place, size) {
        return COUNT;
    }
    let yielded = inclusion_root(alg, node_at(leaf, 0), place, size, path, count);
    if !equals(yielded, root) {
        return ROOT;
    }
    ACCEPTED
}

// Whether a path shows the tree of the first size and root to be the start of the tree of the second.
pub fn consistency_verdict(
    alg: Algorithm,
    first: u64,
    second: u64,
    old: &[u8],
    new: &[u8],
    path: &[u8],
) -> u32
    ensures { result ≡ consistency_verdict (hash_of alg) first second old.now new.now path.now }
{
    if old.len() != 32 {
        return LENGTH;
    }
    if new.len() != 32 {
        return LENGTH;
    }
    if path.len() % 32 != 0 {
        return JOINED;
    }
    if first == 0 {
        return RANGE;
    }
    if second < first {
        return RANGE;
    }
    let count = path.len() / 32;
    if count != subproof_count(first, second, true) {
        return COUNT;
    }
    let yielded = consistency_roots(alg, node_at(old, 0), first, second, true, path, count);
    let start = yielded.old;
    if !equals(start, old) {
        return ROOT;
    }
    let whole = yielded.new;
    if !equals(whole, new) {
        return ROOT;
    }
    ACCEPTED
}
