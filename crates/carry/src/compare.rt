// Comparing two inclusion proofs for one place, size and root.
ghost use Rattle.std.specs.Prelude.{◌≡◌, ◌*◌, ◌≤◌, ◌<◌, length};
ghost use Rattle.hash.specs.Digest.{hash_of};
ghost use Rattle.tree.specs.Count.{inclusion_count};
ghost use Rattle.tree.specs.Joined.{first_nodes};
ghost use Rattle.tree.specs.Yield.{inclusion_root};
ghost use Rattle.carry.specs.Compare.{comparing, compare_report, pair_compared, differ};
ghost use Rattle.carry.specs.Compare as paper;
ghost use Rattle.carry.specs.Inner.{difference_of};

use super::bytes::put_pair;
use super::level::{Recomputed, above, start};
use super::limits::PAIR;
use hash::{Algorithm, Digest};
use tree::nodes::node_at;
use tree::split::split_of;
use tree::verdict::inclusion_verdict;

// What a comparison answers.
#[derive(Clone, Copy)]
pub enum Compared {
    Same,
    Collision,
    Refused(u32),
}

// Both roots, and the topmost child pairs that differ, by the first `count` nodes of two paths: each node is computed once, bottom up.
fn recompute(
    alg: Algorithm,
    one: Digest,
    two: Digest,
    place: u64,
    size: u64,
    first: &[u8],
    second: &[u8],
    count: usize,
) -> Recomputed
    requires { (place < size)
        × (count ≡ inclusion_count place size)
        × (32 * count ≤ length first.now)
        × (32 * count ≤ length second.now) }
    ensures { let H = hash_of alg in
        let p = first_nodes count first.now in
        let q = first_nodes count second.now in
        (result.one.bytes ≡ inclusion_root H place size one.bytes p)
        × ((result.two.bytes ≡ inclusion_root H place size two.bytes q)
        × (difference_of result ≡ differ H place size one.bytes p two.bytes q)) }
{
    if size <= 1 {
        return start(one, two);
    }
    let k = split_of(size);
    let c = count - 1;
    let x = node_at(first, c);
    let y = node_at(second, c);
    if place < k {
        let low = recompute(alg, one, two, place, k, first, second, c);
        let u = low.one;
        let v = low.two;
        return above(alg, u, x, v, y, low);
    }
    let high = recompute(alg, one, two, place - k, size - k, first, second, c);
    let u = high.one;
    let v = high.two;
    above(alg, x, u, y, v, high)
}

// Whether two inclusion proofs for one place, size and root are the same; where they are not, the topmost two strings that differ are
// written at the start of the pair buffer. Refusals: the first proof's verdict, the second's, then 9 for a pair buffer under 130 bytes.
pub fn compare(
    alg: Algorithm,
    place: u64,
    size: u64,
    root: &[u8],
    leaf1: &[u8],
    path1: &[u8],
    leaf2: &[u8],
    path2: &[u8],
    pair: &mut [u8],
) -> Compared
    ensures { let o = paper.compare (hash_of alg) place size root.now leaf1.now path1.now leaf2.now path2.now
        (length pair.old) in
        (comparing result ≡ compare_report o) × (pair.new ≡ pair_compared o pair.old) }
{
    let first = inclusion_verdict(alg, leaf1, place, size, root, path1);
    if first != 0 {
        return Compared::Refused(first);
    }
    let second = inclusion_verdict(alg, leaf2, place, size, root, path2);
    if second != 0 {
        return Compared::Refused(second);
    }
    if pair.len() < PAIR {
        return Compared::Refused(9);
    }
    let count = path1.len() / 32;
    let recomputed = recompute(
        alg,
        node_at(leaf1, 0),
        node_at(leaf2, 0),
        place,
        size,
        path1,
        path2,
        count,
    );
    if recomputed.apart {
        let a = recomputed.a;
        let b = recomputed.b;
        let c = recomputed.c;
        let d = recomputed.d;
        put_pair(a, b, c, d, pair);
        return Compared::Collision;
    }
    Compared::Same
}
