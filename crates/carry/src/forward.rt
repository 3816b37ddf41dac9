// Carrying an inclusion proof forward.
ghost use Rattle.std.specs.Prelude.{◌≡◌, length};
ghost use Rattle.hash.specs.Digest.{hash_of};
ghost use Rattle.tree.specs.Verdict.{inclusion_verdict, consistency_verdict};
ghost use Rattle.octets.specs.Answer.{Answer};
ghost use Rattle.carry.specs.Inner.{either};
ghost use Rattle.carry.specs.Forward.{carrying, carry_report, path_carried, pair_carried};
ghost use Rattle.carry.specs.Forward as paper;

use super::accept::{agree, fits};
use super::bytes::{put_pair, put_path};
use super::limits::PAIR;
use super::walk::walk;
use hash::Algorithm;
use tree::nodes::node_at;
use tree::verdict::{consistency_verdict, inclusion_verdict};

// What a carrying answers: how many bytes of path it wrote, that it wrote a collision, or the number of its refusal.
#[derive(Clone, Copy)]
pub enum Carried {
    Path(usize),
    Collision,
    Refused(u32),
}

// The refusal of two proofs of which one is refused: the inclusion verdict's number, or the consistency verdict's.
fn refusal(
    alg: Algorithm,
    leaf: &[u8],
    place: u64,
    m: u64,
    n: u64,
    old: &[u8],
    new: &[u8],
    path: &[u8],
    proof: &[u8],
) -> Carried
    ensures { let H = hash_of alg in
        let inclusion = inclusion_verdict H leaf.now place m old.now path.now in
        let consistency = consistency_verdict H m n old.now new.now proof.now in
        carrying result ≡ Answer.refused (either inclusion consistency) }
{
    let inclusion = inclusion_verdict(alg, leaf, place, m, old, path);
    if inclusion != 0 {
        return Carried::Refused(inclusion);
    }
    Carried::Refused(consistency_verdict(alg, m, n, old, new, proof))
}

// Carries an inclusion proof at m leaves to n by a consistency proof from m to n: writes the new path, or the two strings of a collision.
// Refusals: the inclusion verdict, the consistency verdict, then 9 for a path buffer shorter than the path at n or a pair buffer under 130.
pub fn carry(
    alg: Algorithm,
    leaf: &[u8],
    place: u64,
    m: u64,
    n: u64,
    old: &[u8],
    new: &[u8],
    path: &[u8],
    proof: &[u8],
    out: &mut [u8],
    pair: &mut [u8],
) -> Carried
    ensures { let o = paper.carry (hash_of alg) leaf.now place m n old.now new.now path.now proof.now
        (length out.old) (length pair.old) in
        (carrying result ≡ carry_report o)
        × ((out.new ≡ path_carried o out.old)
        × (pair.new ≡ pair_carried o pair.old)) }
{
    if !fits(
        leaf.len(),
        place,
        m,
        n,
        old.len(),
        new.len(),
        path.len(),
        proof.len(),
    ) {
        return refusal(alg, leaf, place, m, n, old, new, path, proof);
    }
    let p = path.len() / 32;
    let q = proof.len() / 32;
    let walked = walk(
        alg,
        node_at(leaf, 0),
        place,
        m,
        n,
        true,
        path,
        p,
        node_at(old, 0),
        proof,
        q,
    );
    let recomputed = walked.recomputed;
    let one = recomputed.one;
    let two = recomputed.two;
    let whole = walked.new;
    if !agree(one, two, whole, old, new) {
        return refusal(alg, leaf, place, m, n, old, new, path, proof);
    }
    let low = walked.low;
    let hashed = walked.hashed;
    let high = walked.high;
    if out.len() / 32 < low + hashed + (q - high) {
        return Carried::Refused(9);
    }
    if pair.len() < PAIR {
        return Carried::Refused(9);
    }
    if recomputed.apart {
        let a = recomputed.a;
        let b = recomputed.b;
        let c = recomputed.c;
        let d = recomputed.d;
        put_pair(a, b, c, d, pair);
        return Carried::Collision;
    }
    let sibling = walked.sibling;
    Carried::Path(put_path(path, low, sibling, hashed, proof, high, out))
}
