// The entries: carrying and comparing by the number of a hash, one for both proofs. 16, before all else: no hash has the number.
ghost use Rattle.std.specs.Prelude.{◌≡◌, length};
ghost use Rattle.hash.specs.Digest.{by_number};
ghost use Rattle.carry.specs.Forward.{carrying, carry_report, path_carried, pair_carried};
ghost use Rattle.carry.specs.Forward as forward-paper;
ghost use Rattle.carry.specs.Compare.{comparing, compare_report, pair_compared};
ghost use Rattle.carry.specs.Compare as compare-paper;

use super::compare::Compared;
use super::forward::Carried;
use super::{compare, forward};
use hash::by_number::UNKNOWN;
use hash::{Named, algorithm_of};

// Carries an inclusion proof at m leaves to n by a consistency proof from m to n. 16, then as `forward::carry`.
pub fn carry(
    algorithm: u64,
    leaf: &[u8],
    place: u64,
    m: u64,
    n: u64,
    old: &[u8],
    new: &[u8],
    path: &[u8],
    proof: &[u8],
    out: &mut [u8],
    pair: &mut [u8],
) -> Carried
    ensures { let o = by_number algorithm (forward-paper.refused 16) (λ H.
        forward-paper.carry H leaf.now place m n old.now new.now path.now proof.now
        (length out.old) (length pair.old)) in
        (carrying result ≡ carry_report o)
        × ((out.new ≡ path_carried o out.old)
        × (pair.new ≡ pair_carried o pair.old)) }
{
    let named = algorithm_of(algorithm);
    match named {
        Named::By(alg) => {
            forward::carry(alg, leaf, place, m, n, old, new, path, proof, out, pair)
        }
        Named::Unknown => Carried::Refused(UNKNOWN),
    }
}

// Whether two inclusion proofs for one place, size and root are the same. 16, then as `compare::compare`.
pub fn compare(
    algorithm: u64,
    place: u64,
    size: u64,
    root: &[u8],
    leaf1: &[u8],
    path1: &[u8],
    leaf2: &[u8],
    path2: &[u8],
    pair: &mut [u8],
) -> Compared
    ensures { let o = by_number algorithm (compare-paper.refused 16) (λ H.
        compare-paper.compare H place size root.now leaf1.now path1.now leaf2.now path2.now
        (length pair.old)) in
        (comparing result ≡ compare_report o) × (pair.new ≡ pair_compared o pair.old) }
{
    let named = algorithm_of(algorithm);
    match named {
        Named::By(alg) => compare::compare(
            alg, place, size, root, leaf1, path1, leaf2, path2, pair,
        ),
        Named::Unknown => Compared::Refused(UNKNOWN),
    }
}
