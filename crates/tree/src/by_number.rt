// The entries: builders and verdicts by the number of a hash. 16, before all else: no hash has the number.
ghost use Rattle.std.specs.Prelude.{◌≡◌, length};
ghost use Rattle.hash.specs.Digest.{by_number};
ghost use Rattle.tree.specs.Build.{building, build_report, output, refused, root_built, inclusion_built, consistency_built};
ghost use Rattle.tree.specs.Verdict.{inclusion_verdict, consistency_verdict};

use super::build::Built;
use super::{build, verdict};
use hash::by_number::UNKNOWN;
use hash::{Named, algorithm_of};

// Writes the root of joined leaf hashes. 16, 10, 9.
pub fn root(algorithm: u64, leaves: &[u8], out: &mut [u8]) -> Built
    ensures { let o = by_number algorithm (refused 16) (λ H. root_built H leaves.now (length out.old)) in
        (building result ≡ build_report o) × (out.new ≡ output o out.old) }
{
    let named = algorithm_of(algorithm);
    match named {
        Named::By(alg) => build::root(alg, leaves, out),
        Named::Unknown => Built::Refused(UNKNOWN),
    }
}

// Writes the inclusion path of a place. 16, 10, 6, 9.
pub fn inclusion_path(algorithm: u64, leaves: &[u8], place: u64, out: &mut [u8]) -> Built
    ensures { let o = by_number algorithm (refused 16) (λ H. inclusion_built H leaves.now place (length out.old)) in
        (building result ≡ build_report o) × (out.new ≡ output o out.old) }
{
    let named = algorithm_of(algorithm);
    match named {
        Named::By(alg) => build::inclusion_path(alg, leaves, place, out),
        Named::Unknown => Built::Refused(UNKNOWN),
    }
}

// Writes the consistency path from a first size to the size of the list. 16, 10, 6, 9.
pub fn consistency_path(algorithm: u64, leaves: &[u8], first: u64, out: &mut [u8]) -> Built
    ensures { let o = by_number algorithm (refused 16) (λ H. consistency_built H leaves.now first (length out.old)) in
        (building result ≡ build_report o) × (out.new ≡ output o out.old) }
{
    let named = algorithm_of(algorithm);
    match named {
        Named::By(alg) => build::consistency_path(alg, leaves, first, out),
        Named::Unknown => Built::Refused(UNKNOWN),
    }
}

// Whether a path shows the leaf hash at a place of a tree with this size and root. 16, 5, 10, 6, 7, 8.
pub fn inclusion_verdict(
    algorithm: u64,
    leaf: &[u8],
    place: u64,
    size: u64,
    root: &[u8],
    path: &[u8],
) -> u32
    ensures { result ≡ by_number algorithm 16 (λ H. inclusion_verdict H leaf.now place size root.now path.now) }
{
    let named = algorithm_of(algorithm);
    match named {
        Named::By(alg) => verdict::inclusion_verdict(alg, leaf, place, size, root, path),
        Named::Unknown => UNKNOWN,
    }
}

// Whether a path shows the tree of the first size and root to be the start of the tree of the second. 16, 5, 10, 6, 7, 8.
pub fn consistency_verdict(
    algorithm: u64,
    first: u64,
    second: u64,
    old: &[u8],
    new: &[u8],
    path: &[u8],
) -> u32
    ensures { result ≡ by_number algorithm 16 (λ H. consistency_verdict H first second old.now new.now path.now) }
{
    let named = algorithm_of(algorithm);
    match named {
        Named::By(alg) => verdict::consistency_verdict(alg, first, second, old, new, path),
        Named::Unknown => UNKNOWN,
    }
}
