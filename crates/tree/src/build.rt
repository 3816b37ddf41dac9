// Builders of roots and paths, from joined leaf hashes into a lent output. Refusals in the order 10, 6, 9; a refusal changes nothing, and
// bytes past what was written stay.
ghost use Rattle.std.specs.Prelude.{◌≡◌, length, replicate};
ghost use Rattle.hash.specs.Digest.{hash_of};
ghost use Rattle.tree.specs.Build.{building, build_report, output, unfit, root_built, inclusion_built, consistency_built, root_number, root_bytes};

use super::count::{inclusion_count, subproof_count};
use super::limits::MOST_LEAVES;
use super::nodes::put_node;
use super::parts::{part_root, path_into, proof_into};
use super::refusal::{JOINED, RANGE, ROOM};
use hash::{Algorithm, Digest, Hashed};

// What a builder answers: how many bytes it wrote, or the number of its refusal.
#[derive(Clone, Copy)]
pub enum Built {
    Wrote(usize),
    Refused(u32),
}

// Whether a buffer does not join whole hashes, or too many of them.
pub fn bad_leaves(leaves: &[u8]) -> bool
    ensures { result ≡ unfit leaves.now }
{
    if leaves.len() % 32 != 0 {
        return true;
    }
    MOST_LEAVES < (leaves.len() / 32) as u64
}

// A refusal in the place of a hash: its number, and 32 zeros.
fn refused(number: u32) -> Hashed
    ensures { (result.number ≡ number) × (result.digest.bytes ≡ replicate 32 0) }
{
    Hashed {
        number,
        digest: Digest { bytes: [0; 32] },
    }
}

// The root of joined leaf hashes by value, and 0; or 10 and 32 zeros.
pub fn root_of(alg: Algorithm, leaves: &[u8]) -> Hashed
    ensures number_value { result.number ≡ root_number leaves.now }
    ensures bytes_value { result.digest.bytes ≡ root_bytes (hash_of alg) leaves.now }
{
    if bad_leaves(leaves) {
        return refused(JOINED);
    }
    let n = leaves.len() / 32;
    if n == 0 {
        return Hashed {
            number: 0,
            digest: hash::empty(alg),
        };
    }
    Hashed {
        number: 0,
        digest: part_root(alg, leaves, 0, n),
    }
}

// Writes the root of joined leaf hashes.
pub fn root(alg: Algorithm, leaves: &[u8], out: &mut [u8]) -> Built
    ensures { let o = root_built (hash_of alg) leaves.now (length out.old) in
        (building result ≡ build_report o) × (out.new ≡ output o out.old) }
{
    if bad_leaves(leaves) {
        return Built::Refused(JOINED);
    }
    if out.len() < 32 {
        return Built::Refused(ROOM);
    }
    let made = root_of(alg, leaves);
    let digest = made.digest;
    put_node(digest, out, 0);
    Built::Wrote(32)
}

// Writes the inclusion path of a place.
pub fn inclusion_path(alg: Algorithm, leaves: &[u8], place: u64, out: &mut [u8]) -> Built
    ensures { let o = inclusion_built (hash_of alg) leaves.now place (length out.old) in
        (building result ≡ build_report o) × (out.new ≡ output o out.old) }
{
    if bad_leaves(leaves) {
        return Built::Refused(JOINED);
    }
    let n = leaves.len() / 32;
    if n as u64 <= place {
        return Built::Refused(RANGE);
    }
    if out.len() / 32 < inclusion_count(place, n as u64) {
        return Built::Refused(ROOM);
    }
    Built::Wrote(path_into(alg, leaves, 0, n, place as usize, out))
}

// Writes the consistency path from a first size to the size of the list.
pub fn consistency_path(alg: Algorithm, leaves: &[u8], first: u64, out: &mut [u8]) -> Built
    ensures { let o = consistency_built (hash_of alg) leaves.now first (length out.old) in
        (building result ≡ build_report o) × (out.new ≡ output o out.old) }
{
    if bad_leaves(leaves) {
        return Built::Refused(JOINED);
    }
    let n = leaves.len() / 32;
    if first == 0 {
        return Built::Refused(RANGE);
    }
    if (n as u64) < first {
        return Built::Refused(RANGE);
    }
    if out.len() / 32 < subproof_count(first, n as u64, true) {
        return Built::Refused(ROOM);
    }
    Built::Wrote(proof_into(alg, leaves, 0, n, first as usize, true, out))
}
