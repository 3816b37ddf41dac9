// Offering a head.
ghost use Rattle.std.specs.Prelude.{◌≡◌, length};
ghost use Rattle.hash.specs.Digest.{hash_of};
ghost use Rattle.auditor.specs.Held.{view, id_of};
ghost use Rattle.auditor.specs.Offer.{outside, first, stale, against, offer_number, offered_over, offered};

use super::bytes::{id_of, other_root, root_of, same_log};
use super::second::{beside, is_evidence, refused_head};
use crate::{Answered, Record, chosen, unchanged};
use hash::by_number::UNKNOWN;
use hash::{Algorithm, Named};
use tree::verdict::consistency_verdict;

// Whether no tree has this size.
fn no_size(size: u64) -> bool
    ensures { result ≡ outside size }
{
    size == 0
}

// The first head of a record: 6 and 7.
fn first_number(size: u64, path: &[u8]) -> u32
    ensures { result ≡ first size path.now }
{
    if no_size(size) {
        return 6;
    }
    if path.len() == 0 {
        return 0;
    }
    7
}

// Whether a timestamp is earlier than the record's, or equal where the size or the root is another.
fn is_stale(r: Record, timestamp: u64, size: u64, root: &[u8]) -> bool
    ensures { result ≡ stale r.timestamp r.size r.root timestamp size root.now }
{
    if timestamp != r.timestamp {
        return timestamp < r.timestamp;
    }
    if size != r.size {
        return true;
    }
    other_root(r, size, root)
}

// A later head, against the one held: 11, 6, 12, 13, then the consistency verdict.
fn later_number(
    alg: Algorithm,
    r: Record,
    id: &[u8],
    timestamp: u64,
    size: u64,
    root: &[u8],
    path: &[u8],
) -> u32
    ensures { result ≡ against (hash_of alg) (id_of r) r.timestamp r.size r.root id.now timestamp size root.now path.now }
{
    if !same_log(r, id) {
        return 11;
    }
    if no_size(size) {
        return 6;
    }
    if size < r.size {
        return 6;
    }
    if is_stale(r, timestamp, size, root) {
        return 12;
    }
    if other_root(r, size, root) {
        return 13;
    }
    let held = r.root;
    consistency_verdict(alg, r.size, size, &held, root, path)
}

// The number of an offer.
fn number(
    alg: Algorithm,
    r: Record,
    id: &[u8],
    timestamp: u64,
    size: u64,
    root: &[u8],
    path: &[u8],
) -> u32
    ensures { result ≡ offer_number (hash_of alg) (view r) id.now timestamp size root.now path.now }
{
    if root.len() != 32 {
        return 5;
    }
    if id.len() < 2 {
        return 5;
    }
    if 127 < id.len() {
        return 5;
    }
    if path.len() % 32 != 0 {
        return 10;
    }
    if r.held {
        return later_number(alg, r, id, timestamp, size, root, path);
    }
    first_number(size, path)
}

// An offer under one hash, the one that has the number. Order: 5, 10, 6, 7 for the first head; 5, 10, 11, 6, 12, 13, 7, 8 for a later one.
fn offer_by(
    alg: Algorithm,
    algorithm: u64,
    r: Record,
    id: &[u8],
    timestamp: u64,
    size: u64,
    root: &[u8],
    path: &[u8],
) -> Answered
    ensures { result ≡ offered_over (hash_of alg) algorithm r id.now timestamp size root.now path.now }
{
    let n = number(alg, r, id, timestamp, size, root, path);
    if n == 0 {
        let evidence = r.evidence;
        let after = Record {
            held: true,
            algorithm,
            id: id_of(id),
            idlen: id.len(),
            timestamp,
            size,
            root: root_of(root),
            evidence,
        };
        return Answered { number: 0, after };
    }
    if is_evidence(r, n, size, root) {
        let after = beside(r, refused_head(n, id, timestamp, size, root));
        return Answered { number: n, after };
    }
    unchanged(n, r)
}

// Offers a head with its log id, timestamp, size and root, and the consistency path to it from the head held, which is empty for the first. An accepted
// head replaces the one held, and the record then holds the number of the hash. A head refused with 8, 13, or with 12 where it has the size held and
// another root is put into the second place; every other refusal returns the record as it was. 16, before all else: no hash has the number, or the record
// holds another. Then as `offer_by`.
pub fn offer(
    algorithm: u64,
    r: Record,
    id: &[u8],
    timestamp: u64,
    size: u64,
    root: &[u8],
    path: &[u8],
) -> Answered
    ensures { result ≡ offered algorithm r id.now timestamp size root.now path.now }
{
    let named = chosen(r, algorithm);
    match named {
        Named::By(alg) => offer_by(alg, algorithm, r, id, timestamp, size, root, path),
        Named::Unknown => unchanged(UNKNOWN, r),
    }
}
