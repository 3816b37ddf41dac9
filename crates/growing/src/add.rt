// The calls that add leaves. 16 for a number that is not the tree's or that no hash has, then 1 for a page too long, 10 for bad joined hashes, then 6 for
// leaves past the largest size; a refusal changes nothing.
ghost use Rattle.std.specs.Prelude.{◌≡◌};
ghost use Rattle.hash.specs.Digest.{hash_of};
ghost use Rattle.growing.specs.Calls.{of_page, of_leaves, room_number, grown_by, grown_in};

use super::levels::with_leaves;
use super::{Growing, Grown};
use hash::by_number::UNKNOWN;
use hash::{Algorithm, Named, algorithm_held};
use tree::build::bad_leaves;
use tree::limits::LARGEST_SIZE;

// 6 where n more leaves go past the largest size, else 0. Nothing is added up: a count may be any number.
fn room_number(count: u64, n: u64) -> u32
    ensures { result ≡ room_number count n }
{
    if LARGEST_SIZE - count < n {
        return 6;
    }
    0
}

// A refusal: its number, and the tree as it was.
fn refused(number: u32, g: Growing) -> Grown
    ensures { (result.number ≡ number) × (result.after ≡ g) }
{
    Grown { number, after: g }
}

// The tree with one more page, by a hash.
fn page_by(alg: Algorithm, g: Growing, page: &[u8]) -> Grown
    ensures { result ≡ grown_by (hash_of alg) g (of_page page.now) }
{
    let hashed = hash::leaf(alg, page);
    if hashed.number != 0 {
        return refused(1, g);
    }
    if room_number(g.count, 1) != 0 {
        return refused(6, g);
    }
    let leaf = hashed.digest.bytes;
    Grown {
        number: 0,
        after: with_leaves(alg, g, &leaf, 1),
    }
}

// The tree with all of joined leaf hashes, by a hash.
fn leaves_by(alg: Algorithm, g: Growing, leaves: &[u8]) -> Grown
    ensures { result ≡ grown_by (hash_of alg) g (of_leaves leaves.now) }
{
    if bad_leaves(leaves) {
        return refused(10, g);
    }
    let n = leaves.len() / 32;
    if room_number(g.count, n as u64) != 0 {
        return refused(6, g);
    }
    Grown {
        number: 0,
        after: with_leaves(alg, g, leaves, n),
    }
}

// The tree with one more page.
pub fn add_page(algorithm: u64, g: Growing, page: &[u8]) -> Grown
    ensures { result ≡ grown_in algorithm g (of_page page.now) }
{
    let held = g.algorithm;
    let named = algorithm_held(algorithm, held);
    match named {
        Named::By(alg) => page_by(alg, g, page),
        Named::Unknown => refused(UNKNOWN, g),
    }
}

// The tree with all of joined leaf hashes.
pub fn add_leaves(algorithm: u64, g: Growing, leaves: &[u8]) -> Grown
    ensures { result ≡ grown_in algorithm g (of_leaves leaves.now) }
{
    let number = g.algorithm;
    let named = algorithm_held(algorithm, number);
    match named {
        Named::By(alg) => leaves_by(alg, g, leaves),
        Named::Unknown => refused(UNKNOWN, g),
    }
}
