// A growing tree: the roots of the full subtrees of all leaves so far, and their count (document 02, request 2). It takes one page, or joined leaf hashes,
// per call, is handed in and handed back by value, and gives its root at any moment. The hash at index i stands for 2^i leaves and counts where bit i of the
// count is one; elsewhere stand 32 zeros, so that two trees with the same leaves are equal. It holds the number of the hash that it was made with: a call by
// another number, and every call over a number that no hash has, is 16, before all else.
//
// add: the calls    levels: more leaf hashes, and the root, level by level
#![tactic(auto)]

pub mod add;
mod levels;

ghost use Rattle.std.specs.Prelude.{◌≡◌, length};
ghost use Rattle.hash.specs.Digest.{hash_of};
ghost use Rattle.tree.specs.Build.{building, build_report, output};
ghost use Rattle.tree.specs.Claims.{OfEvery, OfEvery32};
ghost use Rattle.growing.specs.Hashes.{fresh};
ghost use Rattle.growing.specs.Calls.{root_into, made, root_in, root_into_in};
ghost use Rattle.growing.specs.Claims.{FollowsAll, HoweverCut, AllTaken, Takes, PagesOrJoined, RefusedUnchanged};
ghost use Rattle.growing.specs.Claims.{AcceptsAll, ShownAll, SameLeaves, ByNumber};

use hash::by_number::{UNKNOWN, unknown};
use hash::{Algorithm, Digest, Hashed, Named, algorithm_held, algorithm_of};
use levels::{no_hash, root_of};
use octets::copy;
use tree::build::Built;

// How many hashes a growing tree keeps.
pub const MOST_HASHES: usize = 64;

#[derive(Clone, Copy)]
pub struct Growing {
    pub algorithm: u64,
    pub hashes: [Digest; MOST_HASHES],
    pub count: u64,
}

// What a call answers: 0 or the number of its refusal, and the tree after it.
#[derive(Clone, Copy)]
pub struct Grown {
    pub number: u32,
    pub after: Growing,
}

// The tree with no leaves that holds a number.
fn no_leaves(algorithm: u64) -> Growing
    ensures { result ≡ fresh algorithm }
{
    let nothing = no_hash();
    Growing {
        algorithm,
        hashes: [nothing; MOST_HASHES],
        count: 0,
    }
}

// The tree with no leaves. Where no hash has the number, 16 beside it, and so from every call over it.
pub fn new(algorithm: u64) -> Grown
    ensures { result ≡ made algorithm }
{
    let named = algorithm_of(algorithm);
    match named {
        Named::By(_) => Grown {
            number: 0,
            after: no_leaves(algorithm),
        },
        Named::Unknown => Grown {
            number: UNKNOWN,
            after: no_leaves(algorithm),
        },
    }
}

// The root of all leaves so far, or 16 and 32 zeros.
pub fn root(algorithm: u64, g: Growing) -> Hashed
    ensures { result ≡ root_in algorithm g }
{
    let held = g.algorithm;
    let named = algorithm_held(algorithm, held);
    match named {
        Named::By(alg) => Hashed {
            number: 0,
            digest: root_of(alg, g),
        },
        Named::Unknown => unknown(),
    }
}

// Writes the root, by a hash. The root is made before the output is measured: a digest is known to have 32 bytes.
fn into_by(alg: Algorithm, g: Growing, out: &mut [u8]) -> Built
    ensures { let o = root_into (hash_of alg) g (length out.old) in
        (building result ≡ build_report o) × (out.new ≡ output o out.old) }
{
    let made = root_of(alg, g);
    let bytes = made.bytes;
    if out.len() < 32 {
        return Built::Refused(9);
    }
    copy(&bytes, 0, 32, out, 0);
    Built::Wrote(32)
}

// Writes the root. 16; 9: the output has fewer than 32 bytes.
pub fn root_into(algorithm: u64, g: Growing, out: &mut [u8]) -> Built
    ensures { let answer = root_into_in algorithm g (length out.old) in
        (building result ≡ build_report answer) × (out.new ≡ output answer out.old) }
{
    let number = g.algorithm;
    let named = algorithm_held(algorithm, number);
    match named {
        Named::By(alg) => into_by(alg, g, out),
        Named::Unknown => Built::Refused(UNKNOWN),
    }
}

// What is proved of every list of calls from a new tree, each given the tree that the one before returned: of every hash, or of every hash of 32 bytes.
// It does nothing.
pub fn claims()
    ensures follows_all { OfEvery FollowsAll }
    ensures however_cut { OfEvery HoweverCut }
    ensures all_taken { OfEvery AllTaken }
    ensures takes { OfEvery Takes }
    ensures pages_or_joined { OfEvery32 PagesOrJoined }
    ensures refused_unchanged { OfEvery RefusedUnchanged }
    ensures accepts_all { OfEvery AcceptsAll }
    ensures shown_all { OfEvery32 ShownAll }
    ensures same_leaves { OfEvery32 SameLeaves }
    ensures by_number { ByNumber }
{}
