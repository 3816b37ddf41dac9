// SHA-256 (FIPS 180-4) and SM3 (GB/T 32905-2016) of a message, over the block steps of the crates sha256 and sm3, and the hashes of a leaf and of a node
// (RFC 9162, section 2.1.1). What the layers call among themselves takes an `Algorithm`, which cannot be unknown; the entries, in by_number, take a
// number. The layers above see the contracts, and that a digest has 32 bytes.
#![tactic(auto)]

pub mod by_number; // the entries: any number, and 16 for one that no hash has
mod message;

ghost use Rattle.std.specs.Prelude.{◌≡◌, [], ◌++◌, ◌≤◌, ◌<◌, length};
ghost use Rattle.hash.specs.Algorithm.{algorithm_of, held_by};
ghost use Rattle.hash.specs.Digest.{hash_of, leaf_hash, node_hash};
ghost use Rattle.hash.specs.Claims.{Has32, AreBytes, OneNumberEach, HeldAlone, AnsweredBoth};
ghost use Rattle.hash.specs.Answers.{most_input, value_number, value_bytes, into_number, into_bytes};
ghost use Rattle.octets.specs.Limits.{most_item};

use message::{bytes_of, hash_of, node_of, put_state};
use octets::limits::MOST_ITEM;

// The longest input of a digest: an item with one byte before it.
const MOST_INPUT: usize = MOST_ITEM + 1;

// The two hashes.
#[derive(Clone, Copy)]
pub enum Algorithm {
    Sha256,
    Sm3,
}

// What a number names.
#[derive(Clone, Copy)]
pub enum Named {
    By(Algorithm),
    Unknown,
}

// The hash that has a number: 0x00 is SHA-256, 0xF0 is SM3. The whole number counts, and not its low byte.
pub fn algorithm_of(number: u64) -> Named
    ensures { result ≡ algorithm_of number }
{
    if number == 0x00 {
        return Named::By(Algorithm::Sha256);
    }
    if number == 0xf0 {
        return Named::By(Algorithm::Sm3);
    }
    Named::Unknown
}

// The same where a number is held already: another one is none.
pub fn algorithm_held(number: u64, held: u64) -> Named
    ensures { result ≡ held_by held number }
{
    if number != held {
        return Named::Unknown;
    }
    algorithm_of(number)
}

// A hash value as bytes.
#[derive(Clone, Copy)]
pub struct Digest {
    pub bytes: [u8; 32],
}

// A digest with the number 0, or a refusal's number with 32 zero bytes.
#[derive(Clone, Copy)]
pub struct Hashed {
    pub number: u32,
    pub digest: Digest,
}

// The digest of head and then m, by value.
fn value(alg: Algorithm, most: usize, head: &[u8], m: &[u8]) -> Hashed
    requires { (most ≤ most_input) × (length head.now < 64) }
    ensures number_value { result.number ≡ value_number most m.now }
    ensures bytes_value { result.digest.bytes ≡ value_bytes most m.now (hash_of alg (head.now ++ m.now)) }
{
    if most < m.len() {
        return Hashed {
            number: 1,
            digest: Digest { bytes: [0; 32] },
        };
    }
    Hashed {
        number: 0,
        digest: Digest {
            bytes: bytes_of(hash_of(alg, head, m)),
        },
    }
}

// The digest of head and then the input, into a buffer.
fn into(alg: Algorithm, most: usize, head: &[u8], input: &[u8], out: &mut [u8]) -> u32
    requires { (most ≤ most_input) × (length head.now < 64) }
    ensures value { result ≡ into_number most input.now out.old }
    ensures out_after { out.new ≡ into_bytes most input.now (hash_of alg (head.now ++ input.now)) out.old }
{
    if most < input.len() {
        return 1;
    }
    if out.len() < 32 {
        return 9;
    }
    put_state(out, hash_of(alg, head, input));
    0
}

// The digest of the input. 1: the input is too long.
pub fn digest_of(alg: Algorithm, input: &[u8]) -> Hashed
    ensures number_value { result.number ≡ value_number most_input input.now }
    ensures bytes_value { result.digest.bytes ≡ value_bytes most_input input.now (hash_of alg input.now) }
{
    value(alg, MOST_INPUT, b"", input)
}

// The leaf hash of an item. 1: the item is too long.
pub fn leaf(alg: Algorithm, item: &[u8]) -> Hashed
    ensures number_value { result.number ≡ value_number most_item item.now }
    ensures bytes_value { result.digest.bytes ≡ value_bytes most_item item.now (leaf_hash alg item.now) }
{
    value(alg, MOST_ITEM, b"\x00", item)
}

// The hash of a node over its two parts.
pub fn node(alg: Algorithm, left: Digest, right: Digest) -> Digest
    ensures { result.bytes ≡ node_hash alg left.bytes right.bytes }
{
    let l = left.bytes;
    let r = right.bytes;
    Digest {
        bytes: bytes_of(node_of(alg, &l, &r)),
    }
}

// The digest of the empty string: the root of a tree with no leaves.
pub fn empty(alg: Algorithm) -> Digest
    ensures { result.bytes ≡ hash_of alg [] }
{
    Digest {
        bytes: bytes_of(hash_of(alg, b"", b"")),
    }
}

// The digest of the input into the first 32 bytes of out; 0, or why not. 1: the input is too long. 9: out is too short.
pub fn digest_into(alg: Algorithm, input: &[u8], out: &mut [u8]) -> u32
    ensures value { result ≡ into_number most_input input.now out.old }
    ensures out_after { out.new ≡ into_bytes most_input input.now (hash_of alg input.now) out.old }
{
    into(alg, MOST_INPUT, b"", input, out)
}

// The leaf hash of an item into the first 32 bytes of out; 0, or why not. 1: the item is too long. 9: out is too short.
pub fn leaf_into(alg: Algorithm, item: &[u8], out: &mut [u8]) -> u32
    ensures value { result ≡ into_number most_item item.now out.old }
    ensures out_after { out.new ≡ into_bytes most_item item.now (leaf_hash alg item.now) out.old }
{
    into(alg, MOST_ITEM, b"\x00", item, out)
}

// What the layers above may use of the hashes beside the contracts, and which numbers they have. It does nothing.
pub fn claims()
    ensures has_32 { Has32 }
    ensures are_bytes { AreBytes }
    ensures one_number_each { OneNumberEach }
    ensures held_alone { HeldAlone }
    ensures answered { AnsweredBoth }
{}
