// The entries: digests, leaf and node hashes by the number of a hash. 16, before all else: no hash has the number.
ghost use Rattle.std.specs.Prelude.{◌≡◌, ◌∷◌, ◌++◌, replicate};
ghost use Rattle.octets.specs.Limits.{most_item};
ghost use Rattle.hash.specs.Digest.{by_number};
ghost use Rattle.hash.specs.Answers.{most_input, value_number, value_bytes, into_number, into_bytes};

use super::{Digest, Hashed, Named, algorithm_of};

// The number of the refusal.
pub const UNKNOWN: u32 = 16;

// That refusal in the place of a hash: its number, and 32 zeros.
pub fn unknown() -> Hashed
    ensures { (result.number ≡ 16) × (result.digest.bytes ≡ replicate 32 0) }
{
    Hashed {
        number: UNKNOWN,
        digest: Digest { bytes: [0; 32] },
    }
}

// The digest of the input. 16; 1: the input is too long.
pub fn digest_of(algorithm: u64, input: &[u8]) -> Hashed
    ensures number_value { result.number ≡ by_number algorithm 16 (λ _. value_number most_input input.now) }
    ensures bytes_value { result.digest.bytes
        ≡ by_number algorithm (replicate 32 0) (λ H. value_bytes most_input input.now (H input.now)) }
{
    let named = algorithm_of(algorithm);
    match named {
        Named::By(alg) => super::digest_of(alg, input),
        Named::Unknown => unknown(),
    }
}

// The leaf hash of an item. 16; 1: the item is too long.
pub fn leaf(algorithm: u64, item: &[u8]) -> Hashed
    ensures number_value { result.number ≡ by_number algorithm 16 (λ _. value_number most_item item.now) }
    ensures bytes_value { result.digest.bytes
        ≡ by_number algorithm (replicate 32 0) (λ H. value_bytes most_item item.now (H (0 ∷ item.now))) }
{
    let named = algorithm_of(algorithm);
    match named {
        Named::By(alg) => super::leaf(alg, item),
        Named::Unknown => unknown(),
    }
}

// The hash of a node over its two parts. 16.
pub fn node(algorithm: u64, left: Digest, right: Digest) -> Hashed
    ensures number_value { result.number ≡ by_number algorithm 16 (λ _. 0) }
    ensures bytes_value { result.digest.bytes ≡ by_number algorithm (replicate 32 0) (λ H. H (1 ∷ (left.bytes ++ right.bytes))) }
{
    let named = algorithm_of(algorithm);
    match named {
        Named::By(alg) => Hashed {
            number: 0,
            digest: super::node(alg, left, right),
        },
        Named::Unknown => unknown(),
    }
}

// The digest of the input into the first 32 bytes of out; 0, or why not. 16; 1: the input is too long; 9: out is too short.
pub fn digest_into(algorithm: u64, input: &[u8], out: &mut [u8]) -> u32
    ensures value { result ≡ by_number algorithm 16 (λ _. into_number most_input input.now out.old) }
    ensures out_after { out.new
        ≡ by_number algorithm out.old (λ H. into_bytes most_input input.now (H input.now) out.old) }
{
    let named = algorithm_of(algorithm);
    match named {
        Named::By(alg) => super::digest_into(alg, input, out),
        Named::Unknown => UNKNOWN,
    }
}

// The leaf hash of an item into the first 32 bytes of out; 0, or why not. 16; 1: the item is too long; 9: out is too short.
pub fn leaf_into(algorithm: u64, item: &[u8], out: &mut [u8]) -> u32
    ensures value { result ≡ by_number algorithm 16 (λ _. into_number most_item item.now out.old) }
    ensures out_after { out.new
        ≡ by_number algorithm out.old (λ H. into_bytes most_item item.now (H (0 ∷ item.now)) out.old) }
{
    let named = algorithm_of(algorithm);
    match named {
        Named::By(alg) => super::leaf_into(alg, item, out),
        Named::Unknown => UNKNOWN,
    }
}
