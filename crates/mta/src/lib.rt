// What a program in C calls (include/mta.h), on numbers and byte slices: both verdicts, carrying and comparing, the root of leaf hashes, the readers of items
// and of the first edition, the writer of a consistency item, the hashes and the block steps. 0 means accepted or done, any other answer is a refusal's
// number. What hashes takes the hash's number first: 0x00 is SHA-256, 0xF0 is SM3; any other is 16, before all else.
#![tactic(auto)]

ghost use Rattle.std.specs.Prelude.{◌≡◌, ◌∷◌, length};
ghost use Rattle.hash.specs.Digest.{hash_of, by_number};
ghost use Rattle.octets.specs.Limits.{most_item};
ghost use Rattle.hash.specs.Answers.{most_input, into_number, into_bytes};
ghost use Rattle.tree.specs.Verdict.{inclusion_verdict, consistency_verdict};
ghost use Rattle.octets.specs.Answer.{number};
ghost use Rattle.tree.specs.Build.{building, build_report, output, refused as not_built, root_built};
ghost use Rattle.item.specs.Item.{read_item};
ghost use Rattle.first.specs.First.{read_first};
ghost use Rattle.carry.specs.Forward.{carry, refused as not_carried, path_carried, pair_carried, carry_report};
ghost use Rattle.carry.specs.Compare.{compare, refused as not_compared, compare_report, pair_compared};
ghost use Rattle.mta.specs.Entries.{written_after, collided_after, differed_after, number_of, place_of, length_after, sizes_of, consistency_written};
ghost use Rattle.mta.specs.Judged.{ItemsAreJudged};
ghost use Rattle.mta.specs.Slices.{node_number, node_bytes, state_of, words_of, words_number, words_after, words_schedule};
ghost use Rattle.sha256.specs.Sha256 as sha;
ghost use Rattle.sm3.specs.Sm3 as sm;

use carry::compare::Compared;
use carry::forward::Carried;
use hash::by_number::UNKNOWN;
use hash::{Algorithm, Digest, Named, algorithm_of};
use item::{Numbers, Vectors};
use tree::build::Built;
use words::State;

// The inclusion verdict (RFC 9162, section 2.1.3).
#[unsafe(no_mangle)]
pub extern "C" fn mta_inclusion(
    algorithm: u64,
    leaf: &[u8],
    place: u64,
    size: u64,
    root: &[u8],
    path: &[u8],
) -> u32
    ensures { result ≡ by_number algorithm 16 (λ H. inclusion_verdict H leaf.now place size root.now path.now) }
{
    tree::by_number::inclusion_verdict(algorithm, leaf, place, size, root, path)
}

// The consistency verdict (RFC 9162, section 2.1.4).
#[unsafe(no_mangle)]
pub extern "C" fn mta_consistency(
    algorithm: u64,
    first: u64,
    second: u64,
    old: &[u8],
    new: &[u8],
    path: &[u8],
) -> u32
    ensures { result ≡ by_number algorithm 16 (λ H. consistency_verdict H first second old.now new.now path.now) }
{
    tree::by_number::consistency_verdict(algorithm, first, second, old, new, path)
}

// Carries an inclusion proof at m leaves to n by a consistency proof: 0, with the new path's length and whether a collision was written instead, or the
// number of the refusal, which changes nothing.
#[unsafe(no_mangle)]
pub extern "C" fn mta_carry(
    algorithm: u64,
    leaf: &[u8],
    place: u64,
    m: u64,
    n: u64,
    old: &[u8],
    new: &[u8],
    path: &[u8],
    proof: &[u8],
    out: &mut [u8],
    pair: &mut [u8],
    written: &mut u64,
    collided: &mut bool,
) -> u32
    ensures { let o = by_number algorithm (not_carried 16) (λ H.
        carry H leaf.now place m n old.now new.now path.now proof.now
        (length out.old) (length pair.old)) in
        (result ≡ number (carry_report o))
        × ((out.new ≡ path_carried o out.old)
        × ((pair.new ≡ pair_carried o pair.old)
        × ((written.new ≡ written_after (carry_report o) written.old)
        × (collided.new ≡ collided_after (carry_report o) collided.old)))) }
{
    match carry::by_number::carry(
        algorithm, leaf, place, m, n, old, new, path, proof, out, pair,
    ) {
        Carried::Path(count) => {
            *written = count as u64;
            *collided = false;
            0
        }
        Carried::Collision => {
            *written = 0;
            *collided = true;
            0
        }
        Carried::Refused(number) => number,
    }
}

// Compares two inclusion proofs for one place, size and root: 0, and whether a collision was written, or the number of the refusal, which
// changes nothing.
#[unsafe(no_mangle)]
pub extern "C" fn mta_compare(
    algorithm: u64,
    place: u64,
    size: u64,
    root: &[u8],
    leaf1: &[u8],
    path1: &[u8],
    leaf2: &[u8],
    path2: &[u8],
    pair: &mut [u8],
    collided: &mut bool,
) -> u32
    ensures { let o = by_number algorithm (not_compared 16) (λ H.
        compare H place size root.now leaf1.now path1.now leaf2.now path2.now
        (length pair.old)) in
        (result ≡ number (compare_report o))
        × ((pair.new ≡ pair_compared o pair.old)
        × (collided.new ≡ differed_after (compare_report o) collided.old)) }
{
    match carry::by_number::compare(
        algorithm, place, size, root, leaf1, path1, leaf2, path2, pair,
    ) {
        Compared::Same => {
            *collided = false;
            0
        }
        Compared::Collision => {
            *collided = true;
            0
        }
        Compared::Refused(number) => number,
    }
}

// The root of joined leaf hashes into the first 32 bytes of out.
#[unsafe(no_mangle)]
pub extern "C" fn mta_root(algorithm: u64, leaves: &[u8], out: &mut [u8]) -> u32
    ensures { let o = by_number algorithm (not_built 16) (λ H. root_built H leaves.now (length out.old)) in
        (result ≡ number (build_report o)) × (out.new ≡ output o out.old) }
{
    built(tree::by_number::root(algorithm, leaves, out))
}

fn built(b: Built) -> u32
    ensures { result ≡ number (building b) }
{
    match b {
        Built::Wrote(_) => 0,
        Built::Refused(n) => n,
    }
}

// Reads an item: 0, or the number of the refusal, whose place is left in `place`.
#[unsafe(no_mangle)]
pub extern "C" fn mta_item(s: &[u8], place: &mut u64) -> u32
    ensures { let o = read_item s.now in
        (result ≡ number_of o) × (place.new ≡ place_of o) }
{
    match item::read(s) {
        Ok(_) => {
            *place = 0;
            0
        }
        Err(refused) => {
            *place = refused.place as u64;
            u32::from(refused.refusal)
        }
    }
}

// Reads a structure of the first edition (RFC 6962), which its two numbers name: 0, or the number of the refusal, whose place is left in `place`.
#[unsafe(no_mangle)]
pub extern "C" fn mta_first(edition: u16, which: u16, s: &[u8], place: &mut u64) -> u32
    ensures { let o = read_first edition which s.now in
        (result ≡ number_of o) × (place.new ≡ place_of o) }
{
    match first::read(edition, which, s) {
        Ok(_) => {
            *place = 0;
            0
        }
        Err(e) => {
            *place = e.place as u64;
            u32::from(e.refusal)
        }
    }
}

// The numbers of a consistency item.
fn sizes(first: u64, second: u64) -> Numbers
    ensures { result ≡ sizes_of first second }
{
    Numbers {
        timestamp: 0,
        size: 0,
        size_one: first,
        size_two: second,
        place: 0,
        agreement: 0,
        page: 0,
    }
}

// Writes a consistency item (RFC 9162, section 4.11): 0, with the item's length left in `written`, or the number of the refusal, which
// changes nothing.
#[unsafe(no_mangle)]
pub extern "C" fn mta_consistency_item<'a>(
    log: &'a [u8],
    first: u64,
    second: u64,
    path: &'a [u8],
    out: &mut [u8],
    written: &mut u64,
) -> u32
    ensures { let o = consistency_written log.now first second path.now out.old in
        (result ≡ number_of o.answer)
        × ((out.new ≡ o.bytes)
        × (written.new ≡ length_after o.answer written.old)) }
{
    let empty = &log[..0];
    let vectors = Vectors {
        log_id: log,
        issuer_key_hash: empty,
        certificate: empty,
        root_hash: empty,
        extensions: empty,
        signature: empty,
        path,
        body: empty,
    };
    match item::write(0x0105, sizes(first, second), vectors, out) {
        Ok(length) => {
            *written = length as u64;
            0
        }
        Err(e) => u32::from(e.refusal),
    }
}

// The digest of the input into the first 32 bytes of out.
#[unsafe(no_mangle)]
pub extern "C" fn mta_digest(algorithm: u64, input: &[u8], out: &mut [u8]) -> u32
    ensures value { result ≡ by_number algorithm 16 (λ _. into_number most_input input.now out.old) }
    ensures out_after { out.new
        ≡ by_number algorithm out.old (λ H. into_bytes most_input input.now (H input.now) out.old) }
{
    hash::by_number::digest_into(algorithm, input, out)
}

// The leaf hash of an item into the first 32 bytes of out.
#[unsafe(no_mangle)]
pub extern "C" fn mta_leaf(algorithm: u64, item: &[u8], out: &mut [u8]) -> u32
    ensures value { result ≡ by_number algorithm 16 (λ _. into_number most_item item.now out.old) }
    ensures out_after { out.new
        ≡ by_number algorithm out.old (λ H. into_bytes most_item item.now (H (0 ∷ item.now)) out.old) }
{
    hash::by_number::leaf_into(algorithm, item, out)
}

fn digest_from(s: &[u8]) -> Digest
    requires { length s.now ≡ 32 }
    ensures { result.bytes ≡ s.now }
{
    let mut b = [0u8; 32];
    octets::put(&mut b, 0, s);
    Digest { bytes: b }
}

// The hash of a node over two hashes into the first 32 bytes of out, by a hash that is known. 5: a part is not 32 bytes. 9: out is too short.
fn node_into(alg: Algorithm, left: &[u8], right: &[u8], out: &mut [u8]) -> u32
    ensures value { result ≡ node_number left.now right.now out.old }
    ensures out_after { out.new ≡ node_bytes (hash_of alg) left.now right.now out.old }
{
    if left.len() != 32 {
        return 5;
    }
    if right.len() != 32 {
        return 5;
    }
    if out.len() < 32 {
        return 9;
    }
    let d = hash::node(alg, digest_from(left), digest_from(right));
    let b = d.bytes;
    octets::put(out, 0, &b);
    0
}

// The hash of a node over two hashes into the first 32 bytes of out. 16, 5, 9.
#[unsafe(no_mangle)]
pub extern "C" fn mta_node(algorithm: u64, left: &[u8], right: &[u8], out: &mut [u8]) -> u32
    ensures value { result ≡ by_number algorithm 16 (λ _. node_number left.now right.now out.old) }
    ensures out_after { out.new
        ≡ by_number algorithm out.old (λ H. node_bytes H left.now right.now out.old) }
{
    let named = algorithm_of(algorithm);
    match named {
        Named::By(alg) => node_into(alg, left, right, out),
        Named::Unknown => UNKNOWN,
    }
}

// Why a block step with a schedule of n words is refused, or 0. 5: the block is not 64 bytes. 9: w is not n words, or the state not eight.
fn unfit(n: usize, state: &[u32], block: &[u8], w: &[u32]) -> u32
    ensures { result ≡ words_number n state.now block.now w.now }
{
    if block.len() != 64 {
        return 5;
    }
    if w.len() != n {
        return 9;
    }
    if state.len() != 8 {
        return 9;
    }
    0
}

fn words_in(l: &[u32]) -> State
    requires { length l.now ≡ 8 }
    ensures { result ≡ state_of l.now }
{
    State {
        a: l[0],
        b: l[1],
        c: l[2],
        d: l[3],
        e: l[4],
        f: l[5],
        g: l[6],
        h: l[7],
    }
}

fn put_words(s: State, l: &mut [u32])
    requires { length l.old ≡ 8 }
    ensures { l.new ≡ words_of s }
{
    l[0] = s.a;
    l[1] = s.b;
    l[2] = s.c;
    l[3] = s.d;
    l[4] = s.e;
    l[5] = s.f;
    l[6] = s.g;
    l[7] = s.h;
}

// SHA-256's block step on the eight words of state, with the block's 64 words left in w. 5, 9.
#[unsafe(no_mangle)]
pub extern "C" fn mta_step(state: &mut [u32], block: &[u8], w: &mut [u32]) -> u32
    ensures value { result ≡ words_number 64 state.old block.now w.old }
    ensures state_after { state.new ≡ words_after 64 sha.compress state.old block.now w.old }
    ensures w_after { w.new ≡ words_schedule 64 sha.schedule state.old block.now w.old }
{
    let number = unfit(64, state, block, w);
    if number != 0 {
        return number;
    }
    let s = words_in(state);
    put_words(sha256::step_at(s, block, 0, w), state);
    0
}

// SM3's block step, with the block's 132 words left in w. 5, 9.
#[unsafe(no_mangle)]
pub extern "C" fn mta_sm3_step(state: &mut [u32], block: &[u8], w: &mut [u32]) -> u32
    ensures value { result ≡ words_number 132 state.old block.now w.old }
    ensures state_after { state.new ≡ words_after 132 sm.compress state.old block.now w.old }
    ensures w_after { w.new ≡ words_schedule 132 sm.schedule state.old block.now w.old }
{
    let number = unfit(132, state, block, w);
    if number != 0 {
        return number;
    }
    let s = words_in(state);
    put_words(sm3::step_at(s, block, 0, w), state);
    0
}

// What is proved where items meet verdicts. It does nothing.
pub fn claims()
    ensures items_are_judged { ItemsAreJudged }
{}
