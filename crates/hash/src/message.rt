// A message, padded and taken in block by block (FIPS 180-4, sections 5.1.1 and 6.2), by the block step of either hash. Whole blocks are read where they
// lie; what is left at the end goes with the padding into one array of two blocks.
ghost use Rattle.std.specs.Prelude.{◌≡◌, ◌++◌, ◌∷◌, ◌+◌, ◌-◌, ◌*◌, ◌/◌, ◌%◌, ◌^◌, ◌<◌, ◌≤◌, length, take, drop, replicate};
ghost use Rattle.octets.specs.Bytes.{put as put_bytes};
ghost use Rattle.octets.specs.Numbers.{be};
ghost use Rattle.words.specs.Words.{word_from};
ghost use Rattle.hash.specs.declared.Algorithm.TheVariants.{Sha256, Sm3};
ghost use Rattle.hash.specs.Algorithm.{start_of, step_of, words_of};
ghost use Rattle.hash.specs.Message.{ending, absorbed, hash_value, state_bytes};

use super::Algorithm;
use octets::{be8, put};
use words::State;

// Head and then rest, at the start of an array of zeros.
fn join(head: &[u8], rest: &[u8], a: &mut [u8])
    requires { (length head.now + length rest.now ≤ length a.old) × (a.old ≡ replicate (length a.old) 0) }
    ensures { a.new
        ≡ (head.now ++ rest.now)
        ++ replicate (length a.old - (length head.now + length rest.now)) 0 }
{
    let k = head.len();
    put(a, 0, head);
    put(a, k, rest);
}

// The last bytes of a message of n bytes, head and then rest, and what follows a message, up to byte `end` of two blocks of zeros.
fn pack(head: &[u8], rest: &[u8], n: u64, end: usize, a: &mut [u8])
    requires rest_len_bound { (length head.now + length rest.now < 120) × (n < 2 ^ 60) × (n % 64 ≡ (length head.now + length rest.now) % 64) }
    requires end_value { (end ≡ 64 * ((length head.now + length rest.now + 72) / 64)) × (a.old ≡ replicate (length a.old) 0) × (length a.old ≡ 128) }
    ensures { take end a.new ≡ (head.now ++ rest.now) ++ ending n }
{
    let len = head.len() + rest.len();
    let b = be8(8 * n);
    join(head, rest, a);
    a[len] = 0x80;
    put(a, end - 8, &b);
}

// The first hash value.
fn initial(alg: Algorithm) -> State
    ensures { result ≡ start_of alg }
{
    match alg {
        Algorithm::Sha256 => sha256::initial(),
        Algorithm::Sm3 => sm3::initial(),
    }
}

// The hash value after the block that starts at byte p of m.
fn compress(alg: Algorithm, s: State, m: &[u8], p: usize, w: &mut [u32]) -> State
    requires { (p + 64 ≤ length m.now) × (length w.old ≡ words_of alg) }
    ensures { result ≡ step_of alg s (word_from m.now p) }
{
    match alg {
        Algorithm::Sha256 => sha256::step_at(s, m, p, w),
        Algorithm::Sm3 => sm3::step_at(s, m, p, w),
    }
}

// The hash value after the last bytes of a message of n bytes, head and then rest, and what follows a message.
fn finish(alg: Algorithm, s: State, head: &[u8], rest: &[u8], n: u64, w: &mut [u32]) -> State
    requires { (length head.now + length rest.now < 120)
        × (n < 2 ^ 60)
        × (n % 64 ≡ (length head.now + length rest.now) % 64)
        × (length w.old ≡ words_of alg) }
    ensures { result
        ≡ absorbed (step_of alg) s ((head.now ++ rest.now) ++ ending n)
        ((length head.now + length rest.now + 72) / 64) }
{
    let end = (head.len() + rest.len() + 72) / 64 * 64;
    let mut a = [0u8; 128];
    pack(head, rest, n, end, &mut a);
    let t = compress(alg, s, &a, 0, w);
    if end <= 64 {
        return t;
    }
    compress(alg, t, &a, 64, w)
}

// The hash value after a first block: head, and the first p bytes of m.
fn first(alg: Algorithm, head: &[u8], m: &[u8], p: usize, w: &mut [u32]) -> State
    requires { (length head.now + p ≡ 64) × (p ≤ length m.now) × (length w.old ≡ words_of alg) }
    ensures { result ≡ absorbed (step_of alg) (start_of alg) (head.now ++ m.now) 1 }
{
    let mut a = [0u8; 64];
    join(head, &m[..p], &mut a);
    compress(alg, initial(alg), &a, 0, w)
}

// The hash value after a message of more than one block, head and then m.
fn long(alg: Algorithm, head: &[u8], m: &[u8], w: &mut [u32]) -> State
    requires { (length head.now < 64)
        × (64 ≤ length head.now + length m.now)
        × (length head.now + length m.now < 2 ^ 60)
        × (length w.old ≡ words_of alg) }
    ensures { result ≡ hash_value (step_of alg) (start_of alg) (head.now ++ m.now) }
{
    let n = head.len() + m.len();
    let mut p = 64 - head.len();
    let mut v = first(alg, head, m, p, w);
    while 64 <= m.len() - p {
        v = compress(alg, v, m, p, w);
        p += 64;
    }
    finish(alg, v, b"", &m[p..], n as u64, w)
}

// The hash value after a message, head and then m, in a lent schedule.
fn message(alg: Algorithm, head: &[u8], m: &[u8], w: &mut [u32]) -> State
    requires { (length head.now < 64) × (length head.now + length m.now < 2 ^ 60) × (length w.old ≡ words_of alg) }
    ensures { result ≡ hash_value (step_of alg) (start_of alg) (head.now ++ m.now) }
{
    let n = head.len() + m.len();
    if n < 120 {
        return finish(alg, initial(alg), head, m, n as u64, w);
    }
    long(alg, head, m, w)
}

// The hash value after a message, head and then m.
pub(crate) fn hash_of(alg: Algorithm, head: &[u8], m: &[u8]) -> State
    requires { (length head.now < 64) × (length head.now + length m.now < 2 ^ 60) }
    ensures { result ≡ hash_value (step_of alg) (start_of alg) (head.now ++ m.now) }
{
    match alg {
        Algorithm::Sha256 => {
            let mut w = [0u32; 64];
            message(alg, head, m, &mut w)
        }
        Algorithm::Sm3 => {
            let mut w = [0u32; 132];
            message(alg, head, m, &mut w)
        }
    }
}

// 0x01, left and right, and what follows a message of 65 bytes, in two blocks of zeros. Every length is known, so that each copy is a few moves.
fn pack_node(left: &[u8; 32], right: &[u8; 32], a: &mut [u8])
    requires { (a.old ≡ replicate (length a.old) 0) × (length a.old ≡ 128) }
    ensures { take 128 a.new ≡ (1 ∷ (left.now ++ right.now)) ++ ending 65 }
{
    let b = be8(520);
    a[0] = 1;
    put(a, 1, left);
    put(a, 33, right);
    a[65] = 0x80;
    put(a, 120, &b);
}

// The hash value after two blocks of SHA-256, and of SM3: in a node the choice is made once for both.
fn both_sha256(a: &[u8; 128]) -> State
    ensures { result ≡ absorbed (step_of Sha256) (start_of Sha256) a.now 2 }
{
    let mut w = [0u32; 64];
    let t = sha256::step_at(sha256::initial(), a, 0, &mut w);
    sha256::step_at(t, a, 64, &mut w)
}

fn both_sm3(a: &[u8; 128]) -> State
    ensures { result ≡ absorbed (step_of Sm3) (start_of Sm3) a.now 2 }
{
    let mut w = [0u32; 132];
    let t = sm3::step_at(sm3::initial(), a, 0, &mut w);
    sm3::step_at(t, a, 64, &mut w)
}

// The hash value after 0x01, left and right (RFC 9162, section 2.1.1).
pub(crate) fn node_of(alg: Algorithm, left: &[u8; 32], right: &[u8; 32]) -> State
    ensures { result ≡ hash_value (step_of alg) (start_of alg) (1 ∷ (left.now ++ right.now)) }
{
    let mut a = [0u8; 128];
    pack_node(left, right, &mut a);
    match alg {
        Algorithm::Sha256 => both_sha256(&a),
        Algorithm::Sm3 => both_sm3(&a),
    }
}

// The four bytes of a word. Here and not a call of `octets`: there are eight of them for each hash.
fn put_word(out: &mut [u8], at: usize, x: u32)
    requires { at + 3 < length out.old }
    ensures { out.new ≡ put_bytes out.old at (be 4 x) }
{
    out[at] = ((x >> 24) % 256) as u8;
    out[at + 1] = ((x >> 16) % 256) as u8;
    out[at + 2] = ((x >> 8) % 256) as u8;
    out[at + 3] = (x % 256) as u8;
}

// A hash value's bytes into the first 32 bytes of out.
pub(crate) fn put_state(out: &mut [u8], s: State)
    requires { 32 ≤ length out.old }
    ensures { out.new ≡ state_bytes s ++ drop 32 out.old }
{
    put_word(out, 0, s.a);
    put_word(out, 4, s.b);
    put_word(out, 8, s.c);
    put_word(out, 12, s.d);
    put_word(out, 16, s.e);
    put_word(out, 20, s.f);
    put_word(out, 24, s.g);
    put_word(out, 28, s.h);
}

pub(crate) fn bytes_of(s: State) -> [u8; 32]
    ensures { result ≡ state_bytes s }
{
    let mut d = [0u8; 32];
    put_state(&mut d, s);
    d
}
