// SHA-256's block step and its first hash value (FIPS 180-4, sections 4.1.2, 4.2.2, 5.3.3 and 6.2.2). Padding, digests and the hashes of the tree are
// the crate hash's.
#![tactic(auto)]

ghost use Rattle.std.specs.Prelude.{◌≡◌, ◌+◌, ◌<◌, ◌≤◌, length};
ghost use Rattle.words.specs.Words.{word_from};
ghost use Rattle.words.specs.Going.{Longer, Goes};
ghost use Rattle.words.specs.Answers.{stepping, step_answer, step_schedule, value_after, schedule_after};
ghost use Rattle.words.specs.Claims.{BlockIsTaken, BlockAtIsTaken};
ghost use Rattle.sha256.specs.Sha256.{choose, majority, big_sigma0, big_sigma1, small_sigma0, small_sigma1, constants, next_word, t1_of, t2_of};
ghost use Rattle.sha256.specs.Sha256.{round as round_of, add_state, compress as compress_of, schedule, initial as initial_of};
ghost use Rattle.sha256.specs.Claims.{BySixteenWords, ExampleHashes};
ghost use Rattle.sha256.specs.Inner.{Scheduled, round_at, rounds_over};

use words::{State, Stepped, add, load};

// K0 to K63: the first 32 bits of the fractional parts of the cube roots of the first 64 primes.
const K: [u32; 64] = [
    0x428a_2f98,
    0x7137_4491,
    0xb5c0_fbcf,
    0xe9b5_dba5,
    0x3956_c25b,
    0x59f1_11f1,
    0x923f_82a4,
    0xab1c_5ed5,
    0xd807_aa98,
    0x1283_5b01,
    0x2431_85be,
    0x550c_7dc3,
    0x72be_5d74,
    0x80de_b1fe,
    0x9bdc_06a7,
    0xc19b_f174,
    0xe49b_69c1,
    0xefbe_4786,
    0x0fc1_9dc6,
    0x240c_a1cc,
    0x2de9_2c6f,
    0x4a74_84aa,
    0x5cb0_a9dc,
    0x76f9_88da,
    0x983e_5152,
    0xa831_c66d,
    0xb003_27c8,
    0xbf59_7fc7,
    0xc6e0_0bf3,
    0xd5a7_9147,
    0x06ca_6351,
    0x1429_2967,
    0x27b7_0a85,
    0x2e1b_2138,
    0x4d2c_6dfc,
    0x5338_0d13,
    0x650a_7354,
    0x766a_0abb,
    0x81c2_c92e,
    0x9272_2c85,
    0xa2bf_e8a1,
    0xa81a_664b,
    0xc24b_8b70,
    0xc76c_51a3,
    0xd192_e819,
    0xd699_0624,
    0xf40e_3585,
    0x106a_a070,
    0x19a4_c116,
    0x1e37_6c08,
    0x2748_774c,
    0x34b0_bcb5,
    0x391c_0cb3,
    0x4ed8_aa4a,
    0x5b9c_ca4f,
    0x682e_6ff3,
    0x748f_82ee,
    0x78a5_636f,
    0x84c8_7814,
    0x8cc7_0208,
    0x90be_fffa,
    0xa450_6ceb,
    0xbef9_a3f7,
    0xc671_78f2,
];

// Ch and Maj in fewer operations than section 4.1.2 writes; of Maj's x ^ y and y ^ z one is the round before's.
fn ch(x: u32, y: u32, z: u32) -> u32
    ensures { result ≡ choose x y z }
{
    z ^ (x & (y ^ z))
}

fn maj(x: u32, y: u32, z: u32) -> u32
    ensures { result ≡ majority x y z }
{
    y ^ ((x ^ y) & (y ^ z))
}

fn big_sigma0(x: u32) -> u32
    ensures { result ≡ big_sigma0 x }
{
    ((x >> 2) | (x << 30)) ^ ((x >> 13) | (x << 19)) ^ ((x >> 22) | (x << 10))
}

fn big_sigma1(x: u32) -> u32
    ensures { result ≡ big_sigma1 x }
{
    ((x >> 6) | (x << 26)) ^ ((x >> 11) | (x << 21)) ^ ((x >> 25) | (x << 7))
}

fn small_sigma0(x: u32) -> u32
    ensures { result ≡ small_sigma0 x }
{
    ((x >> 7) | (x << 25)) ^ ((x >> 18) | (x << 14)) ^ (x >> 3)
}

fn small_sigma1(x: u32) -> u32
    ensures { result ≡ small_sigma1 x }
{
    ((x >> 17) | (x << 15)) ^ ((x >> 19) | (x << 13)) ^ (x >> 10)
}

fn t1(e: u32, f: u32, g: u32, h: u32, k: u32, w: u32) -> u32
    ensures { result ≡ t1_of e f g h k w }
{
    add(add(add(add(h, big_sigma1(e)), ch(e, f, g)), k), w)
}

fn t2(a: u32, b: u32, c: u32) -> u32
    ensures { result ≡ t2_of a b c }
{
    add(big_sigma0(a), maj(a, b, c))
}

fn round(s: State, k: u32, w: u32) -> State
    ensures { result ≡ round_of s k w }
{
    let x = t1(s.e, s.f, s.g, s.h, k, w);
    let y = t2(s.a, s.b, s.c);
    State {
        a: add(x, y),
        b: s.a,
        c: s.b,
        d: s.c,
        e: add(s.d, x),
        f: s.e,
        g: s.f,
        h: s.g,
    }
}

// Round t. The table is lent: an index into the constant itself would build the table anew at each read.
fn round_at(s: State, w: &[u32], k: &[u32; 64], t: usize) -> State
    requires { (t < 64) × (length w.now ≡ 64) }
    ensures { result ≡ round_at k.now w.now s t }
{
    round(s, k[t], w[t])
}

fn next(w2: u32, w7: u32, w15: u32, w16: u32) -> u32
    ensures { result ≡ next_word w2 w7 w15 w16 }
{
    add(add(add(small_sigma1(w2), w7), small_sigma0(w15)), w16)
}

// Word n of the schedule.
fn lengthen(w: &mut [u32], n: usize)
    requires { (15 < n) × (n < 64) × (length w.old ≡ 64) }
    ensures { Longer Scheduled w.old n w.new }
{
    w[n] = next(w[n - 2], w[n - 7], w[n - 15], w[n - 16]);
}

// Four rounds, each with a word of later rounds: the processor makes the word while the round waits for itself.
fn four(s: State, w: &mut [u32], k: &[u32; 64], t: usize) -> State
    requires { (t < 45) × (length w.old ≡ 64) × (k.now ≡ constants) }
    ensures { Goes rounds_over Scheduled s w.old t (t + 16) result w.new (t + 4) (t + 20) }
{
    let mut v = s;
    let mut j = 0;
    while j < 4 {
        v = round_at(v, w, k, t + j);
        lengthen(w, t + j + 16);
        j += 1;
    }
    v
}

// Four of the last rounds.
fn last_four(s: State, w: &[u32], k: &[u32; 64], t: usize) -> State
    requires { (t < 61) × (length w.now ≡ 64) × (k.now ≡ constants) }
    ensures { Goes rounds_over Scheduled s w.now t 64 result w.now (t + 4) 64 }
{
    let mut v = s;
    let mut j = 0;
    while j < 4 {
        v = round_at(v, w, k, t + j);
        j += 1;
    }
    v
}

// The 64 rounds, four at a time.
fn run(s: State, w: &mut [u32], k: &[u32; 64]) -> State
    requires { (length w.old ≡ 64) × (k.now ≡ constants) }
    ensures { Goes rounds_over Scheduled s w.old 0 16 result w.new 64 64 }
{
    let mut v = s;
    let mut t = 0;
    while t < 12 {
        v = four(v, w, k, 4 * t);
        t += 1;
    }
    let mut u = v;
    let mut i = 12;
    while i < 16 {
        u = last_four(u, w, k, 4 * i);
        i += 1;
    }
    u
}

fn add_state(v: State, s: State) -> State
    ensures { result ≡ add_state v s }
{
    State {
        a: add(v.a, s.a),
        b: add(v.b, s.b),
        c: add(v.c, s.c),
        d: add(v.d, s.d),
        e: add(v.e, s.e),
        f: add(v.f, s.f),
        g: add(v.g, s.g),
        h: add(v.h, s.h),
    }
}

// The hash value after the block that starts at byte p of m.
fn compress(s: State, m: &[u8], p: usize, w: &mut [u32]) -> State
    requires { (p + 64 ≤ length m.now) × (length w.old ≡ 64) }
    ensures value { result ≡ compress_of s (word_from m.now p) }
    ensures w_after { w.new ≡ schedule (word_from m.now p) }
{
    load(m, p, w);
    let v = run(s, w, &K);
    add_state(v, s)
}

// The initial hash value (5.3.3).
pub fn initial() -> State
    ensures { result ≡ initial_of }
{
    State {
        a: 0x6a09_e667,
        b: 0xbb67_ae85,
        c: 0x3c6e_f372,
        d: 0xa54f_f53a,
        e: 0x510e_527f,
        f: 0x9b05_688c,
        g: 0x1f83_d9ab,
        h: 0x5be0_cd19,
    }
}

// The block step on the 64 bytes from p on of a message, which are read where they lie. Where m has fewer, or w is not 64 words, the hash value and w
// stay as they were.
pub fn step_at(s: State, m: &[u8], p: usize, w: &mut [u32]) -> State
    ensures value { result ≡ value_after 64 compress_of s m.now p w.old }
    ensures w_after { w.new ≡ schedule_after 64 schedule m.now p w.old }
{
    if m.len() < 64 {
        return s;
    }
    if m.len() - 64 < p {
        return s;
    }
    let words = w.len();
    if words != 64 {
        return s;
    }
    compress(s, m, p, w)
}

// The block step: the hash value after a block, whose schedule is left in w. 5: the block is not 64 bytes. 9: w is not 64 words.
pub fn step(s: State, m: &[u8], w: &mut [u32]) -> Stepped
    ensures result_value { stepping result ≡ step_answer 64 compress_of s m.now w.old }
    ensures w_after { w.new ≡ step_schedule 64 schedule m.now w.old }
{
    if m.len() != 64 {
        return Stepped::Refused(5);
    }
    if w.len() != 64 {
        return Stepped::Refused(9);
    }
    Stepped::Done(step_at(s, m, 0, w))
}

// What the layers above may use of the block step beside the contracts. It does nothing.
pub fn claims()
    ensures block_is_taken { BlockIsTaken 64 compress_of schedule }
    ensures block_at_is_taken { BlockAtIsTaken 64 compress_of schedule }
    ensures by_sixteen_words { BySixteenWords }
    ensures example_hashes { ExampleHashes }
{}
