// SM3's block step and its initial value (GB/T 32905-2016, sections 4 and 5.3). Padding, digests and the hashes of the tree are the crate hash's.
#![tactic(auto)]

ghost use Rattle.std.specs.Prelude.{◌≡◌, ◌+◌, ◌*◌, ◌<◌, ◌≤◌, length};
ghost use Rattle.words.specs.Words.{rotl, word_from};
ghost use Rattle.words.specs.Known.{listed};
ghost use Rattle.words.specs.Going.{Longer, Goes};
ghost use Rattle.words.specs.Answers.{stepping, step_answer, step_schedule, value_after, schedule_after};
ghost use Rattle.words.specs.Claims.{BlockIsTaken, BlockAtIsTaken};
ghost use Rattle.sm3.specs.Sm3.{constant, parity as parity_of, majority, choose, p0 as p0_of, p1 as p1_of, next_word, ss1_of, ss2_of, tt1_of, tt2_of};
ghost use Rattle.sm3.specs.Sm3.{turned, xor_state, compress as compress_of, schedule, initial as initial_of};
ghost use Rattle.sm3.specs.Claims.{BySixteenWords, ExampleExpands, ExampleHashes};
ghost use Rattle.sm3.specs.Inner.{early as early_of, late as late_of, round_at, rounds_over, Expanded, Pairs};

use words::{State, Stepped, add, load};

// Tj <<< (j mod 32), for the rounds 0 to 63 (4.2, 5.3.3).
const K: [u32; 64] = [
    0x79cc_4519,
    0xf398_8a32,
    0xe731_1465,
    0xce62_28cb,
    0x9cc4_5197,
    0x3988_a32f,
    0x7311_465e,
    0xe622_8cbc,
    0xcc45_1979,
    0x988a_32f3,
    0x3114_65e7,
    0x6228_cbce,
    0xc451_979c,
    0x88a3_2f39,
    0x1146_5e73,
    0x228c_bce6,
    0x9d8a_7a87,
    0x3b14_f50f,
    0x7629_ea1e,
    0xec53_d43c,
    0xd8a7_a879,
    0xb14f_50f3,
    0x629e_a1e7,
    0xc53d_43ce,
    0x8a7a_879d,
    0x14f5_0f3b,
    0x29ea_1e76,
    0x53d4_3cec,
    0xa7a8_79d8,
    0x4f50_f3b1,
    0x9ea1_e762,
    0x3d43_cec5,
    0x7a87_9d8a,
    0xf50f_3b14,
    0xea1e_7629,
    0xd43c_ec53,
    0xa879_d8a7,
    0x50f3_b14f,
    0xa1e7_629e,
    0x43ce_c53d,
    0x879d_8a7a,
    0x0f3b_14f5,
    0x1e76_29ea,
    0x3cec_53d4,
    0x79d8_a7a8,
    0xf3b1_4f50,
    0xe762_9ea1,
    0xcec5_3d43,
    0x9d8a_7a87,
    0x3b14_f50f,
    0x7629_ea1e,
    0xec53_d43c,
    0xd8a7_a879,
    0xb14f_50f3,
    0x629e_a1e7,
    0xc53d_43ce,
    0x8a7a_879d,
    0x14f5_0f3b,
    0x29ea_1e76,
    0x53d4_3cec,
    0xa7a8_79d8,
    0x4f50_f3b1,
    0x9ea1_e762,
    0x3d43_cec5,
];

// FF and GG of the rounds below 16 (4.3).
fn parity(x: u32, y: u32, z: u32) -> u32
    ensures { result ≡ parity_of x y z }
{
    x ^ y ^ z
}

// FF and GG of the later rounds in fewer operations than section 4.3 writes.
fn maj(x: u32, y: u32, z: u32) -> u32
    ensures { result ≡ majority x y z }
{
    (x & y) | ((x | y) & z)
}

fn ch(x: u32, y: u32, z: u32) -> u32
    ensures { result ≡ choose x y z }
{
    z ^ (x & (y ^ z))
}

// The permutations (4.4).
fn p0(x: u32) -> u32
    ensures { result ≡ p0_of x }
{
    x ^ ((x << 9) | (x >> 23)) ^ ((x << 17) | (x >> 15))
}

fn p1(x: u32) -> u32
    ensures { result ≡ p1_of x }
{
    x ^ ((x << 15) | (x >> 17)) ^ ((x << 23) | (x >> 9))
}

// A word after the sixteenth (5.3.2).
fn next(w16: u32, w9: u32, w3: u32, w13: u32, w6: u32) -> u32
    ensures { result ≡ next_word w16 w9 w3 w13 w6 }
{
    p1(w16 ^ w9 ^ ((w3 << 15) | (w3 >> 17))) ^ ((w13 << 7) | (w13 >> 25)) ^ w6
}

fn rotl7(x: u32) -> u32
    ensures { result ≡ rotl 7 x }
{
    (x << 7) | (x >> 25)
}

// SS1, TT1 with SS2 in it, and TT2 (5.3.3).
fn ss1(a: u32, e: u32, k: u32) -> u32
    ensures { result ≡ ss1_of a e k }
{
    rotl7(add(add((a << 12) | (a >> 20), e), k))
}

fn tt1(f: u32, d: u32, s: u32, a: u32, v: u32) -> u32
    ensures { result ≡ tt1_of f d (ss2_of s a) v }
{
    add(add(add(f, d), s ^ ((a << 12) | (a >> 20))), v)
}

fn tt2(g: u32, h: u32, s: u32, w: u32) -> u32
    ensures { result ≡ tt2_of g h s w }
{
    add(add(add(g, h), s), w)
}

// A round, where f and g are its FF and GG.
fn turn(s: State, f: u32, g: u32, k: u32, w: u32, v: u32) -> State
    ensures { result ≡ turned s f g k w v }
{
    let x = ss1(s.a, s.e, k);
    let b = s.b;
    let q = s.f;
    State {
        a: tt1(f, s.d, x, s.a, v),
        b: s.a,
        c: (b << 9) | (b >> 23),
        d: s.c,
        e: p0(tt2(g, s.h, x, w)),
        f: s.e,
        g: (q << 19) | (q >> 13),
        h: s.g,
    }
}

fn early(s: State, k: u32, w: u32, v: u32) -> State
    ensures { result ≡ early_of s k w v }
{
    turn(s, parity(s.a, s.b, s.c), parity(s.e, s.f, s.g), k, w, v)
}

fn late(s: State, k: u32, w: u32, v: u32) -> State
    ensures { result ≡ late_of s k w v }
{
    turn(s, maj(s.a, s.b, s.c), ch(s.e, s.f, s.g), k, w, v)
}

// Round t, below 16. The table is lent: an index into the constant itself would build the table anew at each read.
fn early_at(s: State, w: &[u32], k: &[u32; 64], t: usize) -> State
    requires { (t < 64) × (length w.now ≡ 132) }
    ensures { result ≡ round_at early_of k.now w.now s t }
{
    early(s, k[t], w[t], w[t + 68])
}

// The same from 16 on.
fn late_at(s: State, w: &[u32], k: &[u32; 64], t: usize) -> State
    requires { (t < 64) × (length w.now ≡ 132) }
    ensures { result ≡ round_at late_of k.now w.now s t }
{
    late(s, k[t], w[t], w[t + 68])
}

// W'0 to W'11, which are of the block's own words (5.3.2).
fn pair_up(w: &mut [u32])
    requires { length w.old ≡ 132 }
    ensures { Pairs w.old w.new }
{
    let mut j = 0;
    while j < 12 {
        w[j + 68] = w[j] ^ w[j + 4];
        j += 1;
    }
}

// Wn, and then W'(n - 4) (5.3.2).
fn expand(w: &mut [u32], n: usize)
    requires { (15 < n) × (n < 68) × (length w.old ≡ 132) }
    ensures { Longer Expanded w.old n w.new }
{
    let x = next(w[n - 16], w[n - 9], w[n - 3], w[n - 13], w[n - 6]);
    let y = w[n - 4] ^ x;
    w[n] = x;
    w[n + 64] = y;
}

// Four rounds below 16, each with a word of later rounds: the processor makes the word while the round waits for itself.
fn early_four(s: State, w: &mut [u32], k: &[u32; 64], t: usize) -> State
    requires { (t < 13) × (length w.old ≡ 132) × (k.now ≡ listed constant 64) }
    ensures { Goes rounds_over Expanded s w.old t (t + 16) result w.new (t + 4) (t + 20) }
{
    let mut v = s;
    let mut j = 0;
    while j < 4 {
        v = early_at(v, w, k, t + j);
        expand(w, t + j + 16);
        j += 1;
    }
    v
}

// The same from 16 on, as long as words are to be made.
fn late_four(s: State, w: &mut [u32], k: &[u32; 64], t: usize) -> State
    requires { (15 < t) × (t < 49) × (length w.old ≡ 132) × (k.now ≡ listed constant 64) }
    ensures { Goes rounds_over Expanded s w.old t (t + 16) result w.new (t + 4) (t + 20) }
{
    let mut v = s;
    let mut j = 0;
    while j < 4 {
        v = late_at(v, w, k, t + j);
        expand(w, t + j + 16);
        j += 1;
    }
    v
}

// Four of the last rounds.
fn last_four(s: State, w: &[u32], k: &[u32; 64], t: usize) -> State
    requires { (15 < t) × (t < 61) × (length w.now ≡ 132) × (k.now ≡ listed constant 64) }
    ensures { Goes rounds_over Expanded s w.now t 68 result w.now (t + 4) 68 }
{
    let mut v = s;
    let mut j = 0;
    while j < 4 {
        v = late_at(v, w, k, t + j);
        j += 1;
    }
    v
}

// The 64 rounds, four at a time.
fn run(s: State, w: &mut [u32], k: &[u32; 64]) -> State
    requires { (length w.old ≡ 132) × (k.now ≡ listed constant 64) }
    ensures { Goes rounds_over Expanded s w.old 0 16 result w.new 64 68 }
{
    let mut v = s;
    let mut t = 0;
    while t < 4 {
        v = early_four(v, w, k, 4 * t);
        t += 1;
    }
    let mut u = v;
    let mut i = 4;
    while i < 13 {
        u = late_four(u, w, k, 4 * i);
        i += 1;
    }
    let mut r = u;
    let mut j = 13;
    while j < 16 {
        r = last_four(r, w, k, 4 * j);
        j += 1;
    }
    r
}

fn xor_state(v: State, s: State) -> State
    ensures { result ≡ xor_state v s }
{
    State {
        a: v.a ^ s.a,
        b: v.b ^ s.b,
        c: v.c ^ s.c,
        d: v.d ^ s.d,
        e: v.e ^ s.e,
        f: v.f ^ s.f,
        g: v.g ^ s.g,
        h: v.h ^ s.h,
    }
}

// The hash value after the block that starts at byte p of m.
fn compress(s: State, m: &[u8], p: usize, w: &mut [u32]) -> State
    requires { (p + 64 ≤ length m.now) × (length w.old ≡ 132) }
    ensures value { result ≡ compress_of s (word_from m.now p) }
    ensures w_after { w.new ≡ schedule (word_from m.now p) }
{
    load(m, p, w);
    pair_up(w);
    let v = run(s, w, &K);
    xor_state(v, s)
}

// The initial value (4.1).
pub fn initial() -> State
    ensures { result ≡ initial_of }
{
    State {
        a: 0x7380_166f,
        b: 0x4914_b2b9,
        c: 0x1724_42d7,
        d: 0xda8a_0600,
        e: 0xa96f_30bc,
        f: 0x1631_38aa,
        g: 0xe38d_ee4d,
        h: 0xb0fb_0e4e,
    }
}

// The block step on the 64 bytes from p on of a message, which are read where they lie. Where m has fewer, or w is not 132 words, the hash value and w
// stay as they were.
pub fn step_at(s: State, m: &[u8], p: usize, w: &mut [u32]) -> State
    ensures value { result ≡ value_after 132 compress_of s m.now p w.old }
    ensures w_after { w.new ≡ schedule_after 132 schedule m.now p w.old }
{
    if m.len() < 64 {
        return s;
    }
    if m.len() - 64 < p {
        return s;
    }
    let words = w.len();
    if words != 132 {
        return s;
    }
    compress(s, m, p, w)
}

// The block step: the hash value after a block, whose schedule is left in w. 5: the block is not 64 bytes. 9: w is not 132 words.
pub fn step(s: State, m: &[u8], w: &mut [u32]) -> Stepped
    ensures result_value { stepping result ≡ step_answer 132 compress_of s m.now w.old }
    ensures w_after { w.new ≡ step_schedule 132 schedule m.now w.old }
{
    if m.len() != 64 {
        return Stepped::Refused(5);
    }
    if w.len() != 132 {
        return Stepped::Refused(9);
    }
    Stepped::Done(step_at(s, m, 0, w))
}

// What the layers above may use of the block step beside the contracts. It does nothing.
pub fn claims()
    ensures block_is_taken { BlockIsTaken 132 compress_of schedule }
    ensures block_at_is_taken { BlockAtIsTaken 132 compress_of schedule }
    ensures by_sixteen_words { BySixteenWords }
    ensures example_expands { ExampleExpands }
    ensures example_hashes { ExampleHashes }
{}
