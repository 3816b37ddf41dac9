// What the entries of the crates hash, sha256 and sm3 call.
ghost use Rattle.std.specs.Prelude.{◌≡◌, length};

use crate::answers::{Answer, behind, keep, one, strings};
use crate::cut::part;
use crate::request::Numbers;
use hash::{Digest, Hashed, by_number};
use words::{State, Stepped};

// 32 bytes as an array; of another length, zeros.
pub(crate) fn hash_from(s: &[u8]) -> [u8; 32] {
    let mut b = [0u8; 32];
    if s.len() == 32 {
        b.copy_from_slice(s);
    }
    b
}

fn kept(number: u32, d: Digest, lent: &mut [u8]) -> Answer {
    let b = d.bytes;
    keep(&b, lent);
    strings(one(number), 32, 0)
}

pub(crate) fn hashed(h: Hashed, lent: &mut [u8]) -> Answer {
    kept(h.number, h.digest, lent)
}

pub(crate) fn digest_from(s: &[u8]) -> Digest {
    Digest {
        bytes: hash_from(s),
    }
}

fn node(algorithm: u64, a: &[u8], b: &[u8], lent: &mut [u8]) -> Answer {
    hashed(
        by_number::node(algorithm, digest_from(a), digest_from(b)),
        lent,
    )
}

// Word t of a list of words, four bytes each, the highest first.
fn word_of(s: &[u8], t: usize) -> u32 {
    if t >= 256 {
        return 0;
    }
    (octets::number_at(part(s, 4 * t, 4 * t + 4), 0, octets::Width::Four) % 4294967296) as u32
}

// The words of a list, and zeros after them.
fn words_from(s: &[u8]) -> [u32; 256]
    ensures { 256 ≡ length result }
{
    let mut w = [0u32; 256];
    let mut t = 0;
    while t < 256 {
        w[t] = word_of(s, t);
        t += 1;
    }
    w
}

fn state_from(s: &[u8]) -> State {
    State {
        a: word_of(s, 0),
        b: word_of(s, 1),
        c: word_of(s, 2),
        d: word_of(s, 3),
        e: word_of(s, 4),
        f: word_of(s, 5),
        g: word_of(s, 6),
        h: word_of(s, 7),
    }
}

// Puts the words as bytes at the start of out, as far as it goes.
fn put_words(w: &[u32], out: &mut [u8]) {
    let mut i = 0;
    while i < out.len() {
        if i / 4 >= w.len() {
            return;
        }
        out[i] = byte(w[i / 4], i % 4);
        i += 1;
    }
}

// Byte k of a word, the highest first.
fn byte(x: u32, k: usize) -> u8 {
    match k {
        0 => (x >> 24) as u8,
        1 => ((x >> 16) % 256) as u8,
        2 => ((x >> 8) % 256) as u8,
        _ => (x % 256) as u8,
    }
}

fn put_state(s: State, out: &mut [u8]) {
    put_words(&[s.a, s.b, s.c, s.d, s.e, s.f, s.g, s.h], out);
}

// The schedule's bytes go behind the state's.
fn stepped(number: u32, s: State, w: &[u32; 256], lent: &mut [u8]) -> Answer {
    put_state(s, lent);
    put_words(w, behind(32, lent));
    one(number)
}

// A step of either hash in the first n words of a schedule.
fn step_in(second: bool, s: State, block: &[u8], w: &mut [u32], n: usize) -> Stepped {
    if n > w.len() {
        return Stepped::Refused(0);
    }
    if second {
        return sm3::step(s, block, &mut w[..n]);
    }
    sha256::step(s, block, &mut w[..n])
}

// The state after a step, or s where it is refused, and the schedule.
fn told(after: Stepped, s: State, w: &[u32; 256], lent: &mut [u8]) -> Answer {
    match after {
        Stepped::Done(t) => stepped(0, t, w, lent),
        Stepped::Refused(number) => stepped(number, s, w, lent),
    }
}

fn step(second: bool, state: &[u8], block: &[u8], schedule: &[u8], lent: &mut [u8]) -> Answer {
    let s = state_from(state);
    let mut w = words_from(schedule);
    let after = step_in(second, s, block, &mut w, schedule.len() / 4);
    strings(told(after, s, &w, lent), 32, schedule.len())
}

pub(crate) fn answer(
    entry: u8,
    n: Numbers,
    a: &[u8],
    b: &[u8],
    c: &[u8],
    lent: &mut [u8],
) -> Answer {
    match entry {
        b'a' => hashed(by_number::digest_of(n.a, a), lent),
        b'b' => hashed(by_number::leaf(n.a, a), lent),
        b'c' => node(n.a, a, b, lent),
        b'd' => one(by_number::digest_into(n.a, a, lent)),
        b'e' => one(by_number::leaf_into(n.a, a, lent)),
        b'f' => step(false, a, b, c, lent),
        _ => step(true, a, b, c, lent),
    }
}
