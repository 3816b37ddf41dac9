// What the entries of the crate growing call. A tree's hashes are joined in the lent buffer: at its start, or behind what the calls of a list answered.
use crate::answers::{Answer, behind, five, keep_at, strings};
use crate::cut::part;
use crate::hashing::{digest_from, hashed};
use crate::request::Numbers;
use crate::trees::built;
use growing::add::{add_leaves, add_page};
use growing::{Growing, Grown, MOST_HASHES};
use hash::Digest;

// The bytes of a tree's hashes, and of what a call of a list answers.
const HASHES: usize = 32 * MOST_HASHES;

const TOLD: usize = 33;

// The bytes in front of a call of a list: its kind, its number, its length.
const HEAD: usize = 7;

fn tree_from(algorithm: u64, s: &[u8], count: u64) -> Growing {
    let none = digest_from(b"");
    let mut hashes = [none; MOST_HASHES];
    let mut i = 0;
    while i < MOST_HASHES {
        hashes[i] = digest_from(part(s, 32 * i, 32 * i + 32));
        i += 1;
    }
    Growing {
        algorithm,
        hashes,
        count,
    }
}

fn keep_digest(d: Digest, at: usize, lent: &mut [u8]) {
    let b = d.bytes;
    keep_at(&b, at, lent);
}

fn keep_hashes(g: Growing, lent: &mut [u8]) {
    let hashes = g.hashes;
    let mut i = 0;
    while i < MOST_HASHES {
        let h = hashes[i];
        keep_digest(h, 32 * i, lent);
        i += 1;
    }
}

fn grown(a: Grown, lent: &mut [u8]) -> Answer {
    let g = a.after;
    keep_hashes(g, lent);
    strings(five(a.number as u64, g.algorithm, 0, g.count, 0), HASHES, 0)
}

// Where the call at a place of a list ends; 0 where no whole call stands there.
fn call_end(calls: &[u8], at: usize) -> usize {
    if calls.len() < HEAD {
        return 0;
    }
    if at > calls.len() - HEAD {
        return 0;
    }
    if calls[at] > 1 {
        return 0;
    }
    let n = octets::number_at(part(calls, at + 3, at + HEAD), 0, octets::Width::Four);
    let room = calls.len() - HEAD - at;
    if n > room as u64 {
        return 0;
    }
    at + HEAD + n as usize
}

fn page_at(calls: &[u8], at: usize) -> bool {
    at < calls.len() && calls[at] == 0
}

// The number that it goes by.
fn number_at(calls: &[u8], at: usize) -> u64 {
    if at >= calls.len() {
        return 0;
    }
    octets::number_at(part(calls, at, calls.len()), 1, octets::Width::Two)
}

// Its bytes, behind its head.
fn body(calls: &[u8], at: usize, end: usize) -> &[u8] {
    if end < HEAD {
        return &calls[..0];
    }
    if at > end - HEAD {
        return &calls[..0];
    }
    part(calls, at + HEAD, end)
}

fn call(algorithm: u64, g: Growing, page: bool, bytes: &[u8]) -> Grown {
    if page {
        return add_page(algorithm, g, bytes);
    }
    add_leaves(algorithm, g, bytes)
}

// Puts the number of a call and the root after it behind those of the calls before.
fn tell(algorithm: u64, a: Grown, made: usize, lent: &mut [u8]) {
    if made > 1000 {
        return;
    }
    keep_at(&[(a.number % 256) as u8], TOLD * made, lent);
    let root = growing::root(algorithm, a.after);
    let digest = root.digest;
    keep_digest(digest, TOLD * made + 1, lent);
}

// A list of calls from a new tree, at most 1,000 of them.
fn grow(algorithm: u64, calls: &[u8], lent: &mut [u8]) -> Answer {
    let new = growing::new(algorithm);
    let mut g = new.after;
    let mut at = 0;
    let mut made = 0;
    while made < 1000 {
        let end = call_end(calls, at);
        if end == 0 {
            break;
        }
        let a = call(
            number_at(calls, at),
            g,
            page_at(calls, at),
            body(calls, at, end),
        );
        tell(algorithm, a, made, lent);
        g = a.after;
        at = end;
        made += 1;
    }
    keep_hashes(g, behind(TOLD * made, lent));
    strings(
        five(new.number as u64, 0, g.algorithm, 0, g.count),
        TOLD * made,
        HASHES,
    )
}

fn root_into(algorithm: u64, g: Growing, lent: &mut [u8]) -> Answer {
    built(growing::root_into(algorithm, g, lent))
}

pub(crate) fn answer(entry: u8, n: Numbers, a: &[u8], b: &[u8], lent: &mut [u8]) -> Answer {
    match entry {
        b'a' => grown(add_page(n.a, tree_from(n.b, a, n.c), b), lent),
        b'b' => grown(add_leaves(n.a, tree_from(n.b, a, n.c), b), lent),
        b'c' => hashed(growing::root(n.a, tree_from(n.b, a, n.c)), lent),
        b'd' => root_into(n.a, tree_from(n.b, a, n.c), lent),
        b'e' => grow(n.a, a, lent),
        _ => grown(growing::new(n.a), lent),
    }
}
