// Does the work whose time reference/bench measures, since the library for C has no growing tree. Each byte of standard input names a job over the same
// 65,536 leaf hashes, by SHA-256. Its answer is 32 bytes that depend on all of the work; zeros, where a call is refused. Any other byte ends the program.
#![tactic(auto)]

use growing::Growing;
use growing::add::add_leaves;
use hash::{Algorithm, Digest};
use std::io;
use std::io::Read;

const BYTES: usize = 2_097_152;

// The number of SHA-256.
const SHA256: u64 = 0x00;

// By itself, so that no other proof has the array in its facts.
fn zeros() -> [u8; BYTES] {
    [0; BYTES]
}

fn none() -> Digest {
    Digest { bytes: [0; 32] }
}

// Makes each leaf hash the two bytes of its number over and over, the lower one first.
fn fill(leaves: &mut [u8]) {
    let mut i = 0;
    while i < leaves.len() {
        let number = i / 32;
        leaves[i] = ((number >> (8 * (i % 2))) % 256) as u8;
        i += 1;
    }
}

// So many node hashes, each of the one before and zeros.
fn node_hashes(count: usize) -> Digest {
    let mut h = none();
    let mut left = count;
    while 0 < left {
        h = hash::node(Algorithm::Sha256, h, none());
        left -= 1;
    }
    h
}

// The root of all leaves so far; zeros, where it is refused.
fn root(g: Growing) -> Digest {
    let hashed = growing::root(SHA256, g);
    hashed.digest
}

// The root of all leaves, added in one call.
fn at_once(leaves: &[u8]) -> Digest {
    let made = growing::new(SHA256);
    let grown = add_leaves(SHA256, made.after, leaves);
    if grown.number != 0 {
        return none();
    }
    root(grown.after)
}

// The root of all leaves, added one by one.
fn one_by_one(leaves: &[u8]) -> Digest {
    let made = growing::new(SHA256);
    let mut g = made.after;
    let mut i = 0;
    while 32 <= leaves.len() - i {
        let grown = add_leaves(SHA256, g, &leaves[i..i + 32]);
        if grown.number != 0 {
            return none();
        }
        g = grown.after;
        i += 32;
    }
    root(g)
}

fn xor(a: Digest, b: Digest) -> Digest {
    let mut bytes = a.bytes;
    let mut i = 0;
    while i < 32 {
        bytes[i] = bytes[i] ^ b.bytes[i];
        i += 1;
    }
    Digest { bytes }
}

// The xor of the roots after each leaf: no root can be left out.
fn all_roots(leaves: &[u8]) -> Digest {
    let made = growing::new(SHA256);
    let mut g = made.after;
    let mut all = none();
    let mut i = 0;
    while 32 <= leaves.len() - i {
        let grown = add_leaves(SHA256, g, &leaves[i..i + 32]);
        if grown.number != 0 {
            return none();
        }
        g = grown.after;
        all = xor(all, root(g));
        i += 32;
    }
    all
}

// Writes the answer of a job: true, once it is written.
fn answer(rt: &impl Print, h: Digest) -> io::Result<bool> {
    let bytes = h.bytes;
    rt.write_all(&bytes)?;
    Ok(true)
}

// Whether a byte names a job. Then its answer is written.
fn job(rt: &impl Print, name: u8, leaves: &[u8]) -> io::Result<bool> {
    match name {
        b'h' => answer(rt, node_hashes(leaves.len() / 32)),
        b'a' => answer(rt, at_once(leaves)),
        b'e' => answer(rt, one_by_one(leaves)),
        b'r' => answer(rt, all_roots(leaves)),
        _ => Ok(false),
    }
}

// The next byte of the input, or 0 at its end.
fn next(stdin: &mut impl Read) -> io::Result<u8> {
    let mut one = [0; 1];
    stdin.read(&mut one)?;
    Ok(one[0])
}

fn main(rt: HostRuntime) -> io::Result<()> {
    let mut stdin = rt.stdin();
    let mut leaves = zeros();
    fill(&mut leaves);
    let mut turns = u64::MAX;
    while 0 < turns {
        let name = next(&mut stdin)?;
        if !job(&rt, name, &leaves)? {
            return Ok(());
        }
        turns -= 1;
    }
    Ok(())
}
