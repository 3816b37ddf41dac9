// Parts of a text. Every place may be given: what is out of range reads as nothing.
ghost use Rattle.std.specs.Prelude.{◌≤◌};

// The bytes of s from `from` up to `to`, or none where s hasn't so many.
pub(crate) fn part(s: &[u8], from: usize, to: usize) -> &[u8] {
    if to < from {
        return &s[..0];
    }
    if to > s.len() {
        return &s[..0];
    }
    &s[from..to]
}

// How many bytes lie from `from` up to `to`.
pub(crate) fn left(from: usize, to: usize) -> usize {
    if to < from {
        return 0;
    }
    to - from
}

// Where the byte b comes first in s, from `from` on and before `to`; else `to`.
pub(crate) fn seek(s: &[u8], from: usize, to: usize, b: u8) -> usize
    ensures { result ≤ to }
{
    if to < from {
        return to;
    }
    if to > s.len() {
        return to;
    }
    match s[from..to].iter().position(|x| *x == b) {
        Some(i) => from + i,
        None => to,
    }
}

fn space(b: u8) -> usize
    ensures { result ≤ 1 }
{
    if b == b' ' {
        return 1;
    }
    0
}

// How many spaces are in s.
pub(crate) fn spaces(s: &[u8]) -> usize {
    let mut n = 0;
    let mut i = 0;
    while i < s.len() {
        n += space(s[i]);
        i += 1;
    }
    n
}

// Word k of s, from 0 on: what stands between two spaces.
pub(crate) fn word(s: &[u8], k: usize) -> &[u8] {
    let mut from = 0;
    let mut left = k;
    while 0 < left {
        let end = seek(s, from, s.len(), b' ');
        if end >= s.len() {
            return &s[..0];
        }
        from = end + 1;
        left -= 1;
    }
    part(s, from, seek(s, from, s.len(), b' '))
}
