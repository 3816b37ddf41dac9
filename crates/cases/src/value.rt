// One argument: a number, or bytes that go to a memory.
ghost use Rattle.std.specs.Prelude.{◌≤◌};

use crate::cut::{part, seek};
use crate::request::{MEMORY, Memory};

// No place of a memory.
pub(crate) const NOWHERE: usize = usize::MAX;

#[derive(Clone, Copy)]
pub(crate) struct Number {
    pub(crate) good: bool,
    pub(crate) value: u64,
}

// The value of a hex digit in lower case, or 16.
fn digit(b: u8) -> u8
    ensures { result ≤ 16 }
{
    if b < b'0' {
        return 16;
    }
    if b <= b'9' {
        return b - b'0';
    }
    if b < b'a' {
        return 16;
    }
    if b <= b'f' {
        return b - b'a' + 10;
    }
    16
}

// A number with one digit more.
fn longer(x: u64, d: u8) -> Number {
    if d > 9 {
        return Number {
            good: false,
            value: 0,
        };
    }
    let y = d as u64;
    if x > (u64::MAX - y) / 10 {
        return Number {
            good: false,
            value: 0,
        };
    }
    Number {
        good: true,
        value: x * 10 + y,
    }
}

// A number in decimal.
pub(crate) fn decimal(word: &[u8]) -> Number {
    let mut x = Number {
        good: 0 < word.len(),
        value: 0,
    };
    let mut i = 0;
    while i < word.len() {
        x = longer(x.value, digit(word[i]));
        if !x.good {
            return x;
        }
        i += 1;
    }
    x
}

// The digit at a place, or 16.
fn digit_at(s: &[u8], i: usize) -> u8
    ensures { result ≤ 16 }
{
    if i >= s.len() {
        return 16;
    }
    digit(s[i])
}

// The byte of two hex digits from a place on, or 256.
fn pair(s: &[u8], i: usize) -> u16
    ensures { result ≤ 256 }
{
    if i == usize::MAX {
        return 256;
    }
    let x = digit_at(s, i);
    let y = digit_at(s, i + 1);
    if x > 15 || y > 15 {
        return 256;
    }
    x as u16 * 16 + y as u16
}

// Puts the byte b at a place of the memory, n times over, and answers the place after it.
fn repeat(n: u64, b: u16, mem: &mut Memory, at: usize) -> usize {
    if b > 255 {
        return NOWHERE;
    }
    let mut p = at;
    let mut left = n;
    while 0 < left {
        if p >= MEMORY {
            return NOWHERE;
        }
        mem[p] = b as u8;
        p += 1;
        left -= 1;
    }
    p
}

// Bytes in hex.
fn hex(digits: &[u8], mem: &mut Memory, at: usize) -> usize {
    if digits.len() % 2 != 0 {
        return NOWHERE;
    }
    let mut p = at;
    let mut i = 0;
    while i < digits.len() / 2 {
        p = repeat(1, pair(digits, 2 * i), mem, p);
        i += 1;
    }
    p
}

// A count, a star and a byte.
fn repeated(word: &[u8], mem: &mut Memory, at: usize) -> usize {
    let star = seek(word, 0, word.len(), b'*');
    let n = decimal(part(word, 0, star));
    if !n.good {
        return NOWHERE;
    }
    if word.len() - star != 3 {
        return NOWHERE;
    }
    repeat(n.value, pair(word, star + 1), mem, at)
}

// Puts the bytes that a word says at a place of the memory, and answers the place after them; or nowhere.
pub(crate) fn put(word: &[u8], mem: &mut Memory, at: usize) -> usize {
    if word.len() == 0 {
        return NOWHERE;
    }
    if word[0] == b'x' {
        return hex(&word[1..], mem, at);
    }
    repeated(word, mem, at)
}
