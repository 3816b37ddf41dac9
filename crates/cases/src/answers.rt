// The words of an answer, written one after the other into a buffer. Each function answers the place after what it wrote; where the buffer is full it
// writes nothing more.
use crate::cut::part;
use crate::request::MEMORY;
use itoa::Buffer;

// Room for two digits for each byte of the memory, and some numbers.
pub(crate) const LINE: usize = 2 * MEMORY + 512;

pub(crate) type Line = [u8; LINE];

// What an entry answers: a number for each of at most `count` words, and three strings of bytes that it left in the lent buffer, one from the start up to
// `mid`, one from there up to `end`, one from there up to `last`. The entry's letters say what is written.
#[derive(Clone, Copy)]
pub(crate) struct Answer {
    pub(crate) count: usize,
    pub(crate) number: [u64; 12],
    pub(crate) mid: usize,
    pub(crate) end: usize,
    pub(crate) last: usize,
}

// Up to five numbers.
pub(crate) fn five(a: u64, b: u64, c: u64, d: u64, e: u64) -> Answer {
    Answer {
        count: 12,
        number: [a, b, c, d, e, 0, 0, 0, 0, 0, 0, 0],
        mid: 0,
        end: 0,
        last: 0,
    }
}

// Up to three.
pub(crate) fn words(a: u64, b: u64, c: u64) -> Answer {
    five(a, b, c, 0, 0)
}

// A refusal, or 0.
pub(crate) fn one(number: u32) -> Answer {
    words(number as u64, 0, 0)
}

// An answer with two strings of these lengths in the lent buffer.
pub(crate) fn strings(given: Answer, first: usize, second: usize) -> Answer {
    let mut a = given;
    if second <= usize::MAX - first {
        a.mid = first;
        a.end = first + second;
    }
    a
}

// An answer with one word more.
pub(crate) fn then(given: Answer, n: u64) -> Answer {
    let i = given.count;
    let mut a = given;
    if i < 12 {
        a.number[i] = n;
        a.count = i + 1;
    }
    a
}

// Puts bytes at the start of a buffer, where it has room for them.
pub(crate) fn keep(s: &[u8], lent: &mut [u8]) {
    let n = s.len();
    if n <= lent.len() {
        lent[..n].copy_from_slice(s);
    }
}

// A buffer from a place on.
pub(crate) fn behind<'a>(at: usize, lent: &'a mut [u8]) -> &'a mut [u8] {
    if at > lent.len() {
        return &mut lent[..0];
    }
    &mut lent[at..]
}

// Puts bytes into a buffer from a place on.
pub(crate) fn keep_at(s: &[u8], at: usize, lent: &mut [u8]) {
    keep(s, behind(at, lent));
}

fn number_of(a: Answer, i: usize) -> u64 {
    if i >= 12 {
        return 0;
    }
    a.number[i]
}

fn put(out: &mut Line, at: usize, b: u8) -> usize {
    if at >= LINE {
        return at;
    }
    out[at] = b;
    at + 1
}

fn space(out: &mut Line, at: usize) -> usize {
    if at == 0 {
        return at;
    }
    put(out, at, b' ')
}

fn digit(x: u8) -> u8 {
    if x < 10 {
        return b'0' + x;
    }
    if x < 16 {
        return b'a' - 10 + x;
    }
    b'?'
}

fn put_text(out: &mut Line, at: usize, s: &[u8]) -> usize {
    let mut p = at;
    let mut i = 0;
    while i < s.len() {
        p = put(out, p, s[i]);
        i += 1;
    }
    p
}

fn put_hex(out: &mut Line, at: usize, b: u8) -> usize {
    let p = put(out, at, digit(b / 16));
    put(out, p, digit(b % 16))
}

fn put_bytes(out: &mut Line, at: usize, s: &[u8]) -> usize {
    let mut p = put(out, at, b'x');
    let mut i = 0;
    while i < s.len() {
        p = put_hex(out, p, s[i]);
        i += 1;
    }
    p
}

fn put_number(out: &mut Line, at: usize, n: u64) -> usize {
    let mut text = Buffer::new();
    put_text(out, at, text.format(n).as_bytes())
}

// The bytes of a letter: the buffer that the request lends (l), or the first (m), second (p) or third (q) string of the answer.
fn string(letter: u8, a: Answer, lent: &[u8]) -> &[u8] {
    match letter {
        b'l' => lent,
        b'm' => part(lent, 0, a.mid),
        b'p' => part(lent, a.mid, a.end),
        _ => part(lent, a.end, a.last),
    }
}

// A word of a letter: the number x (n), or bytes. A space comes before every word but the first.
fn put_word(letter: u8, x: u64, s: &[u8], out: &mut Line, at: usize) -> usize {
    let p = space(out, at);
    if letter == b'n' {
        return put_number(out, p, x);
    }
    put_bytes(out, p, s)
}

// The line of an answer.
pub(crate) fn put_answer(letters: &[u8], a: Answer, lent: &[u8], out: &mut Line) -> usize {
    let mut p = 0;
    let mut i = 0;
    while i < letters.len() {
        if i >= a.count {
            break;
        }
        let letter = letters[i];
        p = put_word(letter, number_of(a, i), string(letter, a, lent), out, p);
        i += 1;
    }
    put(out, p, b'\n')
}
