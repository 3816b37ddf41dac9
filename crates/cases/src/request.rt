// The arguments of a line, each a number or bytes in a memory.
use crate::cut::{left, part, spaces, word};
use crate::value::{NOWHERE, decimal, put};
use growing::MOST_HASHES;

// Where the bytes of a request's arguments lie, and a buffer that it may lend.
pub(crate) const MEMORY: usize = 1048576;

pub(crate) type Memory = [u8; MEMORY];

pub(crate) fn memory() -> Memory {
    [0; MEMORY]
}

// Where the buffer that a request may lend stands among its bytes.
pub(crate) const LENT: usize = 10;

// Number i is number[i], in the order of the words, and string i the bytes of the memory from from[i] up to to[i]; so far there are `numbers` and
// `strings` of them, and the memory is in use up to `used`. It `lends` where one of the words is a lent buffer. Not good where the line is no request.
#[derive(Clone, Copy)]
pub(crate) struct Request {
    pub(crate) good: bool,
    pub(crate) lends: bool,
    pub(crate) used: usize,
    pub(crate) numbers: usize,
    pub(crate) strings: usize,
    pub(crate) number: [u64; 8],
    pub(crate) from: [usize; 11],
    pub(crate) to: [usize; 11],
}

fn empty(good: bool) -> Request {
    Request {
        good,
        lends: false,
        used: 0,
        numbers: 0,
        strings: 0,
        number: [0; 8],
        from: [0; 11],
        to: [0; 11],
    }
}

// A request with one number more.
fn with_number(given: Request, n: u64) -> Request {
    let i = given.numbers;
    if i >= 8 {
        return empty(false);
    }
    let mut r = given;
    r.number[i] = n;
    r.numbers = i + 1;
    r
}

// A request with one string more, after which the memory is in use up to `used`.
fn with_string(given: Request, i: usize, used: usize) -> Request {
    if i >= 11 {
        return empty(false);
    }
    let mut r = given;
    r.from[i] = given.used;
    r.to[i] = used;
    r.used = used;
    r
}

// The largest number that a letter takes: any number, 16 bits (s), a flag (f).
fn most(letter: u8) -> u64 {
    match letter {
        b's' => 65535,
        b'f' => 1,
        _ => u64::MAX,
    }
}

// The bytes of a record's second place: its number in 4, then the length of its log id, its timestamp and its size in 8 each, its log id, its root.
pub(crate) const SECOND: usize = 187;

// Whether a letter takes n bytes: a hash (h), a log id with what follows it (i), a record's second place (e), a growing tree's hashes (g), up to 256 words (w),
// or any.
fn fits(letter: u8, n: usize) -> bool {
    match letter {
        b'h' => n == 32,
        b'i' => n == 127,
        b'e' => n == SECOND,
        b'g' => n == 32 * MOST_HASHES,
        b'w' => n <= 1024 && n % 4 == 0,
        _ => true,
    }
}

fn take_number(r: Request, letter: u8, word: &[u8]) -> Request {
    let n = decimal(word);
    if !n.good {
        return empty(false);
    }
    if n.value > most(letter) {
        return empty(false);
    }
    with_number(r, n.value)
}

// The bytes that are lent (l) stand after all others.
fn take_string(given: Request, letter: u8, used: usize) -> Request {
    let i = given.strings;
    let mut r = given;
    if letter == b'l' {
        r.lends = true;
        return with_string(r, LENT, used);
    }
    if i < LENT {
        r.strings = i + 1;
    }
    with_string(r, i, used)
}

fn take_bytes(r: Request, letter: u8, word: &[u8], mem: &mut Memory) -> Request {
    let end = put(word, mem, r.used);
    if end == NOWHERE {
        return empty(false);
    }
    if !fits(letter, left(r.used, end)) {
        return empty(false);
    }
    take_string(r, letter, end)
}

// A request with the argument that a letter takes from a word.
fn take(r: Request, letter: u8, word: &[u8], mem: &mut Memory) -> Request {
    match letter {
        b'n' | b's' | b'f' => take_number(r, letter, word),
        _ => take_bytes(r, letter, word, mem),
    }
}

// The arguments of a line, which must be as the letters say. Every entry takes one at least.
pub(crate) fn parse(line: &[u8], letters: &[u8], mem: &mut Memory) -> Request {
    let n = letters.len();
    let mut r = empty(0 < n && spaces(line) == n);
    let mut i = 0;
    while i < letters.len() {
        if !r.good {
            return r;
        }
        r = take(r, letters[i], word(line, i + 1), mem);
        i += 1;
    }
    r
}

// The bytes of string i.
pub(crate) fn field(r: Request, i: usize, mem: &[u8]) -> &[u8] {
    if i >= 11 {
        return &mem[..0];
    }
    part(mem, r.from[i], r.to[i])
}

// The numbers of a request, in the order of its words.
#[derive(Clone, Copy)]
pub(crate) struct Numbers {
    pub(crate) a: u64,
    pub(crate) b: u64,
    pub(crate) c: u64,
    pub(crate) d: u64,
    pub(crate) e: u64,
    pub(crate) f: u64,
    pub(crate) g: u64,
    pub(crate) h: u64,
}

pub(crate) fn numbers_of(r: Request) -> Numbers {
    let n = r.number;
    Numbers {
        a: n[0],
        b: n[1],
        c: n[2],
        d: n[3],
        e: n[4],
        f: n[5],
        g: n[6],
        h: n[7],
    }
}

// A number of 16 bits.
pub(crate) fn short(n: u64) -> u16 {
    if n > 65535 {
        return 0;
    }
    n as u16
}

// Bytes in a buffer, they alone.
pub(crate) fn lend_to<'a>(s: &[u8], lent: &'a mut [u8]) -> &'a mut [u8] {
    let n = s.len();
    if n > lent.len() {
        return &mut lent[..0];
    }
    lent[..n].copy_from_slice(s);
    &mut lent[..n]
}

// The buffer that a request lends; where it lends none, the whole, for what it answers.
pub(crate) fn lend<'a>(r: Request, mem: &[u8], lent: &'a mut [u8]) -> &'a mut [u8] {
    if r.lends {
        return lend_to(field(r, LENT, mem), lent);
    }
    lent
}
