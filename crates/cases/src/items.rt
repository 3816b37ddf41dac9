// What the entries of the crate item call, and those of first, which take and answer the same kinds of words.
use crate::answers::{Answer, keep, one, strings, then, words};
use crate::request::{Numbers, short};
use crate::structures;
use fields::layout::{Part, RefusedAt};
use item::Item;
use octets::refusal::Refusal;

// A field as it is answered: by where its bytes start and how many they are, or by the number that it is.
#[derive(Clone, Copy)]
pub(crate) enum Said {
    Bytes(Part),
    Number(Part),
}

// An answer of two numbers, and of fields in their order.
pub(crate) fn told(a: u64, b: u64, fields: &[Said]) -> Answer {
    let mut said = Answer {
        count: 2,
        number: [a, b, 0, 0, 0, 0, 0, 0, 0, 0, 0, 0],
        mid: 0,
        end: 0,
        last: 0,
    };
    for field in fields {
        said = match *field {
            Said::Bytes(p) => then(then(said, p.start as u64), p.len as u64),
            Said::Number(p) => then(said, p.value),
        };
    }
    said
}

// A refusal and its place.
pub(crate) fn refused(refusal: Refusal, place: usize) -> Answer {
    told(u64::from(u32::from(refusal)), place as u64, &[])
}

// No refusal, the type of an item, and its fields.
fn any(found: Item) -> Answer {
    match found {
        Item::Entry {
            kind,
            timestamp,
            issuer_key_hash,
            certificate,
            extensions,
        } => told(
            0,
            kind as u64,
            &[
                Said::Number(timestamp),
                Said::Bytes(issuer_key_hash),
                Said::Bytes(certificate),
                Said::Bytes(extensions),
            ],
        ),
        Item::Receipt {
            kind,
            log_id,
            timestamp,
            extensions,
            signature,
        } => told(
            0,
            kind as u64,
            &[
                Said::Bytes(log_id),
                Said::Number(timestamp),
                Said::Bytes(extensions),
                Said::Bytes(signature),
            ],
        ),
        Item::SignedHead {
            kind,
            log_id,
            timestamp,
            size,
            root_hash,
            extensions,
            signature,
        } => told(
            0,
            kind as u64,
            &[
                Said::Bytes(log_id),
                Said::Number(timestamp),
                Said::Number(size),
                Said::Bytes(root_hash),
                Said::Bytes(extensions),
                Said::Bytes(signature),
            ],
        ),
        Item::Consistency {
            kind,
            log_id,
            size_one,
            size_two,
            path,
        } => told(
            0,
            kind as u64,
            &[
                Said::Bytes(log_id),
                Said::Number(size_one),
                Said::Number(size_two),
                Said::Bytes(path),
            ],
        ),
        Item::Inclusion {
            kind,
            log_id,
            size,
            place,
            path,
        } => told(
            0,
            kind as u64,
            &[
                Said::Bytes(log_id),
                Said::Number(size),
                Said::Number(place),
                Said::Bytes(path),
            ],
        ),
        Item::Page {
            kind,
            timestamp,
            agreement,
            page,
            body,
        } => told(
            0,
            kind as u64,
            &[
                Said::Number(timestamp),
                Said::Number(agreement),
                Said::Number(page),
                Said::Bytes(body),
            ],
        ),
    }
}

fn numbers(n: Numbers) -> item::Numbers {
    item::Numbers {
        timestamp: n.b,
        size: n.c,
        size_one: n.c,
        size_two: n.d,
        place: n.e,
        agreement: n.f,
        page: short(n.g),
    }
}

pub(crate) fn written(w: Result<usize, RefusedAt>) -> Answer {
    match w {
        Ok(count) => words(0, 0, count as u64),
        Err(e) => words(u64::from(u32::from(e.refusal)), e.place as u64, 0),
    }
}

fn newer<'a>(a: &'a [u8], b: &'a [u8], lent: &mut [u8]) -> Answer {
    let s = item::newer(a, b);
    keep(s, lent);
    strings(one(0), s.len(), 0)
}

fn path_into(n: Numbers, a: &[u8], lent: &mut [u8]) -> Answer {
    let path = Part {
        start: n.a as usize,
        len: n.b as usize,
        value: 0,
    };
    written(fields::path::path_into(a, path, lent))
}

fn read(bytes: &[u8]) -> Answer {
    match item::read(bytes) {
        Ok(found) => any(found),
        Err(e) => refused(e.refusal, e.place),
    }
}

pub(crate) fn answer<'a>(
    entry: u8,
    n: Numbers,
    a: &'a [u8],
    b: &'a [u8],
    c: &'a [u8],
    d: &'a [u8],
    e: &'a [u8],
    f: &'a [u8],
    g: &'a [u8],
    h: &'a [u8],
    lent: &mut [u8],
) -> Answer {
    match entry {
        b'a' => read(a),
        b'b' => {
            let vectors = item::Vectors {
                log_id: a,
                issuer_key_hash: b,
                certificate: c,
                extensions: d,
                signature: e,
                root_hash: f,
                path: g,
                body: h,
            };
            written(item::write(short(n.a), numbers(n), vectors, lent))
        }
        b'c' => newer(a, b, lent),
        b'd' => path_into(n, a, lent),
        b'e' => structures::read(n, a),
        _ => {
            let vectors = first::Vectors {
                log_id: a,
                issuer_key_hash: b,
                certificate: c,
                extensions: d,
                signature: e,
                root_hash: f,
            };
            structures::write(n, vectors, lent)
        }
    }
}
