// Pages of agreements, as items of type 0xF001.
use crate::bytes::{Made, blank, part};
use crate::say::{count, words};
use fields::layout::{Part, RefusedAt};
use item::{Item, Numbers, Vectors};
use std::io;

const PAGE: u16 = 0xF001;

// The time at which each page is filed.
const FILED: u64 = 500;

fn numbers(agreement: u64, page: u16) -> Numbers {
    Numbers {
        timestamp: FILED,
        size: 0,
        size_one: 0,
        size_two: 0,
        place: 0,
        agreement,
        page,
    }
}

fn made(written: Result<usize, RefusedAt>, bytes: [u8; 256]) -> Made {
    match written {
        Ok(len) => Made {
            number: 0,
            len,
            bytes,
        },
        Err(e) => Made {
            number: u32::from(e.refusal),
            len: 0,
            bytes,
        },
    }
}

// One page of an agreement.
pub(crate) fn page(agreement: u64, page: u16, body: &[u8]) -> Made {
    let mut bytes = blank();
    let none: &[u8] = b"";
    let vectors = Vectors {
        log_id: none,
        issuer_key_hash: none,
        certificate: none,
        root_hash: none,
        extensions: none,
        signature: none,
        path: none,
        body,
    };
    let written = item::write(PAGE, numbers(agreement, page), vectors, &mut bytes);
    made(written, bytes)
}

fn tell_fields(
    rt: &impl Print,
    bytes: &[u8],
    agreement: Part,
    page: Part,
    body: Part,
) -> io::Result<u32> {
    count(rt, b"  agreement ", agreement.value)?;
    count(rt, b", page ", page.value)?;
    words(rt, b": ")?;
    words(rt, part(bytes, body.start, body.len))?;
    words(rt, b"\n")?;
    Ok(0)
}

fn no_page(rt: &impl Print) -> io::Result<u32> {
    words(rt, b"  UNEXPECTED: this is no page\n")?;
    Ok(4)
}

// Prints what stands on a page, as the reader of items finds it. 4: it is no page.
pub(crate) fn tell(rt: &impl Print, page: &[u8]) -> io::Result<u32> {
    match item::read(page) {
        Ok(
            Item::Page {
                kind: _,
                timestamp: _,
                agreement,
                page: sheet,
                body,
            },
        ) => tell_fields(rt, page, agreement, sheet, body),
        _ => no_page(rt),
    }
}
