// What the entries of the crate auditor call. After a call the record's log id lies at the start of the lent buffer, its root behind it, then its second
// place.
use crate::answers::{Answer, behind, keep, keep_at, one, words};
use crate::cut::part;
use crate::hashing::hash_from;
use crate::request::{Numbers, SECOND};
use auditor::dispute::Settled;
use auditor::journal::Appended;
use auditor::{Answered, Evidence, Record};

// 127 bytes as an array; of another length, zeros.
fn id_from(s: &[u8]) -> [u8; 127] {
    let mut b = [0u8; 127];
    if s.len() == 127 {
        b.copy_from_slice(s);
    }
    b
}

fn evidence_from(s: &[u8]) -> Evidence {
    Evidence {
        number: (octets::number_at(s, 0, octets::Width::Four) % 4294967296) as u32,
        id: id_from(part(s, 28, 155)),
        idlen: octets::number_at(s, 4, octets::Width::Eight) as usize,
        timestamp: octets::number_at(s, 12, octets::Width::Eight),
        size: octets::number_at(s, 20, octets::Width::Eight),
        root: hash_from(part(s, 155, SECOND)),
    }
}

fn keep_numbers(e: Evidence, lent: &mut [u8]) {
    octets::put_number(lent, 0, octets::Width::Four, e.number as u64);
    octets::put_number(lent, 4, octets::Width::Eight, e.idlen as u64);
    octets::put_number(lent, 12, octets::Width::Eight, e.timestamp);
    octets::put_number(lent, 20, octets::Width::Eight, e.size);
}

fn keep_evidence(e: Evidence, lent: &mut [u8]) {
    let id = e.id;
    let root = e.root;
    keep_numbers(e, lent);
    keep_at(&id, 28, lent);
    keep_at(&root, 155, lent);
}

fn record(n: Numbers, id: &[u8], root: &[u8], second: &[u8]) -> Record {
    Record {
        held: n.b == 1,
        algorithm: n.c,
        id: id_from(id),
        idlen: n.d as usize,
        timestamp: n.e,
        size: n.f,
        root: hash_from(root),
        evidence: evidence_from(second),
    }
}

fn kept(r: Record, lent: &mut [u8]) {
    let i = r.id;
    let h = r.root;
    let e = r.evidence;
    keep(&i, lent);
    keep_at(&h, 127, lent);
    keep_evidence(e, behind(159, lent));
}

fn answered(a: Answered, lent: &mut [u8]) -> Answer {
    let r = a.after;
    kept(r, lent);
    Answer {
        count: 12,
        number: [
            a.number as u64,
            r.held as u64,
            r.algorithm,
            0,
            r.idlen as u64,
            r.timestamp,
            r.size,
            0,
            0,
            0,
            0,
            0,
        ],
        mid: 127,
        end: 159,
        last: 159 + SECOND,
    }
}

fn settled(s: Settled) -> Answer {
    match s {
        Settled::Same => words(0, 1, 0),
        Settled::Nodes => words(0, 2, 0),
        Settled::Pages => words(0, 3, 0),
        Settled::Refused(number) => one(number),
    }
}

fn appended(a: Appended) -> Answer {
    match a {
        Appended::Used(count) => words(0, count as u64, 0),
        Appended::Refused(number) => one(number),
    }
}

fn offer(
    n: Numbers,
    id: &[u8],
    root: &[u8],
    second: &[u8],
    log: &[u8],
    head: &[u8],
    path: &[u8],
    lent: &mut [u8],
) -> Answer {
    answered(
        auditor::head::offer(n.a, record(n, id, root, second), log, n.g, n.h, head, path),
        lent,
    )
}

fn page(
    n: Numbers,
    id: &[u8],
    root: &[u8],
    second: &[u8],
    bytes: &[u8],
    path: &[u8],
    lent: &mut [u8],
) -> Answer {
    answered(
        auditor::page::ask(n.a, record(n, id, root, second), n.g, bytes, path),
        lent,
    )
}

fn dispute(
    n: Numbers,
    page1: &[u8],
    path1: &[u8],
    root: &[u8],
    heads: &[u8],
    page2: &[u8],
    path2: &[u8],
    lent: &mut [u8],
) -> Answer {
    settled(auditor::dispute::dispute(n.a, page1, n.b, path1, n.c, root, heads, page2, path2, lent))
}

fn append(n: Numbers, root: &[u8], path: &[u8], lent: &mut [u8]) -> Answer {
    appended(auditor::journal::append(lent, n.a as usize, n.b, root, path))
}

pub(crate) fn answer(
    entry: u8,
    n: Numbers,
    a: &[u8],
    b: &[u8],
    c: &[u8],
    d: &[u8],
    e: &[u8],
    f: &[u8],
    lent: &mut [u8],
) -> Answer {
    match entry {
        b'a' => offer(n, a, b, c, d, e, f, lent),
        b'b' => page(n, a, b, c, d, e, lent),
        b'c' => dispute(n, a, b, c, d, e, f, lent),
        _ => append(n, a, b, lent),
    }
}
