// The auditor's steps. Each prints what is handed over and what the auditor answers.
use crate::bytes::{Made, blank, first, slice};
use crate::log::{HASH, Head, leaf};
use crate::say;
use crate::say::words;
use auditor::dispute::{Settled, dispute};
use auditor::{Answered, Record};
use std::io;

// The auditor's record, and whether every answer so far was expected.
#[derive(Clone, Copy)]
pub struct Audit {
    pub record: Record,
    pub good: bool,
}

pub(crate) fn start() -> Audit {
    Audit {
        record: auditor::empty(),
        good: true,
    }
}

// The audit after a step: the record, whether the answer was expected, and the number of what was handed over.
fn after(rt: &impl Print, a: Audit, record: Record, told: bool, number: u32) -> io::Result<Audit> {
    let made = say::made(rt, number)?;
    Ok(Audit {
        record,
        good: a.good & told & made,
    })
}

fn tell_head(
    rt: &impl Print,
    what: &[u8],
    timestamp: u64,
    size: u64,
    root: &[u8],
) -> io::Result<()> {
    words(rt, what)?;
    say::count(rt, b", ", size)?;
    say::count(rt, b" pages, time ", timestamp)?;
    say::short(rt, b", root ", root)
}

fn offered(r: Record, id: &[u8], head: Head, path: Made) -> Answered {
    let root = head.root;
    let nodes = path.bytes;
    auditor::head::offer(
        HASH,
        r,
        id,
        head.timestamp,
        head.size,
        &root,
        slice(&nodes, path.len),
    )
}

// Offers a head of the log `id` with the path from the head held.
pub(crate) fn offer(
    rt: &impl Print,
    a: Audit,
    what: &[u8],
    id: &[u8],
    head: Head,
    path: Made,
    expected: u32,
) -> io::Result<Audit> {
    let root = head.root;
    tell_head(rt, what, head.timestamp, head.size, &root)?;
    let answered = offered(a.record, id, head, path);
    let told = say::answer(rt, answered.number, expected)?;
    after(rt, a, answered.after, told, first(head.number, path.number))
}

// The refused head that the record keeps, with the number of its refusal.
pub(crate) fn evidence(rt: &impl Print, a: Audit, what: &[u8], expected: u32) -> io::Result<Audit> {
    let r = a.record;
    let kept = r.evidence;
    let root = kept.root;
    tell_head(rt, what, kept.timestamp, kept.size, &root)?;
    let told = say::answer(rt, kept.number, expected)?;
    after(rt, a, r, told, 0)
}

fn tell_page(rt: &impl Print, what: &[u8], place: u64, size: u64, page: Made) -> io::Result<()> {
    words(rt, what)?;
    say::count(rt, b", place ", place)?;
    say::count(rt, b" of ", size)?;
    let hashed = leaf(page);
    let digest = hashed.digest.bytes;
    say::short(rt, b", leaf hash ", &digest)
}

fn asked(r: Record, place: u64, page: Made, path: Made) -> Answered {
    let bytes = page.bytes;
    let nodes = path.bytes;
    auditor::page::ask(
        HASH,
        r,
        place,
        slice(&bytes, page.len),
        slice(&nodes, path.len),
    )
}

// Asks for a page at a place, with its path under the head held.
pub(crate) fn ask(
    rt: &impl Print,
    a: Audit,
    what: &[u8],
    place: u64,
    page: Made,
    path: Made,
    expected: u32,
) -> io::Result<Audit> {
    tell_page(rt, what, place, a.record.size, page)?;
    let answered = asked(a.record, place, page, path);
    let told = say::answer(rt, answered.number, expected)?;
    after(rt, a, answered.after, told, first(page.number, path.number))
}

fn same(rt: &impl Print) -> io::Result<bool> {
    words(rt, b"same\n")?;
    Ok(true)
}

fn unlike(rt: &impl Print, answer: &[u8]) -> io::Result<bool> {
    words(rt, answer)?;
    words(rt, b"\n  UNEXPECTED: the answer should be: same\n")?;
    Ok(false)
}

fn refused(rt: &impl Print, n: u32) -> io::Result<bool> {
    say::verdict(rt, b"", n)?;
    unlike(rt, b"")
}

// Prints what a dispute answers, and says whether the pages are the same.
fn settled(rt: &impl Print, answer: Settled) -> io::Result<bool> {
    match answer {
        Settled::Same => same(rt),
        Settled::Nodes => unlike(rt, b"two strings of nodes with one hash"),
        Settled::Pages => unlike(rt, b"two pages with one leaf hash"),
        Settled::Refused(n) => refused(rt, n),
    }
}

// The dispute over one page that was accepted twice: with `path` under the head of `size` pages and `root`, and with `later` under the next head, which
// `heads` has.
fn disputed(
    place: u64,
    page: Made,
    size: u64,
    root: [u8; 32],
    path: Made,
    heads: Made,
    later: Made,
) -> Settled {
    let bytes = page.bytes;
    let nodes = path.bytes;
    let between = heads.bytes;
    let more = later.bytes;
    let mut pair = blank();
    dispute(
        HASH,
        slice(&bytes, page.len),
        place,
        slice(&nodes, path.len),
        size,
        &root,
        slice(&between, heads.len),
        slice(&bytes, page.len),
        slice(&more, later.len),
        &mut pair,
    )
}

// Settles whether the page accepted under a head is the one accepted under the next.
pub(crate) fn compare(
    rt: &impl Print,
    a: Audit,
    place: u64,
    page: Made,
    head: Head,
    path: Made,
    heads: Made,
    later: Made,
) -> io::Result<Audit> {
    words(rt, b"  Dispute over the page accepted under each head: ")?;
    let root = head.root;
    let same = settled(
        rt,
        disputed(place, page, head.size, root, path, heads, later),
    )?;
    after(rt, a, a.record, same, heads.number)
}
