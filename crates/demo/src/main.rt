// The first program to run. An archive files pages of agreements in a log, an auditor follows it, and then the archive tries to put an amended page in
// the place of a signed one. What is printed of a step is what the call answered; an answer that is not the expected one is printed as UNEXPECTED, and
// the last line says so.
//
// pages: page items    log: the growing tree, heads, paths    audit: the auditor's steps    bytes, say: what these write with
#![tactic(auto)]

mod audit;
mod bytes;
mod log;
mod pages;
mod say;

use audit::{Audit, ask, compare, evidence, offer};
use bytes::{Made, slice};
use log::{Log, add, consistency, head_of, inclusion, joined, no_path, noted, save_over};
use pages::page;
use say::words;
use std::io;

// Log ids, as RFC 9162 has them: the bytes of an object identifier.
const LOG: [u8; 2] = [0x2A, 3];

const OTHER_LOG: [u8; 2] = [0x2A, 4];

// Prints a page with its place and its leaf hash. 4: it is no page.
fn show(rt: &impl Print, place: usize, page: Made) -> io::Result<u32> {
    let bytes = page.bytes;
    let hashed = log::leaf(page);
    let digest = hashed.digest.bytes;
    say::count(rt, b"  ", place as u64)?;
    say::short(rt, b"  ", &digest)?;
    pages::tell(rt, slice(&bytes, page.len))
}

fn file(rt: &impl Print, log: Log, page: Made) -> io::Result<Log> {
    let read = show(rt, log.size, page)?;
    Ok(add(noted(log, read), page))
}

fn file_three(rt: &impl Print, signed: Made) -> io::Result<Log> {
    words(
        rt,
        b"An archive files seven pages of agreements. The place, the leaf hash and the text of each:\n",
    )?;
    let mut log = log::empty();
    log = file(
        rt,
        log,
        page(301, 1, b"10 mice of line C57BL/6 to Laboratory A"),
    )?;
    log = file(
        rt,
        log,
        page(302, 1, b"5 vials of cell line HeLa to Laboratory B"),
    )?;
    file(rt, log, signed)
}

fn file_four(rt: &impl Print, given: Log) -> io::Result<Log> {
    let mut log = given;
    log = file(
        rt,
        log,
        page(303, 1, b"20 embryos of zebrafish line AB to Laboratory C"),
    )?;
    log = file(
        rt,
        log,
        page(304, 1, b"2 vials of cell line HEK293 to Laboratory A"),
    )?;
    log = file(
        rt,
        log,
        page(305, 1, b"4 rats of line Wistar to Laboratory D"),
    )?;
    file(
        rt,
        log,
        page(306, 1, b"1 vial of plasmid pUC19 to Laboratory B"),
    )
}

// The auditor follows the archive from three pages to seven.
fn follow(rt: &impl Print, three: Log, log: Log, signed: Made) -> io::Result<Audit> {
    words(
        rt,
        b"\nAn auditor takes the archive's heads (a count of pages, one root over them) and asks for a page:\n",
    )?;
    let one = head_of(three, 1000);
    let path = inclusion(log, 3, 2);
    let two = head_of(log, 2000);
    let between = consistency(log, 3);
    let later = inclusion(log, 7, 2);
    let mut a = audit::start();
    a = offer(rt, a, b"  Head", &LOG, one, no_path(), 0)?;
    a = ask(rt, a, b"  Page", 2, signed, path, 0)?;
    a = offer(rt, a, b"  Head", &LOG, two, between, 0)?;
    a = ask(rt, a, b"  Page", 2, signed, later, 0)?;
    compare(rt, a, 2, signed, one, path, joined(two, between), later)
}

// The amended page: by itself, and under heads over a log that has it.
fn amend(rt: &impl Print, given: Audit, log: Log, amended: Made) -> io::Result<Audit> {
    words(
        rt,
        b"\nThe archive saves an amended page over the signed one, and tries to have it accepted:\n",
    )?;
    let read = show(rt, 2, amended)?;
    let changed = save_over(noted(log, read), 2, amended);
    let longer = add(
        changed,
        page(307, 1, b"6 mice of line BALB/c to Laboratory C"),
    );
    let mut a = given;
    a = ask(
        rt,
        a,
        b"  Amended page, signed page's path",
        2,
        amended,
        inclusion(log, 7, 2),
        8,
    )?;
    a = ask(
        rt,
        a,
        b"  Amended page, its own path",
        2,
        amended,
        inclusion(changed, 7, 2),
        8,
    )?;
    a = offer(
        rt,
        a,
        b"  Head over it",
        &LOG,
        head_of(changed, 3000),
        no_path(),
        13,
    )?;
    offer(
        rt,
        a,
        b"  Head over it",
        &LOG,
        head_of(longer, 3000),
        consistency(longer, 7),
        8,
    )
}

// Heads over the signed pages that don't follow the one held.
fn go_back(rt: &impl Print, given: Audit, three: Log, log: Log) -> io::Result<Audit> {
    words(
        rt,
        b"\nIt offers heads over the signed pages that do not follow the one that the auditor holds:\n",
    )?;
    let mut a = given;
    a = offer(
        rt,
        a,
        b"  Head with an earlier time",
        &LOG,
        head_of(log, 1500),
        no_path(),
        12,
    )?;
    let eight = add(log, page(307, 1, b"6 mice of line BALB/c to Laboratory C"));
    a = offer(
        rt,
        a,
        b"  Head of more pages with the time held",
        &LOG,
        head_of(eight, 2000),
        consistency(eight, 7),
        12,
    )?;
    a = offer(
        rt,
        a,
        b"  Head of another log",
        &OTHER_LOG,
        head_of(log, 3000),
        no_path(),
        11,
    )?;
    offer(
        rt,
        a,
        b"  Head of a smaller tree",
        &LOG,
        head_of(three, 3000),
        no_path(),
        6,
    )
}

fn conclude(rt: &impl Print, good: bool) -> io::Result<()> {
    if good {
        return words(
            rt,
            b"\nThe signed page stands. The amended page was refused in every way that was tried.\n",
        );
    }
    words(rt, b"\nFAILED: an answer above is not the expected one.\n")
}

fn main(rt: HostRuntime) -> io::Result<()> {
    let signed = page(302, 2, b"Laboratory B may not pass the cells on");
    let amended = page(302, 2, b"Laboratory B may pass the cells on");
    let three = file_three(&rt, signed)?;
    let log = file_four(&rt, three)?;
    let mut a = follow(&rt, three, log, signed)?;
    a = amend(&rt, a, log, amended)?;
    a = go_back(&rt, a, three, log)?;
    words(&rt, b"\nThe signed page is asked for once more:\n")?;
    a = ask(&rt, a, b"  Signed page", 2, signed, inclusion(log, 7, 2), 0)?;
    words(
        &rt,
        b"\nThe auditor has kept the latest head that speaks against the archive:\n",
    )?;
    a = evidence(&rt, a, b"  Refused head", 8)?;
    conclude(&rt, a.good)
}
