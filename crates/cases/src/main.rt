// Answers the requests of docs/REQUESTS.md through the public functions of the crates, each line when it comes. Nothing is promised here: the code is
// proved safe, and what it writes is compared with what an independent program says.
//
// input: the lines of standard input    cut: parts of a text    table: the entries    value: one argument    request: the arguments of a line
// answers: the words of an answer       hashing, trees, growth, carrying, items, structures, auditing: what the entries of a crate call
#![tactic(auto)]

mod answers;
mod auditing;
mod carrying;
mod cut;
mod growth;
mod hashing;
mod input;
mod items;
mod request;
mod structures;
mod table;
mod trees;
mod value;

use answers::{LINE, Line, put_answer};
use cut::{part, word};
use input::{TEXT, Text};
use request::{Memory, Request, lend, memory, parse};
use std::io;
use std::io::Read;

fn text() -> Text {
    [0; TEXT]
}

fn line() -> Line {
    [0; LINE]
}

// Writes the answer to a request by the row of its entry.
fn answer(
    rt: &impl Print,
    row: &[u8],
    r: Request,
    mem: &[u8],
    lent: &mut [u8],
    out: &mut Line,
) -> io::Result<()> {
    let buffer = lend(r, mem, lent);
    let a = table::answer(word(row, 1), r, mem, buffer);
    let end = put_answer(word(row, 3), a, buffer, out);
    rt.write_all(part(out, 0, end))
}

// Answers a line, with `?` where it is no request.
fn one(
    rt: &impl Print,
    line: &[u8],
    mem: &mut Memory,
    lent: &mut Memory,
    out: &mut Line,
) -> io::Result<()> {
    let rows = table::rows();
    let row = table::row(&rows, word(line, 0));
    let r = parse(line, word(row, 2), mem);
    if !r.good {
        return rt.write_all(b"?\n");
    }
    answer(rt, row, r, mem, lent, out)
}

// Answers line after line, until the input ends, or reading or writing fails. A line that was too long, or that the input's end cut off, is answered as an
// empty one.
fn serve(
    rt: &impl Print,
    stdin: &mut impl Read,
    text: &mut Text,
    mem: &mut Memory,
    lent: &mut Memory,
    out: &mut Line,
) -> io::Result<()> {
    let mut p = input::start();
    let mut turns = u64::MAX;
    while 0 < turns {
        p = input::next(stdin, text, p)?;
        if p.whole {
            one(rt, input::line(text, p), mem, lent, out)?;
        }
        if p.ended {
            return Ok(());
        }
        turns -= 1;
    }
    Ok(())
}

fn main(rt: HostRuntime) -> io::Result<()> {
    let mut text = text();
    let mut mem = memory();
    let mut lent = memory();
    let mut out = line();
    serve(
        &rt,
        &mut rt.stdin(),
        &mut text,
        &mut mem,
        &mut lent,
        &mut out,
    )
}
