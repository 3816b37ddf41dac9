// What the entries of the crate carry call.
use crate::answers::{Answer, keep_at, one, strings, words};
use crate::cut::part;
use crate::request::{Numbers, lend_to, memory};
use carry::compare::Compared;
use carry::forward::Carried;

fn carried(c: Carried) -> Answer {
    match c {
        Carried::Path(count) => words(0, 0, count as u64),
        Carried::Collision => words(0, 1, 0),
        Carried::Refused(number) => one(number),
    }
}

fn compared(c: Compared) -> Answer {
    match c {
        Compared::Same => one(0),
        Compared::Collision => words(0, 1, 0),
        Compared::Refused(number) => one(number),
    }
}

// Both buffers hold their bytes from before the call; the pair buffer's go behind the path buffer's.
fn forward(
    n: Numbers,
    leaf: &[u8],
    root: &[u8],
    path: &[u8],
    second: &[u8],
    step: &[u8],
    out: &[u8],
    pair: &[u8],
    lent: &mut [u8],
) -> Answer {
    let mut p = memory();
    let c = carry::by_number::carry(
        n.a,
        leaf,
        n.b,
        n.c,
        n.d,
        root,
        second,
        path,
        step,
        lend_to(out, lent),
        lend_to(pair, &mut p),
    );
    keep_at(part(&p, 0, pair.len()), out.len(), lent);
    strings(carried(c), out.len(), pair.len())
}

fn compare(
    n: Numbers,
    root: &[u8],
    leaf1: &[u8],
    path1: &[u8],
    leaf2: &[u8],
    path2: &[u8],
    lent: &mut [u8],
) -> Answer {
    compared(carry::by_number::compare(n.a, n.b, n.c, root, leaf1, path1, leaf2, path2, lent))
}

pub(crate) fn answer(
    entry: u8,
    n: Numbers,
    a: &[u8],
    b: &[u8],
    c: &[u8],
    d: &[u8],
    e: &[u8],
    f: &[u8],
    g: &[u8],
    lent: &mut [u8],
) -> Answer {
    match entry {
        b'a' => forward(n, a, b, c, d, e, f, g, lent),
        _ => compare(n, a, b, c, d, e, lent),
    }
}
