// What the entries of the crate tree call.
use crate::answers::{Answer, one, words};
use crate::request::Numbers;
use tree::build::Built;
use tree::by_number;
use tree::count::{inclusion_count, subproof_count};

pub(crate) fn built(b: Built) -> Answer {
    match b {
        Built::Wrote(count) => words(0, count as u64, 0),
        Built::Refused(number) => one(number),
    }
}

fn root(leaves: &[u8], n: Numbers, lent: &mut [u8]) -> Answer {
    built(by_number::root(n.a, leaves, lent))
}

fn path(leaves: &[u8], n: Numbers, lent: &mut [u8]) -> Answer {
    built(by_number::inclusion_path(n.a, leaves, n.b, lent))
}

fn subproof(leaves: &[u8], n: Numbers, lent: &mut [u8]) -> Answer {
    built(by_number::consistency_path(n.a, leaves, n.b, lent))
}

fn inclusion_nodes(n: Numbers) -> Answer {
    words(inclusion_count(n.a, n.b) as u64, 0, 0)
}

fn subproof_nodes(n: Numbers) -> Answer {
    words(subproof_count(n.a, n.b, n.c == 1) as u64, 0, 0)
}

pub(crate) fn answer(
    entry: u8,
    n: Numbers,
    a: &[u8],
    b: &[u8],
    c: &[u8],
    lent: &mut [u8],
) -> Answer {
    match entry {
        b'a' => root(a, n, lent),
        b'b' => path(a, n, lent),
        b'c' => subproof(a, n, lent),
        b'd' => one(by_number::inclusion_verdict(n.a, a, n.b, n.c, b, c)),
        b'e' => one(by_number::consistency_verdict(n.a, n.b, n.c, a, b, c)),
        b'f' => inclusion_nodes(n),
        _ => subproof_nodes(n),
    }
}
