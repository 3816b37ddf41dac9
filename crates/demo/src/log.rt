// The archive's log: a growing tree that the pages are filed in, heads over it, and the leaf hashes in the order of filing, from which paths are built.
use crate::bytes::{Made, blank, first, put_all, slice};
use auditor::journal::{Appended, append};
use growing::add::{add_leaves, add_page};
use growing::{Growing, Grown};
use hash::Hashed;
use tree::build::Built;
use tree::by_number::{consistency_path, inclusion_path};

// The number of the archive's hash, SHA-256.
pub(crate) const HASH: u64 = 0x00;

// The tree of `size` pages, and their leaf hashes, joined; the number of the first refusal, or 0.
#[derive(Clone, Copy)]
pub struct Log {
    pub number: u32,
    pub size: usize,
    pub leaves: [u8; 256],
    pub tree: Growing,
}

// A head without its signature.
#[derive(Clone, Copy)]
pub struct Head {
    pub number: u32,
    pub timestamp: u64,
    pub size: u64,
    pub root: [u8; 32],
}

pub(crate) fn empty() -> Log {
    let new = growing::new(HASH);
    let tree = new.after;
    Log {
        number: new.number,
        size: 0,
        leaves: blank(),
        tree,
    }
}

// How many bytes so many hashes have, or none for more than a log has here.
fn hashes(size: usize) -> usize {
    if size > 8 {
        return 0;
    }
    32 * size
}

// The leaf hash of a page.
pub(crate) fn leaf(page: Made) -> Hashed {
    let bytes = page.bytes;
    hash::by_number::leaf(HASH, slice(&bytes, page.len))
}

fn put_leaf(leaves: [u8; 256], place: usize, leaf: Hashed) -> [u8; 256] {
    let mut after = leaves;
    let digest = leaf.digest.bytes;
    put_all(&mut after, hashes(place), &digest);
    after
}

// The log with a page at a place, of a size and with a tree after it.
fn with(log: Log, place: usize, page: Made, size: usize, grown: Grown) -> Log {
    let hashed = leaf(page);
    let leaves = log.leaves;
    let tree = grown.after;
    Log {
        number: first(
            log.number,
            first(page.number, first(hashed.number, grown.number)),
        ),
        size,
        leaves: put_leaf(leaves, place, hashed),
        tree,
    }
}

// The log with a page after its last.
pub(crate) fn add(log: Log, page: Made) -> Log {
    let size = log.size;
    if size > 7 {
        return log;
    }
    let bytes = page.bytes;
    let grown = add_page(HASH, log.tree, slice(&bytes, page.len));
    with(log, size, page, size + 1, grown)
}

// The log with a page over the one at a place. A growing tree has no call for this: another one is made of the leaf hashes.
pub(crate) fn save_over(log: Log, place: usize, page: Made) -> Log {
    let before = log.leaves;
    let leaves = put_leaf(before, place, leaf(page));
    let new = growing::new(HASH);
    let grown = add_leaves(HASH, new.after, slice(&leaves, hashes(log.size)));
    with(log, place, page, log.size, grown)
}

// The log with one number more that was answered on its way.
pub(crate) fn noted(log: Log, number: u32) -> Log {
    let leaves = log.leaves;
    let tree = log.tree;
    Log {
        number: first(log.number, number),
        size: log.size,
        leaves,
        tree,
    }
}

// The head over all pages so far.
pub(crate) fn head_of(log: Log, timestamp: u64) -> Head {
    let made = growing::root(HASH, log.tree);
    let root = made.digest.bytes;
    Head {
        number: first(log.number, made.number),
        timestamp,
        size: log.tree.count,
        root,
    }
}

fn built(log: Log, answer: Built, bytes: [u8; 256]) -> Made {
    match answer {
        Built::Wrote(len) => Made {
            number: log.number,
            len,
            bytes,
        },
        Built::Refused(number) => Made {
            number,
            len: 0,
            bytes,
        },
    }
}

// The path of a place under the head over the first `size` pages.
pub(crate) fn inclusion(log: Log, size: usize, place: u64) -> Made {
    let leaves = log.leaves;
    let mut bytes = blank();
    let answer = inclusion_path(HASH, slice(&leaves, hashes(size)), place, &mut bytes);
    built(log, answer, bytes)
}

// The path from an earlier size to the log's own.
pub(crate) fn consistency(log: Log, from: u64) -> Made {
    let leaves = log.leaves;
    let mut bytes = blank();
    let answer = consistency_path(HASH, slice(&leaves, hashes(log.size)), from, &mut bytes);
    built(log, answer, bytes)
}

// No node: the path of an auditor's first head, or of one of the size held.
pub(crate) fn no_path() -> Made {
    Made {
        number: 0,
        len: 0,
        bytes: blank(),
    }
}

// A journal with one head and its path, as a dispute takes it.
pub(crate) fn joined(head: Head, path: Made) -> Made {
    let root = head.root;
    let nodes = path.bytes;
    let mut bytes = blank();
    let answer = append(&mut bytes, 0, head.size, &root, slice(&nodes, path.len));
    match answer {
        Appended::Used(len) => Made {
            number: first(head.number, path.number),
            len,
            bytes,
        },
        Appended::Refused(number) => Made {
            number,
            len: 0,
            bytes,
        },
    }
}
