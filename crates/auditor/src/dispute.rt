// The dispute about two pages that were accepted at one place.
ghost use Rattle.std.specs.Prelude.{◌≡◌, ◌∷◌, ◌-◌, ◌*◌, ◌≤◌, length, take};
ghost use Rattle.hash.specs.Digest.{hash_of};
ghost use Rattle.tree.specs.Verdict.{inclusion_verdict};
ghost use Rattle.carry.specs.Forward.{carry as carry_to, carrying, carry_report, path_carried, pair_carried};
ghost use Rattle.carry.specs.Compare.{compare as compare_to};
ghost use Rattle.auditor.specs.Heads.{head_size, head_root, head_count, head_path, heads_of};
ghost use Rattle.auditor.specs.Dispute.{longest_path, settled, follow, settling, dispute_report, pair_disputed, dispute_by};
ghost use Rattle.auditor.specs.Dispute as paper;

use super::bytes::{copy, root_of};
use super::heads::{head_bytes, size_of};
use carry::compare::{Compared, compare};
use carry::forward::{Carried, carry};
use hash::by_number::UNKNOWN;
use hash::{Algorithm, Digest, Named, algorithm_of};
use tree::limits::MOST_NODES;
use tree::verdict::inclusion_verdict;

// What a dispute answers: the pages are the same; two strings of nodes that differ and have one hash were written; the two pages, each with 0x00 before
// it, differ and have one hash; or the number of a refusal.
#[derive(Clone, Copy)]
pub enum Settled {
    Same,
    Nodes,
    Pages,
    Refused(u32),
}

// The bytes of the longest inclusion path.
const LONGEST_PATH: usize = 32 * MOST_NODES;

fn path_buffer() -> [u8; LONGEST_PATH]
    ensures { length result ≡ longest_path }
{
    [0; LONGEST_PATH]
}

// Carries the proof at hand by the first head of a buffer, which has `count` bytes.
fn over_head(
    alg: Algorithm,
    leaf: &[u8],
    place: u64,
    m: u64,
    root: &[u8],
    path: &[u8],
    heads: &[u8],
    count: usize,
    out: &mut [u8],
    pair: &mut [u8],
) -> Carried
    requires { (42 ≤ count)
        × (count ≤ length heads.now)
        × (count - 42 ≡ 32 * head_count heads.now)
        × (length out.old ≡ longest_path) }
    ensures { let s = heads.now in
        let o = carry_to (hash_of alg) leaf.now place m (head_size s) root.now (head_root s) path.now (head_path s) longest_path
        (length pair.old) in
        (carrying result ≡ carry_report o)
        × ((out.new ≡ path_carried o out.old)
        × (pair.new ≡ pair_carried o pair.old)) }
{
    let n = size_of(heads);
    carry(
        alg,
        leaf,
        place,
        m,
        n,
        root,
        &heads[8..40],
        path,
        &heads[42..count],
        out,
        pair,
    )
}

// The last step: two proofs under one head, and then the page bytes.
fn settle(
    alg: Algorithm,
    place: u64,
    size: u64,
    root: &[u8],
    page1: &[u8],
    leaf1: &[u8],
    path1: &[u8],
    page2: &[u8],
    leaf2: &[u8],
    path2: &[u8],
    pair: &mut [u8],
) -> Settled
    ensures { let compared = compare_to (hash_of alg) place size root.now leaf1.now path1.now
        leaf2.now path2.now (length pair.old) in
        let o = settled page1.now page2.now compared in
        (settling result ≡ dispute_report o) × (pair.new ≡ pair_disputed o pair.old) }
{
    let compared = compare(alg, place, size, root, leaf1, path1, leaf2, path2, pair);
    match compared {
        Compared::Refused(n) => return Settled::Refused(n),
        Compared::Collision => return Settled::Nodes,
        Compared::Same => {
            if octets::same(page1, page2) {
                return Settled::Same;
            }
            Settled::Pages
        }
    }
}

// From an accepted proof of the first page: over each head, and then to the end.
fn work(
    alg: Algorithm,
    place: u64,
    page1: &[u8],
    one: Digest,
    path1: &[u8],
    size: u64,
    root: &[u8],
    heads: &[u8],
    page2: &[u8],
    two: Digest,
    path2: &[u8],
    pair: &mut [u8],
) -> Settled
    requires { (length path1.now ≤ longest_path)
        × (length root.now ≡ 32)
        × (one.bytes ≡ (hash_of alg) (0 ∷ page1.now))
        × (two.bytes ≡ (hash_of alg) (0 ∷ page2.now)) }
    ensures { let o = follow (hash_of alg) place page1.now page2.now path2.now (length pair.old)
        (heads_of heads.now) size root.now path1.now in
        (settling result ≡ dispute_report o) × (pair.new ≡ pair_disputed o pair.old) }
{
    let leaf1 = one.bytes;
    let leaf2 = two.bytes;
    let mut path = path_buffer();
    copy(path1, &mut path);
    let mut len = path1.len();
    let mut held = root_of(root);
    let mut m = size;
    let mut at = 0;
    while at < heads.len() {
        let rest = &heads[at..];
        let count = head_bytes(rest);
        if count == 0 {
            return Settled::Refused(2);
        }
        let mut out = path_buffer();
        let carried = over_head(
            alg,
            &leaf1,
            place,
            m,
            &held,
            &path[..len],
            rest,
            count,
            &mut out,
            pair,
        );
        match carried {
            Carried::Refused(n) => return Settled::Refused(n),
            Carried::Collision => return Settled::Nodes,
            Carried::Path(n) => {
                path = out;
                len = n;
                m = size_of(rest);
                held = root_of(&rest[8..40]);
                at += count;
            }
        }
    }
    settle(
        alg,
        place,
        m,
        &held,
        page1,
        &leaf1,
        &path[..len],
        page2,
        &leaf2,
        path2,
        pair,
    )
}

// The dispute under one hash. Order: 1 for either page; the first proof's verdict; over each head 2 where it is cut short, then what carrying refuses;
// then what comparing refuses. The first collision ends the work.
fn dispute_by(
    alg: Algorithm,
    page1: &[u8],
    place: u64,
    path1: &[u8],
    size: u64,
    root: &[u8],
    heads: &[u8],
    page2: &[u8],
    path2: &[u8],
    pair: &mut [u8],
) -> Settled
    ensures { let o = paper.dispute (hash_of alg) page1.now place path1.now size root.now (heads_of heads.now)
        page2.now path2.now (length pair.old) in
        (settling result ≡ dispute_report o) × (pair.new ≡ pair_disputed o pair.old) }
{
    let first = hash::leaf(alg, page1);
    if first.number != 0 {
        return Settled::Refused(first.number);
    }
    let second = hash::leaf(alg, page2);
    if second.number != 0 {
        return Settled::Refused(second.number);
    }
    let one = first.digest;
    let two = second.digest;
    let leaf = one.bytes;
    let verdict = inclusion_verdict(alg, &leaf, place, size, root, path1);
    if verdict != 0 {
        return Settled::Refused(verdict);
    }
    work(
        alg, place, page1, one, path1, size, root, heads, page2, two, path2, pair,
    )
}

// Two pages at one place, from the arguments of accepted calls alone: the number of their hash, the first page, its place and path, the size and root of the
// head then held, the heads accepted since, and the second page with its path. 16, before all else: no hash has the number. Then as `dispute_by`.
pub fn dispute(
    algorithm: u64,
    page1: &[u8],
    place: u64,
    path1: &[u8],
    size: u64,
    root: &[u8],
    heads: &[u8],
    page2: &[u8],
    path2: &[u8],
    pair: &mut [u8],
) -> Settled
    ensures { let o = dispute_by algorithm page1.now place path1.now size root.now (heads_of heads.now)
        page2.now path2.now (length pair.old) in
        (settling result ≡ dispute_report o) × (pair.new ≡ pair_disputed o pair.old) }
{
    let named = algorithm_of(algorithm);
    match named {
        Named::By(alg) => {
            dispute_by(
                alg, page1, place, path1, size, root, heads, page2, path2, pair,
            )
        }
        Named::Unknown => Settled::Refused(UNKNOWN),
    }
}
