// The record's second place: a refused head that is evidence against the log.
ghost use Rattle.std.specs.Prelude.{◌≡◌, ◌≤◌, length};
ghost use Rattle.auditor.specs.Held.{view, no_evidence};
ghost use Rattle.auditor.specs.Second.{is_evidence, evidence_of, beside};

use super::bytes::{id_of, no_id, no_root, other_root, root_of};
use crate::{Evidence, Record};

pub(crate) fn no_evidence() -> Evidence
    ensures { result ≡ no_evidence }
{
    Evidence {
        number: 0,
        id: no_id(),
        idlen: 0,
        timestamp: 0,
        size: 0,
        root: no_root(),
    }
}

// A head that was refused with a number.
pub(crate) fn refused_head(
    number: u32,
    id: &[u8],
    timestamp: u64,
    size: u64,
    root: &[u8],
) -> Evidence
    requires id_len_bound { length id.now ≤ 127 }
    requires root_len { length root.now ≡ 32 }
    ensures { result ≡ evidence_of number id.now timestamp size root.now }
{
    Evidence {
        number,
        id: id_of(id),
        idlen: id.len(),
        timestamp,
        size,
        root: root_of(root),
    }
}

// A record with this second place.
pub(crate) fn beside(r: Record, e: Evidence) -> Record
    ensures { result ≡ beside r e }
{
    let mut s = r;
    s.evidence = e;
    s
}

// Whether a head that was refused with a number is evidence: 8, 13, and 12 where its size is the record's and its root another.
pub(crate) fn is_evidence(r: Record, number: u32, size: u64, root: &[u8]) -> bool
    ensures { result ≡ is_evidence (view r) number size root.now }
{
    if number == 8 {
        return true;
    }
    if number == 13 {
        return true;
    }
    if number != 12 {
        return false;
    }
    if r.held {
        return other_root(r, size, root);
    }
    false
}
