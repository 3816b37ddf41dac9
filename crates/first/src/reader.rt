// Reading a whole structure: 1 first, then its name, then left to right.
ghost use Rattle.std.specs.Prelude.{◌≡◌, Ok, length, take};
ghost use Rattle.fields.specs.Checked.{then};
ghost use Rattle.fields.specs.Layout.{read as read_layout};
ghost use Rattle.first.specs.Table.{layout_of};
ghost use Rattle.first.specs.First.{structure, reading, read_first};

use crate::table::{Line, count_of, layout_of, line_of};
use fields::layout::{Part, RefusedAt};
use fields::reading::{MOST_FIELDS, read_layout};
use octets::limits::MOST_ITEM;
use octets::refusal::Refusal;
use octets::{Width, number_at};

// Where the fields of a structure lie, each by its name. A leaf is one of two, by its entry type.
#[derive(Clone, Copy)]
pub enum First {
    X509Entry {
        version: Part,
        leaf_type: Part,
        timestamp: Part,
        entry_type: Part,
        certificate: Part,
        extensions: Part,
    },
    PrecertEntry {
        version: Part,
        leaf_type: Part,
        timestamp: Part,
        entry_type: Part,
        issuer_key_hash: Part,
        tbs_certificate: Part,
        extensions: Part,
    },
    CertificateTimestamp {
        version: Part,
        log_id: Part,
        timestamp: Part,
        extensions: Part,
        algorithms: Part,
        signature: Part,
    },
    TreeHead {
        version: Part,
        signature_type: Part,
        timestamp: Part,
        size: Part,
        root_hash: Part,
    },
}

// The parts of a line by their names.
fn named(line: Line, parts: [Part; MOST_FIELDS]) -> First
    ensures { reading (Ok result) ≡ structure line (take (length (layout_of line)) parts) }
{
    match line {
        Line::X509Entry => First::X509Entry {
            version: parts[0],
            leaf_type: parts[1],
            timestamp: parts[2],
            entry_type: parts[3],
            certificate: parts[4],
            extensions: parts[5],
        },
        Line::PrecertEntry => First::PrecertEntry {
            version: parts[0],
            leaf_type: parts[1],
            timestamp: parts[2],
            entry_type: parts[3],
            issuer_key_hash: parts[4],
            tbs_certificate: parts[5],
            extensions: parts[6],
        },
        Line::CertificateTimestamp => First::CertificateTimestamp {
            version: parts[0],
            log_id: parts[1],
            timestamp: parts[2],
            extensions: parts[3],
            algorithms: parts[4],
            signature: parts[5],
        },
        Line::TreeHead => First::TreeHead {
            version: parts[0],
            signature_type: parts[1],
            timestamp: parts[2],
            size: parts[3],
            root_hash: parts[4],
        },
    }
}

// The fields of a line, and nothing after them.
fn read_fields(s: &[u8], line: Line) -> Result<First, RefusedAt>
    ensures { reading result ≡ then (read_layout (layout_of line) s.now 0) (structure line) }
{
    let layout = layout_of(line);
    let n = count_of(line);
    match read_layout(s, 0, layout, n) {
        Err(e) => Err(RefusedAt {
            refusal: e.refusal,
            place: e.place,
        }),
        Ok(parts) => Ok(named(line, parts)),
    }
}

// Where each field of the named structure lies. A leaf's line goes by the two bytes of its entry type.
pub fn read(edition: u16, which: u16, s: &[u8]) -> Result<First, RefusedAt>
    ensures { reading result ≡ read_first edition which s.now }
{
    if MOST_ITEM < s.len() {
        return Err(RefusedAt {
            refusal: Refusal::TooLong,
            place: 0,
        });
    }
    let entry = number_at(s, 10, Width::Two) as u16;
    let Some(line) = line_of(edition, which, entry) else {
        return Err(RefusedAt {
            refusal: Refusal::UnknownType,
            place: 0,
        });
    };
    read_fields(s, line)
}
