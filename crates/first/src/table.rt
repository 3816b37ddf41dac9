// The names that a caller gives, and the fields of each structure (RFC 6962, sections 3.2 to 3.5).
ghost use Rattle.std.specs.Prelude.{◌≡◌, length, take};
ghost use Rattle.first.specs.Table.{layout_of, line_of};
ghost use Rattle.first.specs.Steps.{known};

use fields::layout::{Field, Inner};
use fields::reading::MOST_FIELDS;
use octets::Width;

// The edition, and its structures.
pub const RFC_6962: u16 = 1;

pub const MERKLE_TREE_LEAF: u16 = 1;

pub const SIGNED_CERTIFICATE_TIMESTAMP: u16 = 2;

pub const TREE_HEAD: u16 = 3;

// Of the two entry types the one whose fields are a precertificate's.
const PRECERT_ENTRY: u16 = 1;

// The lines of the table: the two cases of a leaf, a signed certificate timestamp, the signed portion of a tree head.
#[derive(Clone, Copy)]
pub enum Line {
    X509Entry,
    PrecertEntry,
    CertificateTimestamp,
    TreeHead,
}

const VERSION: Field = Field::OneOf {
    width: Width::One,
    least: 0,
    most: 0,
};

const LEAF_TYPE: Field = Field::OneOf {
    width: Width::One,
    least: 0,
    most: 0,
};

const ENTRY_TYPE: Field = Field::OneOf {
    width: Width::Two,
    least: 0,
    most: 1,
};

const SIGNATURE_TYPE: Field = Field::OneOf {
    width: Width::One,
    least: 1,
    most: 1,
};

const TIMESTAMP: Field = Field::Uint(Width::Eight);

const SIZE: Field = Field::Uint(Width::Eight);

const ALGORITHMS: Field = Field::Uint(Width::Two);

const HASH: Field = Field::Fixed(32);

const CERTIFICATE: Field = Field::Vector {
    width: Width::Three,
    least: 1,
    most: 16777215,
    inner: Inner::Opaque,
};

const EXTENSIONS: Field = Field::Vector {
    width: Width::Two,
    least: 0,
    most: 65535,
    inner: Inner::Opaque,
};

const SIGNATURE: Field = Field::Vector {
    width: Width::Two,
    least: 0,
    most: 65535,
    inner: Inner::Opaque,
};

// The line of a structure that has such a name; of a leaf by its entry type, and any but a precertificate's has the line of a certificate.
pub(crate) fn line_of(edition: u16, which: u16, entry: u16) -> Option<Line>
    ensures { known result ≡ line_of edition which entry }
{
    if edition != RFC_6962 {
        return None;
    }
    match which {
        MERKLE_TREE_LEAF if entry == PRECERT_ENTRY => Some(Line::PrecertEntry),
        MERKLE_TREE_LEAF => Some(Line::X509Entry),
        SIGNED_CERTIFICATE_TIMESTAMP => Some(Line::CertificateTimestamp),
        TREE_HEAD => Some(Line::TreeHead),
        _ => None,
    }
}

pub(crate) fn count_of(line: Line) -> usize
    ensures { result ≡ length (layout_of line) }
{
    match line {
        Line::X509Entry => 6,
        Line::PrecertEntry => 7,
        Line::CertificateTimestamp => 6,
        Line::TreeHead => 5,
    }
}

// Kept: an array and a count, as `read_layout` and `write_layout` take them.
// The fields of a line in their order; past the last one it is repeated.
pub(crate) fn layout_of(line: Line) -> [Field; MOST_FIELDS]
    ensures { take (length (layout_of line)) result ≡ layout_of line }
{
    match line {
        Line::X509Entry => [
            VERSION,
            LEAF_TYPE,
            TIMESTAMP,
            ENTRY_TYPE,
            CERTIFICATE,
            EXTENSIONS,
            EXTENSIONS,
            EXTENSIONS,
        ],
        Line::PrecertEntry => [
            VERSION,
            LEAF_TYPE,
            TIMESTAMP,
            ENTRY_TYPE,
            HASH,
            CERTIFICATE,
            EXTENSIONS,
            EXTENSIONS,
        ],
        Line::CertificateTimestamp => [
            VERSION, HASH, TIMESTAMP, EXTENSIONS, ALGORITHMS, SIGNATURE, SIGNATURE, SIGNATURE,
        ],
        Line::TreeHead => [
            VERSION,
            SIGNATURE_TYPE,
            TIMESTAMP,
            SIZE,
            HASH,
            HASH,
            HASH,
            HASH,
        ],
    }
}
