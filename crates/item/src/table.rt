// Document 01's table of items: the kind of each named field, the fields of each case, and the types of each case.
ghost use Rattle.std.specs.Prelude.{◌≡◌, length, take};
ghost use Rattle.item.specs.Table.{field_of, names_of, layout_of, met_in, find, types};
ghost use Rattle.item.specs.Steps.{known};

use fields::layout::{Field, Inner, Order};
use fields::reading::MOST_FIELDS;
use octets::Width;

// Every field that some item has.
#[derive(Clone, Copy, PartialEq, Eq)]
pub enum Name {
    Timestamp,
    Size,
    SizeOne,
    SizeTwo,
    Place,
    Agreement,
    PageNumber,
    LogId,
    IssuerKeyHash,
    Certificate,
    RootHash,
    Extensions,
    Signature,
    Path,
    Body,
}

// The lines of the table.
#[derive(Clone, Copy)]
pub enum Case {
    Entry,
    Receipt,
    SignedHead,
    Consistency,
    Inclusion,
    Page,
}

// What a refusal of the reader met: the whole item, which is too long; the two bytes of its type; a field by its name; bytes after the last field.
#[derive(Clone, Copy, PartialEq, Eq)]
pub enum Met {
    Whole,
    TypeBytes,
    Named(Name),
    After,
}

// The line of a type.
pub(crate) fn case_of(kind: u16) -> Option<Case>
    ensures { known result ≡ find types kind }
{
    match kind {
        0x0100 | 0x0101 => Some(Case::Entry),
        0x0102 | 0x0103 => Some(Case::Receipt),
        0x0104 => Some(Case::SignedHead),
        0x0105 => Some(Case::Consistency),
        0x0106 => Some(Case::Inclusion),
        0xF001 => Some(Case::Page),
        _ => None,
    }
}

// The fields of a line in their order.
pub(crate) fn names_of(case: Case) -> &'static [Name]
    ensures { result.now ≡ names_of case }
{
    match case {
        Case::Entry => &[
            Name::Timestamp,
            Name::IssuerKeyHash,
            Name::Certificate,
            Name::Extensions,
        ],
        Case::Receipt => &[
            Name::LogId,
            Name::Timestamp,
            Name::Extensions,
            Name::Signature,
        ],
        Case::SignedHead => &[
            Name::LogId,
            Name::Timestamp,
            Name::Size,
            Name::RootHash,
            Name::Extensions,
            Name::Signature,
        ],
        Case::Consistency => &[Name::LogId, Name::SizeOne, Name::SizeTwo, Name::Path],
        Case::Inclusion => &[Name::LogId, Name::Size, Name::Place, Name::Path],
        Case::Page => &[
            Name::Timestamp,
            Name::Agreement,
            Name::PageNumber,
            Name::Body,
        ],
    }
}

pub(crate) fn field_of(name: Name) -> Field
    ensures { result ≡ field_of name }
{
    match name {
        Name::Timestamp
        | Name::Size
        | Name::SizeOne
        | Name::SizeTwo
        | Name::Place
        | Name::Agreement => Field::Uint(Width::Eight),
        Name::PageNumber => Field::Uint(Width::Two),
        Name::LogId => Field::Vector {
            width: Width::One,
            least: 2,
            most: 127,
            inner: Inner::Opaque,
        },
        Name::IssuerKeyHash => Field::Vector {
            width: Width::One,
            least: 32,
            most: 32,
            inner: Inner::Opaque,
        },
        Name::Certificate => Field::Vector {
            width: Width::Three,
            least: 1,
            most: 16777215,
            inner: Inner::Opaque,
        },
        Name::RootHash => Field::Vector {
            width: Width::One,
            least: 32,
            most: 32,
            inner: Inner::Opaque,
        },
        Name::Extensions => Field::Vector {
            width: Width::Two,
            least: 0,
            most: 65535,
            inner: Inner::ExtensionList(Order::Ordered),
        },
        Name::Signature => Field::Vector {
            width: Width::Two,
            least: 1,
            most: 65535,
            inner: Inner::Opaque,
        },
        Name::Path => Field::Vector {
            width: Width::Two,
            least: 0,
            most: 65535,
            inner: Inner::NodeList,
        },
        Name::Body => Field::Vector {
            width: Width::Three,
            least: 1,
            most: 16777215,
            inner: Inner::Opaque,
        },
    }
}

// The fields of a line, as the reader takes them. Not set into the reader, where it would be written out once for each line.
#[inline(never)]
pub(crate) fn layout_of(case: Case) -> [Field; MOST_FIELDS]
    ensures { take (length (names_of case)) result ≡ layout_of case }
{
    let mut layout = [Field::Uint(Width::One); MOST_FIELDS];
    for (i, name) in names_of(case).iter().enumerate() {
        layout[i] = field_of(*name);
    }
    layout
}

// What was met behind so many fields that were found.
pub(crate) fn met_behind(case: Case, found: usize) -> Met
    ensures { result ≡ met_in case found }
{
    match names_of(case).get(found) {
        Some(name) => Met::Named(*name),
        None => Met::After,
    }
}
