// Reading a whole item: 1 first, then left to right.
ghost use Rattle.std.specs.Prelude.{◌≡◌, Ok, length, take};
ghost use Rattle.fields.specs.Checked.{then};
ghost use Rattle.fields.specs.Layout.{read as read_layout, parts_found};
ghost use Rattle.item.specs.Table.{names_of, layout_of, met_in};
ghost use Rattle.item.specs.Item.{item, reading, read_item, Meets, met_by};

use crate::table::{Case, Met, case_of, layout_of, met_behind, names_of};
use fields::layout::Part;
use fields::reading::{MOST_FIELDS, read_layout};
use octets::limits::MOST_ITEM;
use octets::refusal::Refusal;
use octets::{Width, number_at};

// Where the fields of an item lie, each by its name, with its type.
#[derive(Clone, Copy)]
pub enum Item {
    Entry {
        kind: u16,
        timestamp: Part,
        issuer_key_hash: Part,
        certificate: Part,
        extensions: Part,
    },
    Receipt {
        kind: u16,
        log_id: Part,
        timestamp: Part,
        extensions: Part,
        signature: Part,
    },
    SignedHead {
        kind: u16,
        log_id: Part,
        timestamp: Part,
        size: Part,
        root_hash: Part,
        extensions: Part,
        signature: Part,
    },
    Consistency {
        kind: u16,
        log_id: Part,
        size_one: Part,
        size_two: Part,
        path: Part,
    },
    Inclusion {
        kind: u16,
        log_id: Part,
        size: Part,
        place: Part,
        path: Part,
    },
    Page {
        kind: u16,
        timestamp: Part,
        agreement: Part,
        page: Part,
        body: Part,
    },
}

// Why an item is refused, where, and what the refusal met.
#[derive(Clone, Copy, PartialEq, Eq)]
pub struct ItemRefused {
    pub refusal: Refusal,
    pub place: usize,
    pub met: Met,
}

// The parts of a case by their names.
fn named(case: Case, kind: u16, parts: [Part; MOST_FIELDS]) -> Item
    ensures { reading (Ok result) ≡ item case kind (take (length (names_of case)) parts) }
{
    match case {
        Case::Entry => Item::Entry {
            kind,
            timestamp: parts[0],
            issuer_key_hash: parts[1],
            certificate: parts[2],
            extensions: parts[3],
        },
        Case::Receipt => Item::Receipt {
            kind,
            log_id: parts[0],
            timestamp: parts[1],
            extensions: parts[2],
            signature: parts[3],
        },
        Case::SignedHead => Item::SignedHead {
            kind,
            log_id: parts[0],
            timestamp: parts[1],
            size: parts[2],
            root_hash: parts[3],
            extensions: parts[4],
            signature: parts[5],
        },
        Case::Consistency => Item::Consistency {
            kind,
            log_id: parts[0],
            size_one: parts[1],
            size_two: parts[2],
            path: parts[3],
        },
        Case::Inclusion => Item::Inclusion {
            kind,
            log_id: parts[0],
            size: parts[1],
            place: parts[2],
            path: parts[3],
        },
        Case::Page => Item::Page {
            kind,
            timestamp: parts[0],
            agreement: parts[1],
            page: parts[2],
            body: parts[3],
        },
    }
}

// The fields of a case, after the two bytes of the type, and nothing after them.
fn read_fields(s: &[u8], kind: u16, case: Case) -> Result<Item, ItemRefused>
    ensures { (reading result ≡ then (read_layout (layout_of case) s.now 2) (item case kind))
        × Meets result (met_in case (length (parts_found (layout_of case) s.now 2))) }
{
    let layout = layout_of(case);
    let n = names_of(case).len();
    match read_layout(s, 2, layout, n) {
        Err(e) => Err(ItemRefused {
            refusal: e.refusal,
            place: e.place,
            met: met_behind(case, e.met),
        }),
        Ok(parts) => Ok(named(case, kind, parts)),
    }
}

// Where each field of an item lies.
pub fn read(s: &[u8]) -> Result<Item, ItemRefused>
    ensures { (reading result ≡ read_item s.now) × Meets result (met_by s.now) }
{
    if MOST_ITEM < s.len() {
        return Err(ItemRefused {
            refusal: Refusal::TooLong,
            place: 0,
            met: Met::Whole,
        });
    }
    if s.len() < 2 {
        return Err(ItemRefused {
            refusal: Refusal::CutShort,
            place: 0,
            met: Met::TypeBytes,
        });
    }
    let kind = number_at(s, 0, Width::Two) as u16;
    let Some(case) = case_of(kind) else {
        return Err(ItemRefused {
            refusal: Refusal::UnknownType,
            place: 0,
            met: Met::TypeBytes,
        });
    };
    read_fields(s, kind, case)
}
