// Writing a whole item: a first pass over its fields measures or refuses, a second one puts them.
ghost use Rattle.std.specs.Prelude.{◌≡◌, ◌+◌, ◌≤◌, length};
ghost use Rattle.octets.specs.Bytes.{put};
ghost use Rattle.fields.specs.Checked.{checked};
ghost use Rattle.fields.specs.Write.{write as write_fields};
ghost use Rattle.fields.specs.Inner.{ends, written, Good};
ghost use Rattle.item.specs.Table.{names_of};
ghost use Rattle.item.specs.Item.{lent, filled, write_item};
ghost use Rattle.item.specs.Steps.{number_by, bytes_by};

use crate::table::{Case, Name, case_of, field_of, names_of};
use fields::layout::RefusedAt;
use fields::writing::{check_field, put_field};
use octets::refusal::Refusal;
use octets::{Width, put_number};

// Every number that some item has.
#[derive(Clone, Copy)]
pub struct Numbers {
    pub timestamp: u64,
    pub size: u64,
    pub size_one: u64,
    pub size_two: u64,
    pub place: u64,
    pub agreement: u64,
    pub page: u16,
}

// The bytes of every vector that some item has: extensions are their encoded elements, a path its joined hashes.
#[derive(Clone, Copy)]
pub struct Vectors<'a> {
    pub log_id: &'a [u8],
    pub issuer_key_hash: &'a [u8],
    pub certificate: &'a [u8],
    pub root_hash: &'a [u8],
    pub extensions: &'a [u8],
    pub signature: &'a [u8],
    pub path: &'a [u8],
    pub body: &'a [u8],
}

// What is handed back for a vector's name is not looked at.
fn number_of(name: Name, numbers: Numbers) -> u64
    ensures { result ≡ number_by numbers name }
{
    match name {
        Name::Timestamp => numbers.timestamp,
        Name::Size => numbers.size,
        Name::SizeOne => numbers.size_one,
        Name::SizeTwo => numbers.size_two,
        Name::Place => numbers.place,
        Name::Agreement => numbers.agreement,
        Name::PageNumber => numbers.page as u64,
        Name::LogId
        | Name::IssuerKeyHash
        | Name::Certificate
        | Name::RootHash
        | Name::Extensions
        | Name::Signature
        | Name::Path
        | Name::Body => 0,
    }
}

// What is handed back for a number's name is not looked at.
fn bytes_of<'a>(name: Name, vectors: Vectors<'a>) -> &'a [u8]
    ensures { result.now ≡ bytes_by (lent vectors.entry) name }
{
    match name {
        Name::IssuerKeyHash => vectors.issuer_key_hash,
        Name::Certificate => vectors.certificate,
        Name::RootHash => vectors.root_hash,
        Name::Extensions => vectors.extensions,
        Name::Signature => vectors.signature,
        Name::Path => vectors.path,
        Name::Body => vectors.body,
        Name::LogId
        | Name::Timestamp
        | Name::Size
        | Name::SizeOne
        | Name::SizeTwo
        | Name::Place
        | Name::Agreement
        | Name::PageNumber => vectors.log_id,
    }
}

// Kept: two walks of its own beside those of `fields::laying`: places start behind the type, and edit `writer_skips_a_field` speaks of them.
// The first pass: where the item ends, or its first refusal. No number of an item is judged, so none is looked at.
fn measure<'a>(case: Case, vectors: Vectors<'a>) -> Result<usize, RefusedAt>
    ensures { (n : Numbers) → checked result ≡ ends 2 (write_fields (filled n (lent vectors.entry) (names_of case)) 2) }
{
    let mut at: usize = 2;
    let names = names_of(case);
    for name in names {
        match check_field(0, bytes_of(*name, vectors), field_of(*name)) {
            Err(e) => {
                return Err(RefusedAt {
                    refusal: e.refusal,
                    place: at + e.place,
                });
            }
            Ok(m) => at += m,
        }
    }
    Ok(at)
}

// The second pass: the fields, after the two bytes of the type.
fn put_all<'a>(out: &mut [u8], case: Case, numbers: Numbers, vectors: Vectors<'a>)
    requires { let w = write_fields (filled numbers (lent vectors) (names_of case)) 2 in
        Good w × (2 + length (written w) ≤ length out.old) }
    ensures { out.new ≡ put out.old 2 (written (write_fields (filled numbers (lent vectors.entry) (names_of case)) 2)) }
{
    let mut at: usize = 2;
    let names = names_of(case);
    for name in names {
        let f = field_of(*name);
        let x = number_of(*name, numbers);
        let v = bytes_of(*name, vectors);
        let m = put_field(out, at, f, x, v);
        at += m;
    }
}

// Writes an item of a type. A field that the type lacks is not looked at.
pub fn write<'a>(
    kind: u16,
    numbers: Numbers,
    vectors: Vectors<'a>,
    out: &mut [u8],
) -> Result<usize, RefusedAt>
    ensures { let e = write_item kind numbers (lent vectors.entry) out.old in
        (checked result ≡ e.answer) × (out.new ≡ e.bytes) }
{
    let Some(case) = case_of(kind) else {
        return Err(RefusedAt {
            refusal: Refusal::UnknownType,
            place: 0,
        });
    };
    let end = measure(case, vectors)?;
    if out.len() < end {
        return Err(RefusedAt {
            refusal: Refusal::NoRoom,
            place: 0,
        });
    }
    put_number(out, 0, Width::Two, kind as u64);
    put_all(out, case, numbers, vectors);
    Ok(end)
}
