// Writing a whole structure: its name first, then left to right, then the room.
ghost use Rattle.std.specs.Prelude.{◌≡◌};
ghost use Rattle.fields.specs.Checked.{checked};
ghost use Rattle.fields.specs.Write.{write as write_fields};
ghost use Rattle.fields.specs.Effect.{effect};
ghost use Rattle.first.specs.First.{lent, filled, write_first};

use crate::table::{Line, count_of, layout_of, line_of};
use fields::laying::write_layout;
use fields::layout::RefusedAt;
use octets::refusal::Refusal;

// Every number that some structure has, but for version, leaf type and signature type, which have one value each.
#[derive(Clone, Copy)]
pub struct Numbers {
    pub timestamp: u64,
    pub size: u64,
    pub entry_type: u16,
    pub algorithms: u16,
}

// The bytes of every field that is no number; `certificate` is the certificate, or the TBS certificate of a precertificate.
#[derive(Clone, Copy)]
pub struct Vectors<'a> {
    pub log_id: &'a [u8],
    pub issuer_key_hash: &'a [u8],
    pub certificate: &'a [u8],
    pub extensions: &'a [u8],
    pub signature: &'a [u8],
    pub root_hash: &'a [u8],
}

// The fields of a line. What stands at the place of a number, or behind the last field, is not looked at.
fn write_line<'a>(
    line: Line,
    numbers: Numbers,
    vectors: Vectors<'a>,
    out: &mut [u8],
) -> Result<usize, RefusedAt>
    ensures { let o = effect out.old (write_fields (filled numbers (lent vectors.entry) line) 0) in
        (checked result ≡ o.answer) × (out.new ≡ o.bytes) }
{
    let layout = layout_of(line);
    let n = count_of(line);
    let time = numbers.timestamp;
    let entry = numbers.entry_type as u64;
    let any = vectors.log_id;
    match line {
        Line::X509Entry => write_layout(
            layout,
            n,
            [0, 0, time, entry, 0, 0, 0, 0],
            [
                any,
                any,
                any,
                any,
                vectors.certificate,
                vectors.extensions,
                any,
                any,
            ],
            out,
        ),
        Line::PrecertEntry => write_layout(
            layout,
            n,
            [0, 0, time, entry, 0, 0, 0, 0],
            [
                any,
                any,
                any,
                any,
                vectors.issuer_key_hash,
                vectors.certificate,
                vectors.extensions,
                any,
            ],
            out,
        ),
        Line::CertificateTimestamp => write_layout(
            layout,
            n,
            [0, 0, time, 0, numbers.algorithms as u64, 0, 0, 0],
            [
                any,
                vectors.log_id,
                any,
                vectors.extensions,
                any,
                vectors.signature,
                any,
                any,
            ],
            out,
        ),
        Line::TreeHead => write_layout(
            layout,
            n,
            [0, 1, time, numbers.size, 0, 0, 0, 0],
            [any, any, any, any, vectors.root_hash, any, any, any],
            out,
        ),
    }
}

// Writes the named structure; a leaf's line goes by the entry type. A field that the structure lacks is not looked at.
pub fn write<'a>(
    edition: u16,
    which: u16,
    numbers: Numbers,
    vectors: Vectors<'a>,
    out: &mut [u8],
) -> Result<usize, RefusedAt>
    ensures { let o = write_first edition which numbers (lent vectors.entry) out.old in
        (checked result ≡ o.answer) × (out.new ≡ o.bytes) }
{
    let Some(line) = line_of(edition, which, numbers.entry_type) else {
        return Err(RefusedAt {
            refusal: Refusal::UnknownType,
            place: 0,
        });
    };
    write_line(line, numbers, vectors, out)
}
