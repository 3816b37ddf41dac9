// Writing all fields of a layout: a first pass over them measures or refuses, a second one puts them.
ghost use Rattle.std.specs.Prelude.{◌≡◌, ◌≤◌, length, take};
ghost use Rattle.octets.specs.Bytes.{put};
ghost use Rattle.fields.specs.Checked.{checked};
ghost use Rattle.fields.specs.Write.{write as write_fields, behind, filled_by};
ghost use Rattle.fields.specs.Effect.{within, effect};
ghost use Rattle.fields.specs.Inner.{ends, reached, written, Good};

use crate::layout::{Field, RefusedAt};
use crate::reading::{MOST_FIELDS, counted};
use crate::writing::{check_field, put_field};
use octets::refusal::Refusal;

// No buffer is longer, and nothing past it has a place.
const LONGEST: usize = 9223372036854775807;

const NO_ROOM: RefusedAt = RefusedAt {
    refusal: Refusal::NoRoom,
    place: 0,
};

// The first pass: where the fields end, or their first refusal.
fn measure<'a>(
    layout: [Field; MOST_FIELDS],
    n: usize,
    numbers: [u64; MOST_FIELDS],
    values: [&'a [u8]; MOST_FIELDS],
) -> Result<usize, RefusedAt>
    requires { n ≤ 8 }
    ensures { checked result ≡ reached (ends 0 (write_fields (filled_by (take n layout) numbers (behind values.entry)) 0)) }
{
    let mut at: usize = 0;
    for i in 0..n {
        match check_field(numbers[i], values[i], layout[i]) {
            Err(e) => {
                if LONGEST - at < e.place {
                    return Err(NO_ROOM);
                }
                return Err(RefusedAt {
                    refusal: e.refusal,
                    place: at + e.place,
                });
            }
            Ok(m) => {
                if LONGEST - at < m {
                    return Err(NO_ROOM);
                }
                at += m;
            }
        }
    }
    Ok(at)
}

// The second pass.
fn put_all<'a>(
    out: &mut [u8],
    layout: [Field; MOST_FIELDS],
    n: usize,
    numbers: [u64; MOST_FIELDS],
    values: [&'a [u8]; MOST_FIELDS],
)
    requires { let w = write_fields (filled_by (take n layout) numbers (behind values)) 0 in
        (n ≤ 8) × Good w × (length (written w) ≤ length out.old) }
    ensures { out.new ≡ put out.old 0 (written (write_fields (filled_by (take n layout) numbers (behind values.entry)) 0)) }
{
    let mut at: usize = 0;
    for i in 0..n {
        let m = put_field(out, at, layout[i], numbers[i], values[i]);
        at += m;
    }
}

// Kept: a count, and a layout beside its numbers and values: the reader takes the same layout and count.
// Writes the first `count` fields of a layout to the start of a lent buffer; a count above the most is the most. Field i is filled with number i or with
// value i, and the one that its kind has no use for is not looked at. Its first bad field is refused where it would start, then 9 at 0.
pub fn write_layout<'a>(
    layout: [Field; MOST_FIELDS],
    count: usize,
    numbers: [u64; MOST_FIELDS],
    values: [&'a [u8]; MOST_FIELDS],
    out: &mut [u8],
) -> Result<usize, RefusedAt>
    ensures { let o = effect out.old (within (write_fields (filled_by (take count layout) numbers (behind values.entry)) 0)) in
        (checked result ≡ o.answer) × (out.new ≡ o.bytes) }
{
    let n = counted(count);
    let end = measure(layout, n, numbers, values)?;
    if out.len() < end {
        return Err(NO_ROOM);
    }
    put_all(out, layout, n, numbers, values);
    Ok(end)
}
