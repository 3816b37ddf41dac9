// Reading all fields of a layout, left to right, and nothing after them.
ghost use Rattle.std.specs.Prelude.{◌≡◌, List, ◌≤◌, length, take};
ghost use Rattle.fields.specs.declared.layout.Field as declared;
ghost use Rattle.fields.specs.Layout.{read, parts_found};
ghost use Rattle.fields.specs.Answers.{layout_read, told_of};

use crate::layout::{Field, Part, read_field};
use octets::refusal::Refusal;

// The most fields that a layout has.
pub const MOST_FIELDS: usize = 8;

// Why a layout is refused, and where. `met` is how many fields were found: the field that the refusal met is the one behind these, and past the last field it
// is the bytes left over. Parts that were not found are zeros.
#[derive(Clone, Copy)]
pub struct LayoutRefused {
    pub refusal: Refusal,
    pub place: usize,
    pub met: usize,
    pub parts: [Part; MOST_FIELDS],
}

// How many of the most fields are meant by a count.
pub(crate) fn counted(count: usize) -> usize
    ensures { (result ≤ 8) × ((layout : List declared.Field) → length layout ≡ 8 → take count layout ≡ take result layout) }
{
    count.min(MOST_FIELDS)
}

// Kept: a count beside the array: one above the most is the most, and edits `count_ignored` and `layout_count_ignored` speak of it.
// Where the first `count` fields of a layout lie, in its order, from a place on; a count above the most is the most. Parts behind these are zeros. Set into
// its callers, each of which takes its parts out at once: as a function by itself it would copy them twice.
#[inline(always)]
pub fn read_layout(
    s: &[u8],
    at: usize,
    layout: [Field; MOST_FIELDS],
    count: usize,
) -> Result<[Part; MOST_FIELDS], LayoutRefused>
    ensures { let fields = take count layout in
        told_of (length fields) result ≡ layout_read (parts_found fields s.now at) (read fields s.now at) }
{
    let mut parts = [Part {
        start: 0,
        len: 0,
        value: 0,
    }; MOST_FIELDS];
    let n = counted(count);
    let mut here = at;
    for i in 0..n {
        match read_field(s, here, layout[i]) {
            Err(e) => {
                return Err(LayoutRefused {
                    refusal: e.refusal,
                    place: e.place,
                    met: i,
                    parts,
                });
            }
            Ok(p) => {
                parts[i] = p;
                here = p.start + p.len;
            }
        }
    }
    if here < s.len() {
        return Err(LayoutRefused {
            refusal: Refusal::BytesAfter,
            place: here,
            met: n,
            parts,
        });
    }
    Ok(parts)
}
