// The kinds of field that a layout is made of, and the reading of one field.
ghost use Rattle.std.specs.Prelude.{◌≡◌, ◌<◌, ◌≤◌, length, drop};
ghost use Rattle.octets.specs.Numbers.{width_of};
ghost use Rattle.octets.specs.Refusals.{answered};
ghost use Rattle.fields.specs.Checked.{checked};
ghost use Rattle.fields.specs.Layout.{out_of_order, element, inside, number_at, vector_at, allowed, one_of_at, fixed_at, field};
ghost use Rattle.fields.specs.Inner.{part};

use octets::refusal::Refusal;
use octets::{Width, number_at, width_of};

// Where a field lies, past its length prefix if it has one, and the number read there: a number's value, a vector's length, that of fixed bytes.
#[derive(Clone, Copy)]
pub struct Part {
    pub start: usize,
    pub len: usize,
    pub value: u64,
}

// Whether a list's types must ascend (RFC 9162, section 4.8), or may stand in any order.
#[derive(Clone, Copy)]
pub enum Order {
    Ordered,
    Unordered,
}

// What a vector holds: bytes of no further form, extensions (RFC 9162, section 4.6), or node hashes (section 4.9).
#[derive(Clone, Copy)]
pub enum Inner {
    Opaque,
    ExtensionList(Order),
    NodeList,
}

// A kind of field: a number of so many bytes; a vector with so wide a prefix and a range for its length; a number that must be one of few, which stand in a
// row; bytes of a fixed length, with no prefix.
#[derive(Clone, Copy)]
pub enum Field {
    Uint(Width),
    Vector {
        width: Width,
        least: usize,
        most: usize,
        inner: Inner,
    },
    OneOf {
        width: Width,
        least: u64,
        most: u64,
    },
    Fixed(usize),
}

// Why something is refused, and where.
#[derive(Clone, Copy, PartialEq, Eq)]
pub struct RefusedAt {
    pub refusal: Refusal,
    pub place: usize,
}

// The first element of a body: its size, and what the next element must know of it.
#[derive(Clone, Copy)]
pub struct Element {
    pub len: usize,
    pub next: usize,
}

// `last` is one more than the type before, 0 at the first.
fn is_out_of_order(order: Order, last: usize, kind: usize) -> bool
    ensures { result ≡ out_of_order order last kind }
{
    match order {
        Order::Ordered => kind < last,
        Order::Unordered => false,
    }
}

fn first_extension(
    s: &[u8],
    at: usize,
    end: usize,
    order: Order,
    last: usize,
) -> Result<Element, Refusal>
    requires { (at < end) × (end ≤ length s.now) }
    ensures { answered result ≡ element (Inner.ExtensionList order) last (part s.now at end) }
{
    let room = end - at;
    if room < 4 {
        return Err(Refusal::CutShort);
    }
    let n = number_at(s, at + 2, Width::Two) as usize;
    if room - 4 < n {
        return Err(Refusal::CutShort);
    }
    let kind = number_at(s, at, Width::Two) as usize;
    let wrong = is_out_of_order(order, last, kind);
    if wrong {
        return Err(Refusal::OutOfOrder);
    }
    let len = 4 + n;
    let next = kind + 1;
    Ok(Element { len, next })
}

fn first_node(s: &[u8], at: usize, end: usize) -> Result<Element, Refusal>
    requires { (at < end) × (end ≤ length s.now) }
    ensures { answered result ≡ element Inner.NodeList 0 (part s.now at end) }
{
    if s[at] != 32 {
        return Err(Refusal::Length);
    }
    if end - at < 33 {
        return Err(Refusal::CutShort);
    }
    Ok(Element { len: 33, next: 0 })
}

fn first_element(
    s: &[u8],
    at: usize,
    end: usize,
    inner: Inner,
    last: usize,
) -> Result<Element, Refusal>
    requires { (at < end) × (end ≤ length s.now) }
    ensures { answered result ≡ element inner last (part s.now at end) }
{
    match inner {
        Inner::Opaque => Ok(Element {
            len: end - at,
            next: 0,
        }),
        Inner::ExtensionList(order) => first_extension(s, at, end, order, last),
        Inner::NodeList => first_node(s, at, end),
    }
}

// The elements of a body.
pub(crate) fn check_inside(
    s: &[u8],
    start: usize,
    end: usize,
    inner: Inner,
) -> Result<(), RefusedAt>
    requires { (start ≤ end) × (end ≤ length s.now) }
    ensures { checked result ≡ inside inner (part s.now start end) start }
{
    let mut at = start;
    let mut last: usize = 0;
    while at < end {
        match first_element(s, at, end, inner, last) {
            Err(refusal) => return Err(RefusedAt { refusal, place: at }),
            Ok(e) => {
                at += e.len;
                last = e.next;
            }
        }
    }
    Ok(())
}

fn read_vector(
    s: &[u8],
    at: usize,
    width: Width,
    least: usize,
    most: usize,
    inner: Inner,
) -> Result<Part, RefusedAt>
    ensures { checked result ≡ vector_at (width_of width) least most inner (drop at s.now) at }
{
    let left = s.len().saturating_sub(at);
    let w = width_of(width);
    if left < w {
        return Err(RefusedAt {
            refusal: Refusal::CutShort,
            place: at,
        });
    }
    let value = number_at(s, at, width);
    let n = value as usize;
    if n < least || most < n {
        return Err(RefusedAt {
            refusal: Refusal::Length,
            place: at,
        });
    }
    let start = at + w;
    if left - w < n {
        return Err(RefusedAt {
            refusal: Refusal::CutShort,
            place: at,
        });
    }
    // Kept: a `match` where `?` would do, so that a wrong program can change what is passed on (edits `element_refused_at_the_vector`, `15_at_the_field`).
    match check_inside(s, start, start + n, inner) {
        Err(e) => Err(e),
        Ok(()) => Ok(Part {
            start,
            len: n,
            value,
        }),
    }
}

fn read_uint(s: &[u8], at: usize, width: Width) -> Result<Part, RefusedAt>
    ensures { checked result ≡ number_at (width_of width) (drop at s.now) at }
{
    let left = s.len().saturating_sub(at);
    let w = width_of(width);
    if left < w {
        return Err(RefusedAt {
            refusal: Refusal::CutShort,
            place: at,
        });
    }
    let value = number_at(s, at, width);
    Ok(Part {
        start: at,
        len: w,
        value,
    })
}

// Whether a number is one of the few from `least` to `most`.
pub(crate) fn is_allowed(n: u64, least: u64, most: u64) -> bool
    ensures { result ≡ allowed least most n }
{
    least <= n && n <= most
}

fn read_one_of(s: &[u8], at: usize, width: Width, least: u64, most: u64) -> Result<Part, RefusedAt>
    ensures { checked result ≡ one_of_at (width_of width) least most (drop at s.now) at }
{
    // Kept: a `match` where `?` would do, as above (edit `cut_number_is_4`).
    let p = match read_uint(s, at, width) {
        Err(e) => return Err(e),
        Ok(p) => p,
    };
    if !is_allowed(p.value, least, most) {
        return Err(RefusedAt {
            refusal: Refusal::UnknownType,
            place: p.start,
        });
    }
    Ok(p)
}

fn read_fixed(s: &[u8], at: usize, n: usize) -> Result<Part, RefusedAt>
    ensures { checked result ≡ fixed_at n (drop at s.now) at }
{
    if s.len().saturating_sub(at) < n {
        return Err(RefusedAt {
            refusal: Refusal::CutShort,
            place: at,
        });
    }
    Ok(Part {
        start: at,
        len: n,
        value: n as u64,
    })
}

// The field that starts at a place. Past the end of the bytes every field is cut short.
pub fn read_field(s: &[u8], at: usize, f: Field) -> Result<Part, RefusedAt>
    ensures { checked result ≡ field f (drop at s.now) at }
{
    match f {
        Field::Uint(width) => read_uint(s, at, width),
        Field::Vector {
            width,
            least,
            most,
            inner,
        } => read_vector(s, at, width, least, most, inner),
        Field::OneOf { width, least, most } => read_one_of(s, at, width, least, most),
        Field::Fixed(n) => read_fixed(s, at, n),
    }
}
