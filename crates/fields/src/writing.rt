// Writing one field: what it takes or why it is refused, and its bytes put over a lent buffer.
ghost use Rattle.std.specs.Prelude.{◌≡◌, true, ◌+◌, ◌*◌, ◌/◌, ◌^◌, ◌<◌, ◌≤◌, length, take, drop};
ghost use Rattle.octets.specs.Bytes.{put as put_bytes, put_within};
ghost use Rattle.octets.specs.Numbers.{width_of};
ghost use Rattle.fields.specs.Checked.{checked};
ghost use Rattle.fields.specs.Layout.{inside};
ghost use Rattle.fields.specs.Write.{wrap, body_size, wholes, prefixed, vector_bytes, vector_filled, one_of_filled, fixed_filled, fill, laid, held};
ghost use Rattle.fields.specs.Effect.{takes};

use crate::layout::{Field, Inner, RefusedAt, check_inside, is_allowed};
use octets::refusal::Refusal;
use octets::{Width, put, put_number, width_of};

// The length of the body that a value of n bytes needs.
fn body_size(inner: Inner, n: usize) -> usize
    requires { n < 2 ^ 63 }
    ensures { (result ≡ body_size inner n) × (result < 2 ^ 63 + 2 ^ 60) }
{
    match inner {
        Inner::Opaque | Inner::ExtensionList(_) => n,
        Inner::NodeList => n.div_ceil(32) * 33,
    }
}

fn is_whole(inner: Inner, n: usize) -> bool
    ensures { result ≡ wholes inner n }
{
    match inner {
        Inner::Opaque | Inner::ExtensionList(_) => true,
        Inner::NodeList => n % 32 == 0,
    }
}

// The elements of a value's body, their places counted from its start. Hashes that are whole are always fine.
fn value_inside(v: &[u8], inner: Inner) -> Result<(), RefusedAt>
    requires { wholes inner (length v.now) ≡ true }
    ensures { checked result ≡ inside inner (wrap inner v.now) 0 }
{
    match inner {
        Inner::ExtensionList(_) => check_inside(v, 0, v.len(), inner),
        Inner::Opaque | Inner::NodeList => Ok(()),
    }
}

// How many bytes a field takes; or a refusal, its place counted from the field's start.
fn check_vector(
    v: &[u8],
    width: Width,
    least: usize,
    most: usize,
    inner: Inner,
) -> Result<usize, RefusedAt>
    ensures { checked result ≡ takes (vector_filled (width_of width) least most inner v.now 0) }
{
    let n = v.len();
    let m = body_size(inner, n);
    if m < least || most < m {
        return Err(RefusedAt {
            refusal: Refusal::Length,
            place: 0,
        });
    }
    let round = is_whole(inner, n);
    if !round {
        return Err(RefusedAt {
            refusal: Refusal::Joined,
            place: 0,
        });
    }
    let w = width_of(width);
    match value_inside(v, inner) {
        Err(e) => Err(RefusedAt {
            refusal: e.refusal,
            place: w + e.place,
        }),
        Ok(()) => Ok(w + m),
    }
}

fn check_one_of(n: u64, width: Width, least: u64, most: u64) -> Result<usize, RefusedAt>
    ensures { checked result ≡ takes (one_of_filled (width_of width) least most n 0) }
{
    if !is_allowed(n, least, most) {
        return Err(RefusedAt {
            refusal: Refusal::UnknownType,
            place: 0,
        });
    }
    Ok(width_of(width))
}

fn check_fixed(v: &[u8], n: usize) -> Result<usize, RefusedAt>
    ensures { checked result ≡ takes (fixed_filled n v.now 0) }
{
    if v.len() != n {
        return Err(RefusedAt {
            refusal: Refusal::Length,
            place: 0,
        });
    }
    Ok(n)
}

// What a field takes that is filled with a number or with some bytes, or why it is refused. The one that its kind has no use for is not looked at.
pub fn check_field(n: u64, v: &[u8], f: Field) -> Result<usize, RefusedAt>
    ensures { checked result ≡ takes (fill f (held f n v.now) 0) }
{
    match f {
        Field::Uint(width) => Ok(width_of(width)),
        Field::Vector {
            width,
            least,
            most,
            inner,
        } => check_vector(v, width, least, most, inner),
        Field::OneOf { width, least, most } => check_one_of(n, width, least, most),
        Field::Fixed(size) => check_fixed(v, size),
    }
}

// A hash of its own: two copies between places that cannot overlap are quicker than one between any two.
pub(crate) fn hash_at(v: &[u8], at: usize) -> [u8; 32]
    requires { at + 32 ≤ length v.now }
    ensures { result ≡ take 32 (drop at v.now) }
{
    let mut h = [0u8; 32];
    put(&mut h, 0, &v[at..at + 32]);
    h
}

// Joined hashes, each with its length in front; what is left of the last is passed over.
fn put_nodes(out: &mut [u8], at: usize, v: &[u8])
    requires { at + length v.now / 32 * 33 ≤ length out.old }
    ensures { out.new ≡ put_bytes out.old at (prefixed (length v.now / 32) v.now) }
{
    let n = v.len() / 32;
    for k in 0..n {
        let p = at + k * 33;
        out[p] = 32;
        let h = hash_at(v, k * 32);
        put(out, p + 1, &h);
    }
}

// The length of the body that a value of n bytes is laid out as.
fn wrapped_size(inner: Inner, n: usize) -> usize
    requires { n < 2 ^ 63 }
    ensures { ((v : _) → length v ≡ n → result ≡ length (wrap inner v)) × (result < 2 ^ 63 + 2 ^ 60) }
{
    match inner {
        Inner::Opaque | Inner::ExtensionList(_) => n,
        Inner::NodeList => n / 32 * 33,
    }
}

fn put_body(out: &mut [u8], at: usize, v: &[u8], inner: Inner)
    requires { at + length (wrap inner v.now) ≤ length out.old }
    ensures { out.new ≡ put_bytes out.old at (wrap inner v.now) }
{
    match inner {
        Inner::Opaque | Inner::ExtensionList(_) => put(out, at, v),
        Inner::NodeList => put_nodes(out, at, v),
    }
}

fn put_vector(out: &mut [u8], at: usize, v: &[u8], width: Width, inner: Inner) -> usize
    ensures value { result ≡ length (vector_bytes (width_of width) inner v.now) }
    ensures out_after { out.new ≡ put_within out.old at (vector_bytes (width_of width) inner v.now) }
{
    let m = wrapped_size(inner, v.len());
    let w = width_of(width);
    let left = out.len().saturating_sub(at);
    if left < w + m {
        return w + m;
    }
    put_number(out, at, width, m as u64);
    put_body(out, at + w, v, inner);
    w + m
}

// Puts a field, filled with a number or with some bytes, over a lent buffer from a place on, and answers how many bytes it is. Where these do not fit,
// nothing is written. A value that `check_field` refuses is laid out too: it is the caller who asks first.
pub fn put_field(out: &mut [u8], at: usize, f: Field, n: u64, v: &[u8]) -> usize
    ensures value { result ≡ length (laid f (held f n v.now)) }
    ensures out_after { out.new ≡ put_within out.old at (laid f (held f n v.now)) }
{
    match f {
        Field::Uint(width) => {
            put_number(out, at, width, n);
            width_of(width)
        }
        Field::Vector {
            width,
            least: _,
            most: _,
            inner,
        } => put_vector(out, at, v, width, inner),
        Field::OneOf {
            width,
            least: _,
            most: _,
        } => {
            put_number(out, at, width, n);
            width_of(width)
        }
        Field::Fixed(_) => {
            put(out, at, v);
            v.len()
        }
    }
}
