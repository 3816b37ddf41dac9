// A path that was read lies in its item as elements of 33 bytes; the verdicts take its hashes joined.
ghost use Rattle.std.specs.Prelude.{◌≡◌, ◌+◌, ◌*◌, ◌≤◌, length, drop};
ghost use Rattle.octets.specs.Bytes.{put as put_bytes};
ghost use Rattle.fields.specs.Checked.{checked};
ghost use Rattle.fields.specs.Write.{stripped};
ghost use Rattle.fields.specs.Path.{copy_path};

use crate::layout::{Inner, Part, RefusedAt, check_inside};
use crate::writing::hash_at;
use octets::put;
use octets::refusal::Refusal;

// The hashes of n elements that start at a place.
fn join_nodes(out: &mut [u8], s: &[u8], start: usize, n: usize)
    requires { (start + n * 33 ≤ length s.now) × (n * 32 ≤ length out.old) }
    ensures { out.new ≡ put_bytes out.old 0 (stripped n (drop start s.now)) }
{
    for k in 0..n {
        let h = hash_at(s, start + k * 33 + 1);
        put(out, k * 32, &h);
    }
}

// Copies a path's hashes, joined, to the start of a lent buffer. Any part may be given: one that does not lie in the bytes is cut short, one that does
// is refused at its first bad element as the reader would refuse it, and only then is the buffer's length asked.
pub fn path_into(s: &[u8], part: Part, out: &mut [u8]) -> Result<usize, RefusedAt>
    ensures { let e = copy_path s.now part out.old in
        (checked result ≡ e.answer) × (out.new ≡ e.bytes) }
{
    let start = part.start;
    let len = part.len;
    if s.len() < start || s.len() - start < len {
        return Err(RefusedAt {
            refusal: Refusal::CutShort,
            place: start,
        });
    }
    // Kept: a `match` where `?` would do, so that a wrong program can change what is passed on (edit `path_refuses_an_element_at_the_part`).
    match check_inside(s, start, start + len, Inner::NodeList) {
        Err(e) => return Err(e),
        Ok(()) => (),
    }
    let n = len / 33;
    if out.len() < n * 32 {
        return Err(RefusedAt {
            refusal: Refusal::NoRoom,
            place: 0,
        });
    }
    join_nodes(out, s, start, n);
    Ok(n * 32)
}
