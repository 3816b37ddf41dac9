// The bytes of a record: copying them and comparing them.
ghost use Rattle.std.specs.Prelude.{◌≡◌, not, ◌&&◌, eqb, ◌≤◌, length, replicate};
ghost use Rattle.octets.specs.Bytes.{over, same};
ghost use Rattle.auditor.specs.Held.{id_of};

use crate::Record;

pub(crate) fn no_id() -> [u8; 127]
    ensures { result ≡ replicate 127 0 }
{
    [0; 127]
}

pub(crate) fn no_root() -> [u8; 32]
    ensures { result ≡ replicate 32 0 }
{
    [0; 32]
}

// Copies a slice to the start of a buffer.
pub(crate) fn copy(s: &[u8], out: &mut [u8])
    requires { length s.now ≤ length out.old }
    ensures { out.new ≡ over s.now out.old }
{
    octets::put(out, 0, s);
}

// A log id, with zeros after it.
pub(crate) fn id_of(s: &[u8]) -> [u8; 127]
    requires { length s.now ≤ 127 }
    ensures { result ≡ over s.now (replicate 127 0) }
{
    let mut a = no_id();
    copy(s, &mut a);
    a
}

// A root by value.
pub(crate) fn root_of(s: &[u8]) -> [u8; 32]
    requires { length s.now ≡ 32 }
    ensures { result ≡ s.now }
{
    let mut a = no_root();
    copy(s, &mut a);
    a
}

// Whether a record's log id is this one.
pub(crate) fn same_log<'a>(r: Record, id: &'a [u8]) -> bool
    ensures { result ≡ same (id_of r) id.now }
{
    let n = r.idlen;
    let own = r.id;
    if 127 < n {
        return octets::same(&own, id);
    }
    octets::same(&own[..n], id)
}

// Whether a size is the record's, and the root another.
pub(crate) fn other_root<'a>(r: Record, size: u64, root: &'a [u8]) -> bool
    ensures { result ≡ (eqb size r.size && not (same root.now r.root)) }
{
    let own = r.root;
    if size != r.size {
        return false;
    }
    !octets::same(root, &own)
}
