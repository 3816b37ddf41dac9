// Heads joined in a buffer: of each the size in 8 bytes, the root in 32, the count of nodes in 2, and the nodes of its consistency path. Numbers
// are big-endian.
ghost use Rattle.std.specs.Prelude.{◌≡◌, ◌≤◌, ◌<◌, length};
ghost use Rattle.auditor.specs.Heads.{head_size, head_count, head_bytes};

use octets::{Width, number_at};

// The size of the first head.
pub(crate) fn size_of(s: &[u8]) -> u64
    requires { 42 ≤ length s.now }
    ensures { result ≡ head_size s.now }
{
    number_at(s, 0, Width::Eight)
}

// The count of nodes of the first head.
fn count_of(s: &[u8]) -> u64
    requires { 42 ≤ length s.now }
    ensures { (result ≡ head_count s.now) × (result < 65536) }
{
    number_at(s, 40, Width::Two)
}

// How many bytes the first head has, or 0 where it is cut short.
pub(crate) fn head_bytes(s: &[u8]) -> usize
    ensures { result ≡ head_bytes s.now }
{
    if s.len() < 42 {
        return 0;
    }
    let nodes = 32 * count_of(s) as usize;
    if s.len() - 42 < nodes {
        return 0;
    }
    42 + nodes
}
