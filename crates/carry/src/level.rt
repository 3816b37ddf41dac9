// One level of two proofs of one root.
ghost use Rattle.std.specs.Prelude.{◌≡◌};
ghost use Rattle.hash.specs.Digest.{node_hash};
ghost use Rattle.octets.specs.Bytes.{same};
ghost use Rattle.carry.specs.Strings.{string, alike, topmost};
ghost use Rattle.carry.specs.Inner.{difference_of};

use hash::{Algorithm, Digest};
use tree::nodes::equals;

// The roots that two proofs yield; and whether child pairs differ below them, with the topmost two that do: a, b and c, d.
#[derive(Clone, Copy)]
pub(crate) struct Recomputed {
    pub one: Digest,
    pub two: Digest,
    pub apart: bool,
    pub a: Digest,
    pub b: Digest,
    pub c: Digest,
    pub d: Digest,
}

// Nothing differs, and the roots are these.
pub(crate) fn start(one: Digest, two: Digest) -> Recomputed
    ensures bytes_value { (result.one.bytes ≡ one.bytes) × (result.two.bytes ≡ two.bytes) }
    ensures result_value { difference_of result ≡ alike }
{
    Recomputed {
        one,
        two,
        apart: false,
        a: one,
        b: one,
        c: two,
        d: two,
    }
}

// Whether two child pairs are the same.
fn pairs(a: Digest, b: Digest, c: Digest, d: Digest) -> bool
    ensures { result ≡ same (string a.bytes b.bytes) (string c.bytes d.bytes) }
{
    let x = c.bytes;
    if !equals(a, &x) {
        return false;
    }
    let y = d.bytes;
    equals(b, &y)
}

// One level up: two child pairs, and what was recomputed below them. Pairs that are the same are hashed once.
pub(crate) fn above(
    alg: Algorithm,
    a: Digest,
    b: Digest,
    c: Digest,
    d: Digest,
    below: Recomputed,
) -> Recomputed
    ensures bytes_value { (result.one.bytes ≡ node_hash alg a.bytes b.bytes) × (result.two.bytes ≡ node_hash alg c.bytes d.bytes) }
    ensures result_value { difference_of result ≡ topmost (string a.bytes b.bytes) (string c.bytes d.bytes) (difference_of below) }
{
    let root = hash::node(alg, a, b);
    if pairs(a, b, c, d) {
        let w = below.a;
        let x = below.b;
        let y = below.c;
        let z = below.d;
        return Recomputed {
            one: root,
            two: root,
            apart: below.apart,
            a: w,
            b: x,
            c: y,
            d: z,
        };
    }
    Recomputed {
        one: root,
        two: hash::node(alg, c, d),
        apart: true,
        a,
        b,
        c,
        d,
    }
}
