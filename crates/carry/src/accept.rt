// When both verdicts accept, in two steps: the lengths and numbers, and then the roots that a walk finds, which are not computed twice.
ghost use Rattle.std.specs.Prelude.{◌≡◌, true};
ghost use Rattle.carry.specs.Inner.{Fit, Agree};

use hash::Digest;
use tree::count::{inclusion_count, subproof_count};
use tree::nodes::equals;

// Whether neither verdict refuses with 5, 10, 6 or 7.
pub(crate) fn fits(
    leaf: usize,
    place: u64,
    m: u64,
    n: u64,
    old: usize,
    new: usize,
    path: usize,
    proof: usize,
) -> bool
    ensures { let F = Fit leaf place m n old new path proof in
        (result ≡ true → F) × (F → result ≡ true) }
{
    if leaf != 32 {
        return false;
    }
    if old != 32 {
        return false;
    }
    if new != 32 {
        return false;
    }
    if path % 32 != 0 {
        return false;
    }
    if proof % 32 != 0 {
        return false;
    }
    if m <= place {
        return false;
    }
    if n < m {
        return false;
    }
    if path / 32 != inclusion_count(place, m) {
        return false;
    }
    proof / 32 == subproof_count(m, n, true)
}

// Whether the roots agree: the old root by the inclusion proof, and both roots by the consistency path.
pub(crate) fn agree(one: Digest, two: Digest, whole: Digest, old: &[u8], new: &[u8]) -> bool
    ensures { let A = Agree one.bytes two.bytes whole.bytes old.now new.now in
        (result ≡ true → A) × (A → result ≡ true) }
{
    if !equals(one, old) {
        return false;
    }
    if !equals(two, old) {
        return false;
    }
    equals(whole, new)
}
