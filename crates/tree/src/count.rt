// How many nodes a path has, PATH and SUBPROOF of RFC 9162, sections 2.1.3.1 and 2.1.4.1: from the binary digits of the numbers alone.
ghost use Rattle.std.specs.Prelude.{◌≡◌, cond, ◌≤◌};
ghost use Rattle.tree.specs.Count.{inclusion_count, subproof_count};

// Of the inclusion path of a place. The last place, and any past it, has one for each one-bit of the last. Any other differs from the last at a highest digit,
// which is 0 in it: one for that level, one for each below, and one for each one-bit above. Counted from that digit on: a shift past it could be by 64.
pub fn inclusion_count(place: u64, size: u64) -> usize
    ensures { result ≡ inclusion_count place size }
{
    if size == 0 {
        return 0;
    }
    let last = size - 1;
    if last <= place {
        return u64::count_ones(last) as usize;
    }
    let levels = 64 - u64::leading_zeros(place ^ last);
    (levels + u64::count_ones(place >> (levels - 1))) as usize
}

// The root of the last part: a node where it is not known.
fn last_root(known: bool) -> usize
    ensures { (result ≡ cond known 0 1) × (result ≤ 1) }
{
    if known {
        return 0;
    }
    1
}

// Of the consistency path from a first size to a second: the way to the last leaf of the first, without the levels of the full part that ends there, and that
// part's root. It can be known only where it is all of the first: a power of two. A first size of 0 counts as 1, one past the second as its last place.
pub fn subproof_count(first: u64, second: u64, known: bool) -> usize
    ensures { result ≡ subproof_count first second known }
{
    if first == second {
        return last_root(known);
    }
    if second <= 1 {
        return last_root(known);
    }
    if first == 0 {
        return inclusion_count(0, second) + last_root(known);
    }
    if second < first {
        return inclusion_count(first, second) + 1;
    }
    let way = inclusion_count(first - 1, second) - (u64::trailing_zeros(first) as usize);
    if u64::count_ones(first) == 1 {
        return way + last_root(known);
    }
    way + 1
}
