// The two parts of a list, RFC 9162, section 2.1.1.
ghost use Rattle.std.specs.Prelude.{◌≡◌, ◌+◌, ◌-◌, ◌≤◌, ◌<◌};
ghost use Rattle.tree.specs.Split.{split};

// The largest power of two smaller than n, or 1 where n has no two parts. No size is doubled: 2^63 is the largest answer.
pub fn split_of(n: u64) -> u64
    ensures { (result ≡ split n) × (0 < result) × (result ≤ 1 + (n - 2)) }
{
    if n <= 1 {
        return 1;
    }
    let zeros = u64::leading_zeros(n - 1);
    1u64 << (63 - zeros)
}
