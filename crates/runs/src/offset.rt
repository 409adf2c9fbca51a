// Offsets of a ring, around its end.
ghost use Rattle.std.specs.Prelude.{◌≡◌, ◌<◌};
ghost use Rattle.runs.specs.Buffer.{past};

// N of the longest ring: 'from 1,024 to 16,384'
pub const N_MAX: usize = 16384;

// The offset k dwords past an own offset, around the end of a ring of n; 0 where there is no such ring.
pub fn past(own: usize, k: usize, n: usize) -> usize
    ensures { (result ≡ past n own k) × (result < 16384) }
{
    if N_MAX < n {
        return 0;
    }
    if n <= own {
        return 0;
    }
    if n < k {
        return 0;
    }
    let sum = own + k;
    if sum < n { sum } else { sum - n }
}
