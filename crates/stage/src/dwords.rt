// Dwords and bytes: one stored, the front and the back of them, and dwords that count up.
ghost use Rattle.std.specs.Prelude.{◌≡◌, length, take, drop, slice_set};
ghost use Rattle.stage.specs.Dwords.{counting, FrontOf};

// Stores a value at a place, where it lies among them.
pub fn put<T: Copy>(s: &mut [T], at: usize, v: T)
    ensures { s.new ≡ slice_set s.old at v }
{
    if at < s.len() {
        s[at] = v;
    }
}

// The first len, or all where there are fewer.
pub(crate) fn front<T>(s: &[T], len: usize) -> &[T]
    ensures { FrontOf s.entry (take len s.now) result }
{
    if len <= s.len() { &s[..len] } else { s }
}

// Those after the first count, none where there are fewer.
pub(crate) fn back<T>(s: &[T], count: usize) -> &[T]
    ensures { result.now ≡ drop count s.now }
{
    s.get(count..).unwrap_or(&[])
}

// Fills the dwords with numbers that count up from first.
pub(crate) fn count_up(s: &mut [u32], first: u32)
    ensures { s.new ≡ counting first (length s.old) }
{
    let mut next = first;
    for dword in s.iter_mut() {
        *dword = next;
        next = next.wrapping_add(1);
    }
}
