// What lent slices need beside the library's methods: a straight copy, of elements of any type.
#![tactic(auto)]

ghost use Rattle.std.specs.Prelude.{◌≡◌};
ghost use Rattle.slices.specs.Copied.{copied};

// Copies src to the front of dst, or nothing where it does not fit. Not std's copy_from_slice: that one asks which of the
// two lies first, which makes numbers of the pointers and calls memmove, and the archives that are made of these crates
// look at no pointer and ask for memcpy and memset alone (archive/build, archive/check).
pub fn copy<T: Copy>(dst: &mut [T], src: &[T])
    ensures { dst.new ≡ copied src.now dst.old }
{
    if dst.len() < src.len() {
        return;
    }
    for (i, from) in src.iter().enumerate() {
        dst[i] = *from;
    }
}
