// A name that more than one entry of a directory has: which entries they are, and what to ask the supplier.
use std::io;

// At most so many are named; of more it is said how many there are.
const NAMED_MOST: usize = 8;

// The entries of a directory that have the name. Each is asked once; a count of entries does not wrap.
pub(crate) fn shared(rt: &impl Print, blob: &[u8], count: usize, name: &[u8]) -> io::Result<()> {
    let mut sharers = 0_usize;
    print!(rt; "    entries")?;
    for i in 0..count {
        if !firmware::cpd_has_name(blob, i, name) {
            continue;
        }
        if sharers < NAMED_MOST {
            print!(rt; " {i}")?;
        }
        sharers = sharers.wrapping_add(1);
    }
    println!(rt;
        " have it, {sharers} in all, and none is used: ask the supplier for a file with one"
    )
}
