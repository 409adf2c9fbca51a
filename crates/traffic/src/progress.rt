// How far a long file is read, on standard error: one line that is written over and goes at the end. Where it cannot be
// written, the file is read all the same.
use std::io::{Seek, SeekFrom};

const MIB: u64 = 1048576;

// How long an open file is, or 0 where it has no length of its own. It is read from its start.
pub(crate) fn size(file: &mut impl Seek) -> u64 {
    let end = file.seek(SeekFrom::End(0));
    let _ = file.seek(SeekFrom::Start(0));
    end.unwrap_or(0)
}

// Says how far it is, where another MiB is full since it was at `before`.
pub(crate) fn say_at(rt: &impl Eprint, before: u64, now: u64, size: u64) {
    if before / MIB == now / MIB {
        return;
    }
    let done = now / MIB;
    let all = size / MIB;
    let _ = if size == 0 {
        eprint!(rt; "\rtraffic: {done} MiB ")
    } else {
        eprint!(rt; "\rtraffic: {done} of {all} MiB ")
    };
}

// Takes the line away, where there is one.
pub(crate) fn take_away(rt: &impl Eprint, now: u64) {
    if MIB <= now {
        let _ = rt.eprint("\r                                                  \r");
    }
}
