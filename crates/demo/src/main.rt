// The demonstration: a channel of 1,024 dwords with a picture of its ring, and a firmware file with its parts.
#![tactic(auto)]

mod calls;
mod files;
mod order;
mod steps;
mod trouble;

use stage::Ctb;
use std::io;

// The scenes: one channel through all of its own, then the files.
fn main(rt: HostRuntime) -> io::Result<()> {
    foreword(&rt)?;
    let mut c = Ctb::unopened();
    order::fresh(&rt, &mut c)?;
    order::in_and_out(&rt, &mut c)?;
    order::around_the_end(&rt, &mut c)?;
    order::full(&rt, &mut c)?;
    trouble::torn(&rt, &mut c)?;
    trouble::malformed(&rt, &mut c)?;
    trouble::rewritten(&rt, &mut c)?;
    steps::stepwise(&rt, &mut c)?;
    files::images(&rt)?;
    files::directories(&rt)
}

// What a reader of the lines has to know.
fn foreword(rt: &impl Print) -> io::Result<()> {
    rt.print(
        "A host sends messages to the GuC through a ring of 1024 places, a dword in each.\n\
         A message has a number, its fence, and 2 to 256 dwords. HEAD is the next place\n\
         to read, TAIL the next to write. One place stays free: a full ring never looks\n\
         empty. In the picture a character is 16 places: # some are used, . all are\n\
         free; H marks the head, T the tail, X both. A refusal has its number in\n\
         docs/RULES.md. The library under this is proved to meet its contracts.\n",
    )
}
