// Walks a channel of 1,024 dwords through what it accepts and what it refuses, a few printed lines for each thing that
// happens.
#![tactic(auto)]

mod broken;
mod calls;
mod filling;
mod steps;
mod turned_away;
mod wording;

use std::io;

// The scenes, each on channels of its own.
fn main(rt: HostRuntime) -> io::Result<()> {
    foreword(&rt)?;
    filling::fresh_and_full(&rt)?;
    filling::around_the_end(&rt)?;
    broken::spoilt_descriptors(&rt)?;
    broken::cut_short(&rt)?;
    broken::passed_over(&rt)?;
    steps::interleaved(&rt)?;
    turned_away::turned_away(&rt)
}

// What a reader of the lines has to know.
fn foreword(rt: &impl Print) -> io::Result<()> {
    rt.print(
        "A sender stores messages in a ring of 1024 places, one dword in each; a\n\
         receiver takes them out in order.\n\
         A message has a number, its fence, and a length of 2 to 256 dwords.\n\
         HEAD is the next place to read, TAIL the next to write; after place 1023\n\
         comes place 0. One place stays free, so that a full ring never looks empty.\n\
         STATUS 0 is good, any other is broken.\n\
         A refused call leaves all as it was, but 7, 8 and 9 set STATUS, and 13 moves\n\
         HEAD past the message.\n",
    )
}
