// Walks a wall of players through requests and their replies, a printed line for each thing that happens.
#![tactic(auto)]

mod calls;
mod scenes;
mod site;

use std::io;

fn main(rt: HostRuntime) -> io::Result<()> {
    foreword(&rt)?;
    scenes::out_of_order(&rt)?;
    scenes::busy_and_retry(&rt)?;
    scenes::left_behind(&rt)?;
    scenes::around_the_end(&rt)?;
    scenes::want_of_room(&rt)?;
    scenes::spoilt(&rt)?;
    scenes::turned_away(&rt)
}

// What a reader of the lines has to know.
fn foreword(rt: &impl Print) -> io::Result<()> {
    rt.print(
        "Six players send requests through a ring, and the replies come back in any order.\n\
         Each request goes out with a number of its own, its fence, and has a record in a\n\
         table of six; a reply carries the fence of its request. Success, failure and\n\
         retry close a request, busy does not: the answer will come later. For each request\n\
         so many dwords of the reply buffer are set aside as its replies may take; that\n\
         buffer has 1024 dwords, and one of them stays free.\n\
         A refused call leaves all as it was.\n",
    )
}
