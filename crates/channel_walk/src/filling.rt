// A fresh ring filled until nothing is free, and a message that goes around the ring's end.
use crate::calls;
use stage::Ctb;
use std::io;

// Three messages of 256 dwords, one that is too long then, one that just fits; all four that went in come out.
pub(crate) fn fresh_and_full(rt: &impl Print) -> io::Result<()> {
    println!(rt; "\nA fresh ring, filled until nothing is free, and emptied")?;
    let mut c = calls::open(rt)?;
    for fence in 1..=4 {
        calls::send(rt, &mut c, fence, 255)?;
    }
    calls::send(rt, &mut c, 5, 254)?;
    for fence in 1..=3 {
        calls::receive(rt, &mut c, fence, 255)?;
    }
    calls::receive(rt, &mut c, 5, 254)
}

// Four messages of 255 dwords bring both offsets to 1,020; the next, of 8, lies on both sides of the ring's end.
pub(crate) fn around_the_end(rt: &impl Print) -> io::Result<()> {
    println!(rt; "\nA message that goes around the end of the ring")?;
    let mut c = calls::open(rt)?;
    for fence in 6..=9 {
        through(rt, &mut c, fence)?;
    }
    calls::send_look(rt, &mut c, 10, 7)?;
    for _ in 0..8 {
        calls::send_store(rt, &mut c)?;
    }
    calls::send_publish(rt, &mut c)?;
    calls::receive(rt, &mut c, 10, 7)
}

// A message of 255 dwords, sent and received.
fn through(rt: &impl Print, c: &mut Ctb, fence: u32) -> io::Result<()> {
    calls::send(rt, c, fence, 254)?;
    calls::receive(rt, c, fence, 254)
}
