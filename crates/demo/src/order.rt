// Messages in and out in order, around the ring's end, and a ring without room.
use crate::calls::{open, picture, receive, send};
use stage::Ctb;
use std::io;

// A fresh channel, with nothing to receive.
pub(crate) fn fresh(rt: &impl Print, c: &mut Ctb) -> io::Result<()> {
    println!(rt; "\n1. A channel is opened")?;
    open(rt, c)?;
    picture(rt, c)?;
    receive(rt, c, 1, 249)
}

// Two messages in, the first out.
pub(crate) fn in_and_out(rt: &impl Print, c: &mut Ctb) -> io::Result<()> {
    println!(rt; "\n2. Messages go in, and come out in order")?;
    send(rt, c, 1, 249)?;
    picture(rt, c)?;
    send(rt, c, 2, 249)?;
    picture(rt, c)?;
    receive(rt, c, 1, 249)?;
    picture(rt, c)
}

// The tail goes around the end, up to the place before the head.
pub(crate) fn around_the_end(rt: &impl Print, c: &mut Ctb) -> io::Result<()> {
    println!(rt; "\n3. Around the end: after place 1023 comes place 0")?;
    send(rt, c, 3, 249)?;
    send(rt, c, 4, 249)?;
    picture(rt, c)?;
    send(rt, c, 5, 99)?;
    picture(rt, c)
}

// A message that is too long for what is free, one that just fits, and all of them out.
pub(crate) fn full(rt: &impl Print, c: &mut Ctb) -> io::Result<()> {
    println!(rt; "\n4. A ring without room, and a ring with nothing in it")?;
    send(rt, c, 6, 255)?;
    send(rt, c, 7, 172)?;
    picture(rt, c)?;
    send(rt, c, 8, 1)?;
    receive(rt, c, 2, 249)?;
    receive(rt, c, 3, 249)?;
    receive(rt, c, 4, 249)?;
    receive(rt, c, 5, 99)?;
    receive(rt, c, 7, 172)?;
    picture(rt, c)?;
    receive(rt, c, 8, 1)
}
