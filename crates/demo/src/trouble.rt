// What somebody else can break: a message torn, a message malformed, and an offset rewritten.
use crate::calls::{open, picture, receive, send, write_dword};
use stage::Ctb;
use std::io;

// A header that says 38 dwords where 10 are, and a channel that stays broken until it is opened again.
pub(crate) fn torn(rt: &impl Print, c: &mut Ctb) -> io::Result<()> {
    println!(rt; "\n5. A torn message stops the channel: its header says 38 dwords, 10 are there")?;
    send(rt, c, 9, 9)?;
    write_dword(rt, c, 249, 0x0009_0025)?;
    receive(rt, c, 9, 9)?;
    picture(rt, c)?;
    receive(rt, c, 9, 9)?;
    send(rt, c, 10, 1)?;
    open(rt, c)?;
    picture(rt, c)
}

// A whole message of type 4, which is unknown, and the good one behind it.
pub(crate) fn malformed(rt: &impl Print, c: &mut Ctb) -> io::Result<()> {
    println!(rt; "\n6. A message of an unknown type is passed over, and the next one arrives")?;
    send(rt, c, 11, 63)?;
    send(rt, c, 12, 31)?;
    write_dword(rt, c, 1, 0x4000_000b)?;
    picture(rt, c)?;
    receive(rt, c, 11, 63)?;
    picture(rt, c)?;
    receive(rt, c, 12, 31)?;
    picture(rt, c)
}

// TAIL moved behind the sender's back.
pub(crate) fn rewritten(rt: &impl Print, c: &mut Ctb) -> io::Result<()> {
    println!(rt; "\n7. A rewritten offset is noticed\n  Somebody changes TAIL to 700")?;
    c.write_word(ring::TAIL, 700);
    send(rt, c, 13, 1)?;
    picture(rt, c)?;
    open(rt, c)
}
