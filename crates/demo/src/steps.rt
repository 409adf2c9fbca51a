// A send by its steps, with a publish that comes too early and a caller that overwrites its message.
use crate::calls::{picture, receive, send_look, send_publish, send_store};
use stage::{Ctb, message_in, request};
use std::io;

// The caller overwrites its message after the look; what is stored is the sender's own copy.
fn swapped_after_look(rt: &impl Print, c: &mut Ctb) -> io::Result<()> {
    let mut m = request(14, 2);
    send_look(rt, c, message_in(&m))?;
    let before = m[2];
    let after = 0xdead_beef;
    m[2] = after;
    println!(rt; "  The caller changes dword 2 of its message from {before:#010x} to {after:#010x}")
}

// Look, store and publish, one at a time.
pub(crate) fn stepwise(rt: &impl Print, c: &mut Ctb) -> io::Result<()> {
    println!(rt; "\n8. Step by step: no swap after the look, no publish before the last dword")?;
    swapped_after_look(rt, c)?;
    send_store(rt, c)?;
    send_publish(rt, c)?;
    receive(rt, c, 14, 2)?;
    send_store(rt, c)?;
    send_store(rt, c)?;
    send_publish(rt, c)?;
    picture(rt, c)?;
    receive(rt, c, 14, 2)
}
