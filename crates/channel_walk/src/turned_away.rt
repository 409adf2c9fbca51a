// Calls with a message, a descriptor, a ring or an output that no call takes.
use crate::calls;
use crate::wording::{receiver_after, sender_after};
use say::Verdict;
use stage::Ctb;
use std::io;

// Opening and whole calls, each with one thing wrong.
pub(crate) fn turned_away(rt: &impl Print) -> io::Result<()> {
    println!(rt; "\nTurned away for what the caller brings")?;
    open_over(rt, &mut [0; 15], &[0; 1024])?;
    open_over(rt, &mut [0; 16], &[0; 1000])?;
    let mut c = calls::open(rt)?;
    send_over_2048(rt, &mut c)?;
    receive_to_255(rt, &mut c)?;
    malformed_sends(rt, &mut c)
}

// Opening over any memory.
fn open_over(rt: &impl Print, desc: &mut [u32], buf: &[u32]) -> io::Result<()> {
    let opened = channel::open_channel(desc, buf);
    let verdict = Verdict::of(&opened.answer);
    println!(rt;
        "Open with descriptor length {}, ring length {}{verdict}",
        desc.len(),
        buf.len()
    )
}

// A whole send over a ring that may be, but for which the state was not made.
fn send_over_2048(rt: &impl Print, c: &mut Ctb) -> io::Result<()> {
    let m = stage::request(23, 1);
    let mut ring = [0; 2048];
    let answer = c.sender.send(&mut c.desc, &mut ring, stage::message_in(&m));
    println!(rt;
        "Send with ring length {}{}",
        ring.len(),
        Verdict::of(&answer)
    )
}

// A whole receive to an output that is a dword short.
fn receive_to_255(rt: &impl Print, c: &mut Ctb) -> io::Result<()> {
    let mut out = [0; 255];
    let answer = c.receiver.receive(&mut c.desc, &c.buf, &mut out);
    println!(rt;
        "Receive with output length {}{}",
        out.len(),
        Verdict::of(&answer)
    )
}

// Sends of dwords that are no message, each of which leaves the channel as it was.
fn malformed_sends(rt: &impl Print, c: &mut Ctb) -> io::Result<()> {
    calls::send_noted(rt, c, ", a dword short", &[0x0018_0002, 0])?;
    calls::send_noted(rt, c, ", format 1", &[0x0018_1001, 0])?;
    calls::send_noted(rt, c, ", a header alone", &[0x0018_0000])
}

// A send of a message of type 4.
pub(crate) fn send_malformed(rt: &impl Print, c: &mut Ctb) -> io::Result<()> {
    calls::send_noted(rt, c, ", type 4", &[0x0013_0001, 0x4000_0000])
}

// A send's store over a descriptor that is a dword short.
pub(crate) fn store_over_15(rt: &impl Print, c: &mut Ctb) -> io::Result<()> {
    let short = [0; 15];
    let answer = c.sender.store(&short, &mut c.buf);
    print!(rt; "Sender stores with descriptor length {}", short.len())?;
    sender_after(rt, c, &answer)
}

// A receive's copy over a ring of a length that none may have.
pub(crate) fn copy_over_1000(rt: &impl Print, c: &mut Ctb) -> io::Result<()> {
    let ring = [0; 1000];
    let answer = c.receiver.copy(&c.desc, &ring);
    print!(rt; "Receiver copies with ring length {}", ring.len())?;
    receiver_after(rt, c, &answer)
}

// A receive's publish to an output that is a dword short.
pub(crate) fn publish_to_255(rt: &impl Print, c: &mut Ctb) -> io::Result<()> {
    let mut out = [0; 255];
    let answer = c.receiver.publish(&mut c.desc, &c.buf, &mut out);
    print!(rt; "Receiver publishes with output length {}", out.len())?;
    receiver_after(rt, c, &answer)
}
