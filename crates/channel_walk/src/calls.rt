// The calls, each with the lines that say what came of it.
use crate::wording::{receiver_after, sender_after};
use message::{MESSAGE_MAX, dword_at};
use say::{Descriptor, Laid, Verdict};
use stage::Ctb;
use std::io;

// A channel that is opened, and what opening answered.
pub(crate) fn open(rt: &impl Print) -> io::Result<Ctb> {
    let mut c = Ctb::unopened();
    let verdict = Verdict::of(&c.open());
    println!(rt; "Open{verdict}\n    {}", Descriptor::of(&c.desc))?;
    Ok(c)
}

// A whole send of any dwords, with a note on them.
pub(crate) fn send_noted(rt: &impl Print, c: &mut Ctb, note: &str, msg: &[u32]) -> io::Result<()> {
    let fence = dword_at(msg, 0) >> 16;
    print!(rt; "Send message {fence}, length {}{note}", msg.len())?;
    let answer = c.send(msg);
    sender_after(rt, c, &answer)
}

// A whole send of a request.
pub(crate) fn send(rt: &impl Print, c: &mut Ctb, fence: u32, num_dwords: u32) -> io::Result<()> {
    let m = stage::request(fence, num_dwords);
    send_noted(rt, c, "", stage::message_in(&m))
}

// A send's look, with a request.
pub(crate) fn send_look(
    rt: &impl Print,
    c: &mut Ctb,
    fence: u32,
    num_dwords: u32,
) -> io::Result<()> {
    let m = stage::request(fence, num_dwords);
    let msg = stage::message_in(&m);
    print!(rt; "Sender looks with message {fence}, length {}", msg.len())?;
    let answer = c.send_look(msg);
    sender_after(rt, c, &answer)
}

// A send's store, with the place that its dword goes to.
pub(crate) fn send_store(rt: &impl Print, c: &mut Ctb) -> io::Result<()> {
    let s = &c.sender.state;
    let place = runs::past(s.own, s.moved, s.n);
    let dword = dword_at(&s.copy, s.moved);
    let answer = c.send_store();
    match answer {
        Ok(()) => print!(rt; "Sender stores {dword:#010x} at place {place}")?,
        Err(_) => print!(rt; "Sender stores")?,
    }
    sender_after(rt, c, &answer)
}

// A send's publish.
pub(crate) fn send_publish(rt: &impl Print, c: &mut Ctb) -> io::Result<()> {
    print!(rt; "Sender publishes")?;
    let answer = c.send_publish();
    sender_after(rt, c, &answer)
}

// A whole receive, where a request is due.
pub(crate) fn receive(rt: &impl Print, c: &mut Ctb, fence: u32, num_dwords: u32) -> io::Result<()> {
    receive_due(rt, c, &stage::request(fence, num_dwords))
}

// A whole receive, where this message is due.
pub(crate) fn receive_due(
    rt: &impl Print,
    c: &mut Ctb,
    due: &[u32; MESSAGE_MAX],
) -> io::Result<()> {
    let mut out = stage::untouched();
    let answer = c.receive(&mut out);
    let len = answer.unwrap_or(0);
    print!(rt; "Receive{}", laid(len, &out, due))?;
    receiver_after(rt, c, &answer)
}

// What was laid of the message that was due.
fn laid(len: usize, out: &[u32; MESSAGE_MAX], due: &[u32; MESSAGE_MAX]) -> Laid {
    Laid {
        as_due: stage::as_due(len, out, due),
        len,
        header: out[0],
    }
}

// A receive's look.
pub(crate) fn receive_look(rt: &impl Print, c: &mut Ctb) -> io::Result<()> {
    print!(rt; "Receiver looks")?;
    let answer = c.receive_look();
    receiver_after(rt, c, &answer)
}

// A receive's copy.
pub(crate) fn receive_copy(rt: &impl Print, c: &mut Ctb) -> io::Result<()> {
    print!(rt; "Receiver copies")?;
    let answer = c.receive_copy();
    receiver_after(rt, c, &answer)
}

// A receive's publish, where a request is due.
pub(crate) fn receive_publish(
    rt: &impl Print,
    c: &mut Ctb,
    fence: u32,
    num_dwords: u32,
) -> io::Result<()> {
    let due = stage::request(fence, num_dwords);
    let mut out = stage::untouched();
    let answer = c.receive_publish(&mut out);
    let len = answer.unwrap_or(0);
    print!(rt; "Receiver publishes{}", laid(len, &out, &due))?;
    receiver_after(rt, c, &answer)
}
