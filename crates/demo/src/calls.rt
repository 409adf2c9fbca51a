// The calls, each with the line that says what came of it.
use refusal::Refusal;
use say::{Descriptor, Laid, Picture, Verdict};
use stage::{Ctb, message_in, request, untouched};
use std::io;

// The picture of the ring as it is now.
pub(crate) fn picture(rt: &impl Print, c: &Ctb) -> io::Result<()> {
    println!(rt; "{}", Picture(Descriptor::of(&c.desc)))
}

// What a call answered, to the end of its line.
fn answered<T>(rt: &impl Print, answer: &Result<T, Refusal>) -> io::Result<()> {
    println!(rt; "{}", Verdict::of(answer))
}

// Opens the channel, whatever it was.
pub(crate) fn open(rt: &impl Print, c: &mut Ctb) -> io::Result<()> {
    print!(rt; "  Open over {} dwords", c.buf.len())?;
    answered(rt, &c.open())
}

// Somebody else writes a dword of the ring.
pub(crate) fn write_dword(
    rt: &impl Print,
    c: &mut Ctb,
    place: usize,
    value: u32,
) -> io::Result<()> {
    println!(rt; "  Somebody overwrites place {place} with {value:#010x}")?;
    c.write_dword(place, value);
    Ok(())
}

// A whole send of a request.
pub(crate) fn send(rt: &impl Print, c: &mut Ctb, fence: u32, num_dwords: u32) -> io::Result<()> {
    let m = request(fence, num_dwords);
    let msg = message_in(&m);
    print!(rt; "  Send message {fence}, length {}", msg.len())?;
    answered(rt, &c.send(msg))
}

// A send's look, with any message.
pub(crate) fn send_look(rt: &impl Print, c: &mut Ctb, msg: &[u32]) -> io::Result<()> {
    print!(rt; "  Sender looks with a message of length {}", msg.len())?;
    answered(rt, &c.send_look(msg))
}

// A send's store.
pub(crate) fn send_store(rt: &impl Print, c: &mut Ctb) -> io::Result<()> {
    let s = &c.sender.state;
    let moved = s.moved;
    let dword = message::dword_at(&s.copy, moved);
    print!(rt; "  Sender stores dword {moved} of its copy, {dword:#010x}")?;
    answered(rt, &c.send_store())
}

// A send's publish.
pub(crate) fn send_publish(rt: &impl Print, c: &mut Ctb) -> io::Result<()> {
    print!(rt; "  Sender publishes")?;
    answered(rt, &c.send_publish())
}

// A whole receive, where a request is due. An output that nothing is laid in stays.
pub(crate) fn receive(rt: &impl Print, c: &mut Ctb, fence: u32, num_dwords: u32) -> io::Result<()> {
    let mut out = untouched();
    let answer = c.receive(&mut out);
    let len = answer.unwrap_or(0);
    let laid = Laid {
        as_due: stage::as_due(len, &out, &request(fence, num_dwords)),
        len,
        header: out[0],
    };
    print!(rt; "  Receive{laid}")?;
    answered(rt, &answer)
}
