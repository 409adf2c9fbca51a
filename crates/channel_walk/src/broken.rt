// What somebody else can break: the descriptor, a message cut short, and whole messages that are malformed.
use crate::calls;
use ring::{HEAD, STATUS, TAIL};
use stage::Ctb;
use std::io;

// Somebody else writes a word of the descriptor.
fn rewrite(rt: &impl Print, c: &mut Ctb, word: usize, value: u32) -> io::Result<()> {
    let name = match word {
        HEAD => "HEAD",
        TAIL => "TAIL",
        _ => "STATUS",
    };
    let before = message::dword_at(&c.desc, word);
    println!(rt; "Somebody changes {name} from {before} to {value}")?;
    c.write_word(word, value);
    Ok(())
}

// Somebody else writes a header.
fn write_header(rt: &impl Print, c: &mut Ctb, place: usize, header: u32) -> io::Result<()> {
    let fence = header >> 16;
    let len = message::total_length(header);
    println!(rt;
        "Somebody stores {header:#010x} at place {place}, the header of message {fence}, length {len}"
    )?;
    c.write_dword(place, header);
    Ok(())
}

// Another sender, made for an own tail.
fn replace_sender(rt: &impl Print, c: &mut Ctb, own: usize) -> io::Result<()> {
    println!(rt; "Another sender takes over, own tail {own}")?;
    c.replace_sender(own);
    Ok(())
}

// Offsets and a STATUS that the next look refuses.
pub(crate) fn spoilt_descriptors(rt: &impl Print) -> io::Result<()> {
    println!(rt; "\nA descriptor that somebody changed")?;
    tail_outside(rt)?;
    tail_moved(rt)?;
    status_8(rt)
}

// TAIL at the last place, where the sender is too, and then a place further.
fn tail_outside(rt: &impl Print) -> io::Result<()> {
    let mut c = calls::open(rt)?;
    replace_sender(rt, &mut c, 1023)?;
    rewrite(rt, &mut c, HEAD, 1023)?;
    rewrite(rt, &mut c, TAIL, 1023)?;
    calls::send(rt, &mut c, 11, 1)?;
    rewrite(rt, &mut c, TAIL, 1024)?;
    calls::send(rt, &mut c, 12, 1)
}

// Own tail 8, and TAIL 12.
fn tail_moved(rt: &impl Print) -> io::Result<()> {
    let mut c = calls::open(rt)?;
    calls::send(rt, &mut c, 13, 7)?;
    rewrite(rt, &mut c, TAIL, 12)?;
    calls::send(rt, &mut c, 14, 7)
}

// A STATUS that both sides refuse.
fn status_8(rt: &impl Print) -> io::Result<()> {
    let mut c = calls::open(rt)?;
    rewrite(rt, &mut c, STATUS, 8)?;
    calls::send_look(rt, &mut c, 15, 1)?;
    calls::receive_look(rt, &mut c)
}

// A header that says 6 dwords, with 3 used, and on another channel with 6.
pub(crate) fn cut_short(rt: &impl Print) -> io::Result<()> {
    println!(rt; "\nA message that was cut short")?;
    look_at_six(rt, 3)?;
    look_at_six(rt, 6)
}

fn look_at_six(rt: &impl Print, tail: u32) -> io::Result<()> {
    let mut c = calls::open(rt)?;
    write_header(rt, &mut c, 0, 0x0000_0005)?;
    rewrite(rt, &mut c, TAIL, tail)?;
    calls::receive_look(rt, &mut c)
}

// A message of unknown type and a header alone are passed over, and the good message behind them, a fast request, is
// received.
pub(crate) fn passed_over(rt: &impl Print) -> io::Result<()> {
    println!(rt; "\nWhole messages that are malformed")?;
    let mut c = calls::open(rt)?;
    unknown_type(rt, &mut c)?;
    header_alone(rt, &mut c)?;
    calls::receive_look(rt, &mut c)?;
    replace_sender(rt, &mut c, 4)?;
    fast_request_through(rt, &mut c)
}

// Three dwords with type 4, received whole.
fn unknown_type(rt: &impl Print, c: &mut Ctb) -> io::Result<()> {
    write_header(rt, c, 0, 0x0010_0002)?;
    c.write_dword(1, 0x4000_0000);
    c.write_dword(2, 0x0000_0001);
    let second = c.buf[1];
    let third = c.buf[2];
    println!(rt;
        "Somebody stores {second:#010x} at place 1, of type 4, which is unknown, and {third:#010x} at place 2"
    )?;
    rewrite(rt, c, TAIL, 3)?;
    calls::receive(rt, c, 16, 2)
}

// A header with NUM_DWORDS 0, received by its steps.
fn header_alone(rt: &impl Print, c: &mut Ctb) -> io::Result<()> {
    write_header(rt, c, 3, 0x0011_0000)?;
    rewrite(rt, c, TAIL, 4)?;
    calls::receive_look(rt, c)?;
    calls::receive_publish(rt, c, 17, 0)
}

// A fast request, sent and received.
fn fast_request_through(rt: &impl Print, c: &mut Ctb) -> io::Result<()> {
    let m = stage::fast_request(18, 1);
    calls::send_noted(rt, c, ", a fast request", stage::message_in(&m))?;
    calls::receive_due(rt, c, &m)
}
