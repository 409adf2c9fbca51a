// The two sides step by step, one between the other's steps, with steps that come too early or too late.
use crate::{calls, turned_away};
use stage::Ctb;
use std::io;

// A send with the receiver looking on, then a receive while the next send runs.
pub(crate) fn interleaved(rt: &impl Print) -> io::Result<()> {
    println!(rt; "\nStep by step, one side between the other's steps")?;
    let mut c = calls::open(rt)?;
    watched_send(rt, &mut c)?;
    stores_and_copies(rt, &mut c)?;
    both_publish(rt, &mut c)
}

// A send by steps, while the receiver finds nothing yet.
fn watched_send(rt: &impl Print, c: &mut Ctb) -> io::Result<()> {
    calls::send_publish(rt, c)?;
    turned_away::send_malformed(rt, c)?;
    calls::send_look(rt, c, 20, 2)?;
    calls::send_publish(rt, c)?;
    calls::send_store(rt, c)?;
    calls::receive_look(rt, c)?;
    turned_away::store_over_15(rt, c)?;
    calls::send_store(rt, c)?;
    calls::send_look(rt, c, 20, 2)?;
    calls::send_store(rt, c)?;
    calls::send_store(rt, c)?;
    calls::send_publish(rt, c)
}

// A receive copies while the next send stores.
fn stores_and_copies(rt: &impl Print, c: &mut Ctb) -> io::Result<()> {
    calls::receive_publish(rt, c, 20, 2)?;
    calls::receive_look(rt, c)?;
    calls::send_look(rt, c, 21, 1)?;
    calls::receive_copy(rt, c)?;
    calls::send_store(rt, c)?;
    calls::receive_publish(rt, c, 20, 2)?;
    turned_away::copy_over_1000(rt, c)?;
    calls::receive_look(rt, c)?;
    calls::receive_copy(rt, c)?;
    calls::send_store(rt, c)
}

// Both publish, and the second message is received whole.
fn both_publish(rt: &impl Print, c: &mut Ctb) -> io::Result<()> {
    calls::receive_copy(rt, c)?;
    turned_away::publish_to_255(rt, c)?;
    calls::send_publish(rt, c)?;
    calls::receive_publish(rt, c, 20, 2)?;
    calls::receive(rt, c, 21, 1)?;
    calls::receive(rt, c, 22, 1)
}
