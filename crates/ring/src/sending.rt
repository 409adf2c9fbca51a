// A send's look and a whole send, on plain numbers. The message's first two dwords are read once: they are judged as
// numbers, and those numbers are what is stored. What decides is lent no message, what stores no descriptor, what
// publishes no ring.
ghost use Rattle.std.specs.Prelude.{◌≡◌, cond, [], ◌<◌, ◌^◌, eqb, length, set};
ghost use Rattle.std.specs.Result.{IfOk};
ghost use Rattle.refusal.specs.Numbers.{number_of};
ghost use Rattle.ring.specs.Ring.{TAIL};
ghost use Rattle.ring.specs.Numbers.{marked, number_at, send_decision};
ghost use Rattle.ring.specs.AtOnce.{opened_by, own_after, sent_end, whole_send};
ghost use Rattle.ring.specs.Private.{PlacedBy};

use crate::descriptor::{HEAD, STATUS, TAIL};
use crate::{memory, numbers};
use message::dword_at;
use refusal::Refusal;
use runs::store_message;

// A send's look, for a state that fits or not. The descriptor's words are read where 1 to 4 have passed.
pub fn send_decision(
    fits: bool,
    own: usize,
    desc: &[u32],
    n: usize,
    len: usize,
    header: u32,
    word: u32,
) -> Result<(), Refusal>
    ensures { number_of result ≡ send_decision fits own len header word desc.now n }
{
    numbers::first_needs(desc.len(), n, fits)?;
    if !message::starts_message(len, header, word) {
        return Err(Refusal::BadMessage);
    }
    let status = memory::wide(dword_at(desc, STATUS));
    let head = memory::wide(dword_at(desc, HEAD));
    let tail = memory::wide(dword_at(desc, TAIL));
    numbers::send_look_needs(n, own, len, status, head, tail)
}

// A whole send but for its end: decides, and stores the message where it is accepted; then the tail to publish. Of the
// message only the length and the dwords behind the second are read. The descriptor is lent to be read: while the
// message is stored nobody can publish.
fn place_message(
    fits: bool,
    own: usize,
    desc: &[u32],
    buf: &mut [u32],
    header: u32,
    word: u32,
    msg: &[u32],
) -> Result<usize, Refusal>
    ensures { PlacedBy result
        (number_at fits own (opened_by header word msg.now) desc.now (length buf.old))
        own (opened_by header word msg.now) buf.old buf.new }
{
    send_decision(fits, own, desc, buf.len(), msg.len(), header, word)?;
    Ok(store_message(buf, own, header, word, &msg[2..]))
}

// The end of a whole send: publishes the tail, or marks STATUS. It is lent no ring.
fn end_send(desc: &mut [u32], placed: Result<usize, Refusal>)
    requires { IfOk placed (λ tail. tail < 2 ^ 32) }
    ensures { desc.new
        ≡ cond (eqb (number_of placed) 0) (set desc.old TAIL (own_after 0 placed))
        (marked (number_of placed) desc.old) }
{
    match placed {
        Ok(tail) => memory::publish_tail(desc, tail as u32),
        Err(reason) => memory::mark(desc, reason.number()),
    }
}

// A whole send of a message with these two dwords in the place of its own: what a caller has judged of them is what is
// sent. With whether the sender's state fits as idle, and its own tail; the answer is the own tail afterwards, and a
// refusal leaves it. What ends it needs what placing the message answered, so TAIL comes last.
pub fn whole_send_as(
    fits: bool,
    own: usize,
    desc: &mut [u32],
    buf: &mut [u32],
    header: u32,
    word: u32,
    msg: &[u32],
) -> Result<usize, Refusal>
    ensures { sent_end own result desc.new buf.new
        ≡ whole_send fits own (opened_by header word msg.now) desc.old buf.old }
{
    let placed = place_message(fits, own, &desc[..], buf, header, word, msg);
    end_send(desc, placed);
    placed
}

// A whole send: the message's first two dwords are read here, and nowhere else.
pub fn whole_send(
    fits: bool,
    own: usize,
    desc: &mut [u32],
    buf: &mut [u32],
    msg: &[u32],
) -> Result<usize, Refusal>
    ensures { sent_end own result desc.new buf.new ≡ whole_send fits own msg.now desc.old buf.old }
{
    let header = dword_at(msg, 0);
    let word = dword_at(msg, 1);
    whole_send_as(fits, own, desc, buf, header, word, msg)
}
