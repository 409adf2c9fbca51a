// A receive's look and a whole receive, on plain numbers. The descriptor is read first, and the ring only where it says
// that a message is pending; each dword of the ring is read at most once. What lays the message is lent no descriptor,
// what publishes neither ring nor output.
ghost use Rattle.std.specs.Prelude.{◌≡◌, true, ◌||◌, cond, ◌≤◌, ◌<◌, ◌^◌, eqb, length, get_or, set};
ghost use Rattle.refusal.specs.Numbers.{number_of};
ghost use Rattle.ring.specs.Ring.{HEAD};
ghost use Rattle.runs.specs.Buffer.{window};
ghost use Rattle.ring.specs.Numbers.{header_number, marked, receive_decision, take_decision};
ghost use Rattle.ring.specs.AtOnce.{judged, judged_header, received_end, whole_receive};
ghost use Rattle.ring.specs.Private.{TakenBy};

use crate::descriptor::{HEAD, STATUS, TAIL};
use crate::{memory, numbers};
use message::{MESSAGE_MAX, dword_at};
use refusal::Refusal;
use runs::{lay_message, past};

// What an accepted look has judged: the message's length L, and its header.
#[derive(Clone, Copy)]
pub struct JudgedHeader {
    pub len: usize,
    pub header: u32,
}

// What a whole receive answers: L of the message laid, or why none is; and the own head afterwards, which moves past a
// malformed message too.
#[derive(Clone, Copy)]
pub struct WholeReceive {
    pub answer: Result<usize, Refusal>,
    pub own: usize,
}

// What a look reads and judges: the descriptor's words, then the header at an own head. TAIL that covers a message is
// published after the message, so a header that is read before TAIL could be an older message's.
fn pending_header(own: usize, desc: &[u32], buf: &[u32]) -> Result<JudgedHeader, Refusal>
    ensures { judged result ≡ judged_header
        (header_number own desc.now (length buf.now) (get_or buf.now own 0))
        own buf.now }
{
    let status = memory::wide(dword_at(desc, STATUS));
    let head = memory::wide(dword_at(desc, HEAD));
    let tail = memory::wide(dword_at(desc, TAIL));
    let used = numbers::pending(buf.len(), own, status, head, tail)?;
    let header = dword_at(buf, own);
    let len = message::total_length(header);
    if used < len {
        return Err(Refusal::Underflow);
    }
    Ok(JudgedHeader { len, header })
}

// A receive's look, for a state that fits or not.
pub fn receive_decision(
    fits: bool,
    own: usize,
    desc: &[u32],
    buf: &[u32],
) -> Result<JudgedHeader, Refusal>
    ensures { judged result ≡ judged_header
        (receive_decision fits own desc.now (length buf.now) (get_or buf.now own 0))
        own buf.now }
{
    numbers::first_needs(desc.len(), buf.len(), fits)?;
    pending_header(own, desc, buf)
}

// The same of a whole receive, which judges its output too.
fn take_decision(
    fits: bool,
    own: usize,
    output: usize,
    desc: &[u32],
    buf: &[u32],
) -> Result<JudgedHeader, Refusal>
    ensures { judged result ≡ judged_header
        (take_decision fits own output desc.now (length buf.now) (get_or buf.now own 0))
        own buf.now }
{
    numbers::first_needs(desc.len(), buf.len(), fits)?;
    if output < MESSAGE_MAX {
        return Err(Refusal::ShortOutput);
    }
    pending_header(own, desc, buf)
}

// The second dword of the message of len dwords that starts at an own head, or 0 where it has none.
fn second_dword(buf: &[u32], own: usize, len: usize) -> u32
    requires { (own < length buf.now) × (1 ≤ len) × (2 ≤ length buf.now) × (length buf.now ≤ 16384) }
    ensures { result ≡ get_or (window buf.now (length buf.now) own len) 1 0 }
{
    if len < 2 {
        return 0;
    }
    dword_at(buf, past(own, 1, buf.len()))
}

// A whole receive but for its end: decides, judges the header and the second dword, and lays the message where they are
// well formed: the others go straight to their places in the output, and a malformed message's others are not read. The
// descriptor is lent to be read.
fn take_message(fits: bool, own: usize, desc: &[u32], buf: &[u32], out: &mut [u32]) -> WholeReceive
    ensures { TakenBy result
        (take_decision fits own (length out.old) desc.now (length buf.now)
        (get_or buf.now own 0))
        own buf.now out.old out.new }
{
    let judged = match take_decision(fits, own, out.len(), desc, buf) {
        Ok(judged) => judged,
        Err(reason) => {
            return WholeReceive {
                answer: Err(reason),
                own,
            };
        }
    };
    let second = second_dword(buf, own, judged.len);
    if !message::well_formed(judged.header, second) {
        return WholeReceive {
            answer: Err(Refusal::Malformed),
            own: past(own, judged.len, buf.len()),
        };
    }
    let head = lay_message(out, judged.header, second, judged.len, buf, own);
    WholeReceive {
        answer: Ok(judged.len),
        own: head,
    }
}

// The end of a whole receive: publishes the head past a message that was laid or passed over, or marks STATUS. It is
// lent neither ring nor output.
fn end_receive(desc: &mut [u32], taken: WholeReceive)
    requires { (eqb (number_of taken.answer) 0 || eqb (number_of taken.answer) 13) ≡ true
        → taken.own < 2 ^ 32 }
    ensures { desc.new
        ≡ cond (eqb (number_of taken.answer) 0 || eqb (number_of taken.answer) 13)
        (set desc.old HEAD taken.own) (marked (number_of taken.answer) desc.old) }
{
    match taken.answer {
        Ok(_) | Err(Refusal::Malformed) => memory::publish_head(desc, taken.own as u32),
        Err(reason) => memory::mark(desc, reason.number()),
    }
}

// A whole receive: with whether the receiver's state fits as idle, and its own head. What ends it needs what taking the
// message answered, so HEAD comes last.
pub fn whole_receive(
    fits: bool,
    own: usize,
    desc: &mut [u32],
    buf: &[u32],
    out: &mut [u32],
) -> WholeReceive
    ensures { received_end result desc.new buf.now out.new
        ≡ whole_receive fits own out.old desc.old buf.now }
{
    let taken = take_message(fits, own, &desc[..], buf, out);
    end_receive(desc, taken);
    taken
}
