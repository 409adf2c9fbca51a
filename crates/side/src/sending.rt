// A send on a state in words: its three steps and the whole send.
ghost use Rattle.std.specs.Prelude.{◌≡◌, List, [], ℕ, ◌+◌, ◌-◌, ◌≤◌, ◌<◌, length, get_or, take, drop};
ghost use Rattle.refusal.specs.Numbers.{number_of};
ghost use Rattle.runs.specs.Buffer.{stored};
ghost use Rattle.ring.specs.AtOnce.{opened_by};
ghost use Rattle.channel.specs.Send;
ghost use Rattle.side.specs.Words.{state_of, in_words};

use crate::words;
use crate::words::STATE_WORDS;
use message::dword_at;
use refusal::Refusal;
use runs::past;

// A whole send of a message with these two dwords in the place of its own: a caller who has read and judged them, or
// given the header another fence, sends what was judged.
pub fn send_as(
    w: &mut [u32; STATE_WORDS],
    desc: &mut [u32],
    buf: &mut [u32],
    header: u32,
    word: u32,
    msg: &[u32],
) -> Result<(), Refusal>
    ensures { in_words (number_of result) 0 w.new desc.new buf.new []
        ≡ Send.whole (state_of w.old) (opened_by header word msg.now) desc.old
        buf.old }
{
    let s = words::counts_of(&w[..]);
    let fits = words::is_idle(&w[..], s, buf.len());
    let tail = ring::whole_send_as(fits, s.own, desc, buf, header, word, msg)?;
    w[words::OWN] = tail as u32;
    Ok(())
}

// A whole send: the message's first two dwords are read here, and nowhere else.
pub fn send(
    w: &mut [u32; STATE_WORDS],
    desc: &mut [u32],
    buf: &mut [u32],
    msg: &[u32],
) -> Result<(), Refusal>
    ensures { in_words (number_of result) 0 w.new desc.new buf.new []
        ≡ Send.whole (state_of w.old) msg.now desc.old buf.old }
{
    let header = dword_at(msg, 0);
    let word = dword_at(msg, 1);
    send_as(w, desc, buf, header, word, msg)
}

// Judges a message and the descriptor, and takes a copy of the message. Its first two dwords are read once: those that
// are judged are those that are copied.
pub fn send_look(
    w: &mut [u32; STATE_WORDS],
    desc: &mut [u32],
    buf: &[u32],
    msg: &[u32],
) -> Result<(), Refusal>
    ensures { in_words (number_of result) 0 w.new desc.new buf.now []
        ≡ Send.look (state_of w.old) msg.now desc.old buf.now }
{
    let n = buf.len();
    let s = words::counts_of(&w[..]);
    let fits = words::is_idle(&w[..], s, n);
    let header = dword_at(msg, 0);
    let word = dword_at(msg, 1);
    if let Err(reason) = ring::send_decision(fits, s.own, &desc[..], n, msg.len(), header, word) {
        ring::mark(desc, reason.number());
        return Err(reason);
    }
    words::load(&mut w[..], header, word, &msg[2..]);
    Ok(())
}

// Stores the next dword of the copy in the buffer.
pub fn send_store(w: &mut [u32; STATE_WORDS], desc: &[u32], buf: &mut [u32]) -> Result<(), Refusal>
    ensures { in_words (number_of result) 0 w.new desc.now buf.new []
        ≡ Send.move (state_of w.old) desc.now buf.old }
{
    let n = buf.len();
    let s = words::counts_of(&w[..]);
    let header = w[words::HEADER];
    let word = w[words::SECOND];
    s.sending_needs(header, word, desc.len(), n, s.moved < s.len)?;
    let dword = words::dword_of_copy(&w[..], header, word, s.moved);
    ring::put(buf, past(s.own, s.moved, n), dword);
    w[words::MOVED] = (s.moved + 1) as u32;
    Ok(())
}

// Stores dwords `moved` to len - 1 of the copy in the ring, in their runs. The first two dwords of the copy were
// judged: those are given by value.
fn store_left(
    buf: &mut [u32],
    w: &[u32],
    header: u32,
    word: u32,
    own: usize,
    moved: usize,
    len: usize,
)
    requires { (length w.now ≡ 260) × (header ≡ get_or w.now 4 0) × (word ≡ get_or w.now 5 0)
        × (moved ≤ len) × (2 ≤ len) × (len ≤ 256) × (own < length buf.old) × (1024 ≤ length buf.old)
        × (length buf.old ≤ 16384) }
    ensures { buf.new
        ≡ stored buf.old (length buf.old) (own + moved)
        (take (len - moved) (drop moved (state_of w.now).copy)) }
{
    let n = buf.len();
    let copy = &w[words::COPY..];
    if moved == 0 {
        runs::store_message(buf, own, header, word, &copy[2..len]);
        return;
    }
    if moved == 1 {
        ring::put(buf, past(own, 1, n), word);
        runs::store_dwords(buf, past(own, 2, n), &copy[2..len]);
        return;
    }
    runs::store_dwords(buf, past(own, moved, n), &copy[moved..len]);
}

// Stores every dword of the copy that is left, at once.
pub fn send_store_all(
    w: &mut [u32; STATE_WORDS],
    desc: &[u32],
    buf: &mut [u32],
) -> Result<(), Refusal>
    ensures { in_words (number_of result) 0 w.new desc.now buf.new []
        ≡ Send.move_all (state_of w.old) desc.now buf.old }
{
    let s = words::counts_of(&w[..]);
    let header = w[words::HEADER];
    let word = w[words::SECOND];
    s.sending_needs(header, word, desc.len(), buf.len(), true)?;
    store_left(buf, &w[..], header, word, s.own, s.moved, s.len);
    w[words::MOVED] = s.len as u32;
    Ok(())
}

// A publish over a ring of n dwords, which it is not lent.
fn publish_at(w: &mut [u32; STATE_WORDS], desc: &mut [u32], n: usize) -> Result<(), Refusal>
    ensures { (b : List ℕ) → length b ≡ n
        → in_words (number_of result) 0 w.new desc.new b []
        ≡ Send.publish (state_of w.old) desc.old b }
{
    let s = words::counts_of(&w[..]);
    s.sending_needs(
        w[words::HEADER],
        w[words::SECOND],
        desc.len(),
        n,
        s.len <= s.moved,
    )?;
    let tail = past(s.own, s.len, n) as u32;
    ring::publish_tail(desc, tail);
    words::idle_at(&mut w[..], tail);
    Ok(())
}

// Publishes TAIL past the message, once all of it is stored.
pub fn send_publish(
    w: &mut [u32; STATE_WORDS],
    desc: &mut [u32],
    buf: &[u32],
) -> Result<(), Refusal>
    ensures { in_words (number_of result) 0 w.new desc.new buf.now []
        ≡ Send.publish (state_of w.old) desc.old buf.now }
{
    publish_at(w, desc, buf.len())
}
