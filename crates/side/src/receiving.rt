// A receive on a state in words: its three steps and the whole receive.
ghost use Rattle.std.specs.Prelude.{◌≡◌, List, [], ◌++◌, ℕ, ◌+◌, ◌-◌, ◌≤◌, ◌<◌, length, get_or, take, drop};
ghost use Rattle.refusal.specs.Numbers.{number_of};
ghost use Rattle.ring.specs.AtOnce.{len_of};
ghost use Rattle.runs.specs.Buffer;
ghost use Rattle.runs.specs.Buffer.{window};
ghost use Rattle.runs.specs.TwoRuns.{with_run};
ghost use Rattle.channel.specs.Receive;
ghost use Rattle.side.specs.Words.{state_of, in_words};

use crate::words;
use crate::words::STATE_WORDS;
use message::dword_at;
use refusal::Refusal;
use runs::past;

// A whole receive.
pub fn receive(
    w: &mut [u32; STATE_WORDS],
    desc: &mut [u32],
    buf: &[u32],
    out: &mut [u32],
) -> Result<usize, Refusal>
    ensures { in_words (number_of result) (len_of result) w.new desc.new buf.now out.new
        ≡ Receive.whole (state_of w.old) out.old desc.old buf.now }
{
    let s = words::counts_of(&w[..]);
    let fits = words::is_idle(&w[..], s, buf.len());
    let end = ring::whole_receive(fits, s.own, desc, buf, out);
    match end.answer {
        Ok(_) | Err(Refusal::Malformed) => {
            w[words::OWN] = end.own as u32;
            end.answer
        }
        Err(reason) => Err(reason),
    }
}

// Judges the descriptor and the header, and takes a copy of the header.
pub fn receive_look(
    w: &mut [u32; STATE_WORDS],
    desc: &mut [u32],
    buf: &[u32],
) -> Result<(), Refusal>
    ensures { in_words (number_of result) 0 w.new desc.new buf.now []
        ≡ Receive.look (state_of w.old) desc.old buf.now }
{
    let s = words::counts_of(&w[..]);
    let fits = words::is_idle(&w[..], s, buf.len());
    match ring::receive_decision(fits, s.own, &desc[..], buf) {
        Err(reason) => {
            ring::mark(desc, reason.number());
            Err(reason)
        }
        Ok(judged) => {
            w[words::LEN] = judged.len as u32;
            w[words::MOVED] = 1;
            w[words::HEADER] = judged.header;
            Ok(())
        }
    }
}

// Copies the next dword of the message.
pub fn receive_copy(w: &mut [u32; STATE_WORDS], desc: &[u32], buf: &[u32]) -> Result<(), Refusal>
    ensures { in_words (number_of result) 0 w.new desc.now buf.now []
        ≡ Receive.move (state_of w.old) desc.now buf.now }
{
    let n = buf.len();
    let s = words::counts_of(&w[..]);
    s.receiving_needs(w[words::HEADER], desc.len(), n, s.moved < s.len)?;
    w[words::COPY + s.moved] = dword_at(buf, past(s.own, s.moved, n));
    w[words::MOVED] = (s.moved + 1) as u32;
    Ok(())
}

// Copies dwords `moved` to len - 1 of the message to their places in the copy, read in their runs.
fn copy_left(w: &mut [u32], buf: &[u32], own: usize, moved: usize, len: usize)
    requires { (length w.old ≡ 260) × (moved ≤ len) × (len ≤ 256) × (own < length buf.now)
        × (1024 ≤ length buf.now) × (length buf.now ≤ 16384) }
    ensures { w.new
        ≡ with_run w.old (4 + moved)
        (window buf.now (length buf.now) (own + moved) (len - moved)) }
{
    let from = words::COPY + moved;
    let to = words::COPY + len;
    runs::load_dwords(&mut w[from..to], buf, past(own, moved, buf.len()));
}

// Copies every dword of the message that is left, at once. Each is read once, and judged at publish.
pub fn receive_copy_all(
    w: &mut [u32; STATE_WORDS],
    desc: &[u32],
    buf: &[u32],
) -> Result<(), Refusal>
    ensures { in_words (number_of result) 0 w.new desc.now buf.now []
        ≡ Receive.move_all (state_of w.old) desc.now buf.now }
{
    let s = words::counts_of(&w[..]);
    s.receiving_needs(w[words::HEADER], desc.len(), buf.len(), true)?;
    copy_left(&mut w[..], buf, s.own, s.moved, s.len);
    w[words::MOVED] = s.len as u32;
    Ok(())
}

// Lays the copy's first len dwords, of which two were judged and are given by value, at the front of the output, and
// returns the head to publish.
fn lay(
    out: &mut [u32],
    header: u32,
    second: u32,
    w: &[u32],
    len: usize,
    own: usize,
    n: usize,
) -> usize
    requires { (length w.now ≡ 260) × (2 ≤ len) × (len ≤ 256) × (256 ≤ length out.old)
        × (header ≡ get_or w.now 4 0) × (second ≡ get_or w.now 5 0) }
    ensures { (out.new ≡ take len (state_of w.now).copy ++ drop len out.old)
        × (result ≡ Buffer.past n own len) × (result < 16384) }
{
    let copy = &w[words::COPY..];
    runs::lay_copy(out, header, second, &copy[2..len], own, n)
}

// A publish over a ring of n dwords, which it is not lent: the header cannot be read again.
fn publish_at(
    w: &mut [u32; STATE_WORDS],
    desc: &mut [u32],
    n: usize,
    out: &mut [u32],
) -> Result<usize, Refusal>
    ensures { (b : List ℕ) → length b ≡ n
        → in_words (number_of result) (len_of result) w.new desc.new b out.new
        ≡ Receive.publish (state_of w.old) out.old desc.old b }
{
    let s = words::counts_of(&w[..]);
    let header = w[words::HEADER];
    let second = w[words::SECOND];
    match s.publish_needs(header, second, out.len(), desc.len(), n) {
        Ok(()) => {
            let head = lay(out, header, second, &w[..], s.len, s.own, n) as u32;
            ring::publish_head(desc, head);
            words::idle_at(&mut w[..], head);
            Ok(s.len)
        }
        Err(Refusal::Malformed) => {
            let head = past(s.own, s.len, n) as u32;
            ring::publish_head(desc, head);
            words::idle_at(&mut w[..], head);
            Err(Refusal::Malformed)
        }
        Err(reason) => Err(reason),
    }
}

// Publishes HEAD past the message, and lays the copy at the front of the output where it is well formed. The ring is
// not read.
pub fn receive_publish(
    w: &mut [u32; STATE_WORDS],
    desc: &mut [u32],
    buf: &[u32],
    out: &mut [u32],
) -> Result<usize, Refusal>
    ensures { in_words (number_of result) (len_of result) w.new desc.new buf.now out.new
        ≡ Receive.publish (state_of w.old) out.old desc.old buf.now }
{
    publish_at(w, desc, buf.len(), out)
}
