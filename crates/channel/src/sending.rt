// The sender: its three steps and the whole send. Document 01's move is `store` here.
ghost use Rattle.std.specs.Prelude.{◌≡◌, List, ◌∷◌, ℕ, length};
ghost use Rattle.refusal.specs.Numbers.{number_of};
ghost use Rattle.runs.specs.Buffer.{laid};
ghost use Rattle.channel.specs.State.{of_sender, zeros, idle_at, active_send};
ghost use Rattle.ring.specs.Numbers.{need, first_needs};
ghost use Rattle.channel.specs.Outcome.{sent};
ghost use Rattle.channel.specs.Send;

use crate::state::{SideState, no_copy};
use message::{MESSAGE_MAX, dword_at};
use refusal::Refusal;
use runs::past;

// A sender: its state has its own tail, and mid-call a copy of the message, of which moved dwords are stored. A step
// or a whole send that is refused leaves the state as it was.
#[derive(Clone, Copy)]
pub struct Sender {
    pub state: SideState,
}

// A copy of a message that is looked at, with zeros in its other places.
fn message_copy(header: u32, word: u32, rest: &[u32]) -> [u32; MESSAGE_MAX]
    ensures { result ≡ laid (header ∷ word ∷ rest.now) zeros }
{
    let mut copy = no_copy();
    runs::lay(&mut copy, header, word, rest);
    copy
}

impl Sender {
    // The idle sender made for n dwords, at an own tail.
    pub fn idle_at(n: usize, own: usize) -> Self
        ensures { of_sender result ≡ idle_at n own }
    {
        Self {
            state: SideState::idle_at(n, own),
        }
    }

    // What a step that goes on needs: with whether its own test holds.
    fn go_on(&self, descriptor: usize, n: usize, test: bool) -> Result<(), Refusal>
        ensures { number_of result
            ≡ first_needs descriptor n (active_send n (of_sender self.now)) (need test 12 0) }
    {
        let copy = &self.state.copy;
        self.state
            .counts()
            .sending_needs(copy[0], copy[1], descriptor, n, test)
    }

    // Judges a message and the descriptor, and takes a copy of the message. Its first two dwords are read once: those
    // that are judged are those that are copied.
    pub fn look(&mut self, desc: &mut [u32], buf: &[u32], msg: &[u32]) -> Result<(), Refusal>
        ensures { sent result self.new desc.new buf.now
            ≡ Send.look (of_sender self.old) msg.now desc.old buf.now }
    {
        let n = buf.len();
        let len = msg.len();
        let header = dword_at(msg, 0);
        let word = dword_at(msg, 1);
        let fits = self.state.is_idle(n);
        if let Err(reason) = ring::send_decision(
            fits,
            self.state.own,
            &desc[..],
            n,
            len,
            header,
            word,
        ) {
            ring::mark(desc, reason.number());
            return Err(reason);
        }
        self.state.len = len;
        self.state.moved = 0;
        self.state.copy = message_copy(header, word, &msg[2..]);
        Ok(())
    }

    // Stores the next dword of the copy in the buffer.
    pub fn store(&mut self, desc: &[u32], buf: &mut [u32]) -> Result<(), Refusal>
        ensures { sent result self.new desc.now buf.new
            ≡ Send.move (of_sender self.old) desc.now buf.old }
    {
        let n = buf.len();
        let moved = self.state.moved;
        self.go_on(desc.len(), n, moved < self.state.len)?;
        ring::put(buf, past(self.state.own, moved, n), self.state.copy[moved]);
        self.state.moved = moved + 1;
        Ok(())
    }

    // A publish over a ring of n dwords, which it is not lent.
    fn publish_at(&mut self, desc: &mut [u32], n: usize) -> Result<(), Refusal>
        ensures { (b : List ℕ) → length b ≡ n
            → sent result self.new desc.new b ≡ Send.publish (of_sender self.old) desc.old b }
    {
        self.go_on(desc.len(), n, self.state.len <= self.state.moved)?;
        let tail = past(self.state.own, self.state.len, n);
        ring::publish_tail(desc, tail as u32);
        self.state = SideState::idle_at(self.state.n, tail);
        Ok(())
    }

    // Publishes TAIL past the message, once all of it is stored.
    pub fn publish(&mut self, desc: &mut [u32], buf: &[u32]) -> Result<(), Refusal>
        ensures { sent result self.new desc.new buf.now
            ≡ Send.publish (of_sender self.old) desc.old buf.now }
    {
        self.publish_at(desc, buf.len())
    }

    // A whole send: its steps one after another, at once.
    pub fn send(&mut self, desc: &mut [u32], buf: &mut [u32], msg: &[u32]) -> Result<(), Refusal>
        ensures { sent result self.new desc.new buf.new
            ≡ Send.whole (of_sender self.old) msg.now desc.old buf.old }
    {
        let fits = self.state.is_idle(buf.len());
        let tail = ring::whole_send(fits, self.state.own, desc, buf, msg)?;
        self.state = SideState::idle_at(self.state.n, tail);
        Ok(())
    }
}
