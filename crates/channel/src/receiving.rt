// The receiver: its three steps and the whole receive. Document 01's move is `copy` here.
ghost use Rattle.std.specs.Prelude.{◌≡◌, List, ℕ, length};
ghost use Rattle.refusal.specs.Numbers.{number_of};
ghost use Rattle.channel.specs.State.{of_receiver, idle_at, active_receive};
ghost use Rattle.ring.specs.Numbers.{need, first_needs};
ghost use Rattle.channel.specs.Outcome.{stepped, received};
ghost use Rattle.channel.specs.Receive;

use crate::state::{SideState, no_copy};
use message::dword_at;
use refusal::Refusal;
use runs::past;

// A receiver: its state has its own head, and mid-call a copy of the dwords that it has moved out of the buffer. A step
// or a whole receive that is refused leaves the state as it was, but for 13, which passes over the message.
#[derive(Clone, Copy)]
pub struct Receiver {
    pub state: SideState,
}

impl Receiver {
    // The idle receiver made for n dwords, at an own head.
    pub fn idle_at(n: usize, own: usize) -> Self
        ensures { of_receiver result ≡ idle_at n own }
    {
        Self {
            state: SideState::idle_at(n, own),
        }
    }

    // What a step that goes on needs: with whether its own test holds.
    fn go_on(&self, descriptor: usize, n: usize, test: bool) -> Result<(), Refusal>
        ensures { number_of result
            ≡ first_needs descriptor n (active_receive n (of_receiver self.now)) (need test 12 0) }
    {
        self.state
            .counts()
            .receiving_needs(self.state.copy[0], descriptor, n, test)
    }

    // Judges the descriptor and the header, and takes a copy of the header.
    pub fn look(&mut self, desc: &mut [u32], buf: &[u32]) -> Result<(), Refusal>
        ensures { stepped result self.new desc.new buf.now
            ≡ Receive.look (of_receiver self.old) desc.old buf.now }
    {
        let fits = self.state.is_idle(buf.len());
        match ring::receive_decision(fits, self.state.own, &desc[..], buf) {
            Err(reason) => {
                ring::mark(desc, reason.number());
                Err(reason)
            }
            Ok(judged) => {
                let mut copy = no_copy();
                copy[0] = judged.header;
                self.state.len = judged.len;
                self.state.moved = 1;
                self.state.copy = copy;
                Ok(())
            }
        }
    }

    // Copies the next dword of the message.
    pub fn copy(&mut self, desc: &[u32], buf: &[u32]) -> Result<(), Refusal>
        ensures { stepped result self.new desc.now buf.now
            ≡ Receive.move (of_receiver self.old) desc.now buf.now }
    {
        let n = buf.len();
        let moved = self.state.moved;
        self.go_on(desc.len(), n, moved < self.state.len)?;
        self.state.copy[moved] = dword_at(buf, past(self.state.own, moved, n));
        self.state.moved = moved + 1;
        Ok(())
    }

    // A publish over a ring of n dwords, which it is not lent: the header cannot be read again.
    fn publish_at(&mut self, desc: &mut [u32], n: usize, out: &mut [u32]) -> Result<usize, Refusal>
        ensures { (b : List ℕ) → length b ≡ n
            → received result self.new desc.new b out.new
            ≡ Receive.publish (of_receiver self.old) out.old desc.old b }
    {
        let header = self.state.copy[0];
        let second = self.state.copy[1];
        let len = self.state.len;
        let counts = self.state.counts();
        match counts.publish_needs(header, second, out.len(), desc.len(), n) {
            Ok(()) => {
                let rest = &self.state.copy[2..len];
                let head = runs::lay_copy(out, header, second, rest, self.state.own, n);
                ring::publish_head(desc, head as u32);
                self.state = SideState::idle_at(self.state.n, head);
                Ok(len)
            }
            Err(Refusal::Malformed) => {
                let head = past(self.state.own, len, n);
                ring::publish_head(desc, head as u32);
                self.state = SideState::idle_at(self.state.n, head);
                Err(Refusal::Malformed)
            }
            Err(reason) => Err(reason),
        }
    }

    // Publishes HEAD past the message, and lays the copy at the front of the output where it is well formed. The ring
    // is not read.
    pub fn publish(
        &mut self,
        desc: &mut [u32],
        buf: &[u32],
        out: &mut [u32],
    ) -> Result<usize, Refusal>
        ensures { received result self.new desc.new buf.now out.new
            ≡ Receive.publish (of_receiver self.old) out.old desc.old buf.now }
    {
        self.publish_at(desc, buf.len(), out)
    }

    // A whole receive: its steps one after another, at once.
    pub fn receive(
        &mut self,
        desc: &mut [u32],
        buf: &[u32],
        out: &mut [u32],
    ) -> Result<usize, Refusal>
        ensures { received result self.new desc.new buf.now out.new
            ≡ Receive.whole (of_receiver self.old) out.old desc.old buf.now }
    {
        let fits = self.state.is_idle(buf.len());
        let end = ring::whole_receive(fits, self.state.own, desc, buf, out);
        match end.answer {
            Ok(_) | Err(Refusal::Malformed) => {
                self.state = SideState::idle_at(self.state.n, end.own);
                end.answer
            }
            Err(reason) => Err(reason),
        }
    }
}
