// The steps and whole calls on a side that is handed over: each takes the side and hands the next one back, in a struct with
// its answer. What they do is done in place by `sending.rt` and `receiving.rt`.
ghost use Rattle.std.specs.Prelude.{◌≡◌};
ghost use Rattle.channel.specs.State.{of_sender, of_receiver};
ghost use Rattle.channel.specs.Outcome.{sent, stepped, received};
ghost use Rattle.channel.specs.Send;
ghost use Rattle.channel.specs.Receive;

use crate::receiving::Receiver;
use crate::sending::Sender;
use refusal::Refusal;

// What a call of the sender answers, and the sender as the call leaves it.
#[derive(Clone, Copy)]
pub struct Sent {
    pub answer: Result<(), Refusal>,
    pub next: Sender,
}

// What a receive's look and copy answer, and the receiver.
#[derive(Clone, Copy)]
pub struct Stepped {
    pub answer: Result<(), Refusal>,
    pub next: Receiver,
}

// What a receive's publish, or a whole receive, answers: also the length L of the message laid.
#[derive(Clone, Copy)]
pub struct Received {
    pub answer: Result<usize, Refusal>,
    pub next: Receiver,
}

impl Sender {
    // A look, as `look` makes it.
    pub fn looked(self, desc: &mut [u32], buf: &[u32], msg: &[u32]) -> Sent
        ensures { sent result.answer result.next desc.new buf.now
            ≡ Send.look (of_sender self) msg.now desc.old buf.now }
    {
        let mut next = self;
        let answer = next.look(desc, buf, msg);
        Sent { answer, next }
    }

    // A move, as `store` makes it.
    pub fn stored(self, desc: &[u32], buf: &mut [u32]) -> Sent
        ensures { sent result.answer result.next desc.now buf.new
            ≡ Send.move (of_sender self) desc.now buf.old }
    {
        let mut next = self;
        let answer = next.store(desc, buf);
        Sent { answer, next }
    }

    // A publish.
    pub fn published(self, desc: &mut [u32], buf: &[u32]) -> Sent
        ensures { sent result.answer result.next desc.new buf.now
            ≡ Send.publish (of_sender self) desc.old buf.now }
    {
        let mut next = self;
        let answer = next.publish(desc, buf);
        Sent { answer, next }
    }

    // A whole send.
    pub fn sent(self, desc: &mut [u32], buf: &mut [u32], msg: &[u32]) -> Sent
        ensures { sent result.answer result.next desc.new buf.new
            ≡ Send.whole (of_sender self) msg.now desc.old buf.old }
    {
        let mut next = self;
        let answer = next.send(desc, buf, msg);
        Sent { answer, next }
    }
}

impl Receiver {
    // A look, as `look` makes it.
    pub fn looked(self, desc: &mut [u32], buf: &[u32]) -> Stepped
        ensures { stepped result.answer result.next desc.new buf.now
            ≡ Receive.look (of_receiver self) desc.old buf.now }
    {
        let mut next = self;
        let answer = next.look(desc, buf);
        Stepped { answer, next }
    }

    // A move, as `copy` makes it.
    pub fn copied(self, desc: &[u32], buf: &[u32]) -> Stepped
        ensures { stepped result.answer result.next desc.now buf.now
            ≡ Receive.move (of_receiver self) desc.now buf.now }
    {
        let mut next = self;
        let answer = next.copy(desc, buf);
        Stepped { answer, next }
    }

    // A publish.
    pub fn published(self, desc: &mut [u32], buf: &[u32], out: &mut [u32]) -> Received
        ensures { received result.answer result.next desc.new buf.now out.new
            ≡ Receive.publish (of_receiver self) out.old desc.old buf.now }
    {
        let mut next = self;
        let answer = next.publish(desc, buf, out);
        Received { answer, next }
    }

    // A whole receive.
    pub fn received(self, desc: &mut [u32], buf: &[u32], out: &mut [u32]) -> Received
        ensures { received result.answer result.next desc.new buf.now out.new
            ≡ Receive.whole (of_receiver self) out.old desc.old buf.now }
    {
        let mut next = self;
        let answer = next.receive(desc, buf, out);
        Received { answer, next }
    }
}
