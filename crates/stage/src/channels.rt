// A command transport buffer with the states of both sides, and its calls.
ghost use Rattle.std.specs.Prelude.{◌≡◌, slice_set};
ghost use Rattle.channel.specs.State.{idle_at};
ghost use Rattle.channel.specs.Opening.{opening};
ghost use Rattle.channel.specs.Operations.{send_look, send_move, send_publish, send_whole};
ghost use Rattle.channel.specs.Operations.{receive_look, receive_move, receive_publish, receive_whole};
ghost use Rattle.stage.specs.Channels.{contents_of, unopened_contents, opened_by, sent_by, stepped_by, received_by};
ghost use Rattle.stage.specs.Channels.{SenderDid, ReceiverDid, with_desc, with_buf, with_sender};

use crate::dwords::put;
use channel::{Receiver, Sender};
use message::MESSAGE_MAX;
use refusal::Refusal;
use ring::DESCRIPTOR_DWORDS;

// A command transport buffer (CTB): descriptor, ring, and the states of both sides.
#[derive(Clone, Copy)]
pub struct Ctb {
    pub desc: [u32; DESCRIPTOR_DWORDS],
    pub buf: [u32; 1024],
    pub sender: Sender,
    pub receiver: Receiver,
}

impl Ctb {
    // A ring of zeros under a descriptor that has other words, which nobody has opened.
    pub fn unopened() -> Self
        ensures { contents_of result ≡ unopened_contents }
    {
        Ctb {
            desc: [9; DESCRIPTOR_DWORDS],
            buf: [0; 1024],
            sender: Sender::idle_at(0, 0),
            receiver: Receiver::idle_at(0, 0),
        }
    }

    // Opens it, whatever it was.
    pub fn open(&mut self) -> Result<(), Refusal>
        ensures { opened_by result self.new ≡ opening self.old.desc self.old.buf }
    {
        let opened = channel::open_channel(&mut self.desc, &self.buf);
        self.sender = opened.sender;
        self.receiver = opened.receiver;
        opened.answer
    }

    // A whole send.
    pub fn send(&mut self, msg: &[u32]) -> Result<(), Refusal>
        ensures { SenderDid (send_whole msg.now) (sent_by result self.new) self.old self.new }
    {
        self.sender.send(&mut self.desc, &mut self.buf, msg)
    }

    // A send's look.
    pub fn send_look(&mut self, msg: &[u32]) -> Result<(), Refusal>
        ensures { SenderDid (send_look msg.now) (sent_by result self.new) self.old self.new }
    {
        self.sender.look(&mut self.desc, &self.buf, msg)
    }

    // A send's store.
    pub fn send_store(&mut self) -> Result<(), Refusal>
        ensures { SenderDid send_move (sent_by result self.new) self.old self.new }
    {
        self.sender.store(&self.desc, &mut self.buf)
    }

    // A send's publish.
    pub fn send_publish(&mut self) -> Result<(), Refusal>
        ensures { SenderDid send_publish (sent_by result self.new) self.old self.new }
    {
        self.sender.publish(&mut self.desc, &self.buf)
    }

    // A whole receive into this output.
    pub fn receive(&mut self, out: &mut [u32; MESSAGE_MAX]) -> Result<usize, Refusal>
        ensures { ReceiverDid (receive_whole out.old) (received_by result self.new out.new) self.old self.new }
    {
        self.receiver.receive(&mut self.desc, &self.buf, out)
    }

    // A receive's look.
    pub fn receive_look(&mut self) -> Result<(), Refusal>
        ensures { ReceiverDid receive_look (stepped_by result self.new) self.old self.new }
    {
        self.receiver.look(&mut self.desc, &self.buf)
    }

    // A receive's copy.
    pub fn receive_copy(&mut self) -> Result<(), Refusal>
        ensures { ReceiverDid receive_move (stepped_by result self.new) self.old self.new }
    {
        self.receiver.copy(&self.desc, &self.buf)
    }

    // A receive's publish into this output.
    pub fn receive_publish(&mut self, out: &mut [u32; MESSAGE_MAX]) -> Result<usize, Refusal>
        ensures { ReceiverDid (receive_publish out.old) (received_by result self.new out.new) self.old self.new }
    {
        self.receiver.publish(&mut self.desc, &self.buf, out)
    }

    // Somebody else writes a word of the descriptor.
    pub fn write_word(&mut self, word: usize, value: u32)
        ensures { contents_of self.new ≡ with_desc (slice_set self.old.desc word value) (contents_of self.old) }
    {
        put(&mut self.desc, word, value);
    }

    // Somebody else writes a dword of the ring.
    pub fn write_dword(&mut self, place: usize, value: u32)
        ensures { contents_of self.new ≡ with_buf (slice_set self.old.buf place value) (contents_of self.old) }
    {
        put(&mut self.buf, place, value);
    }

    // Another sender takes over, with this own tail.
    pub fn replace_sender(&mut self, own: usize)
        ensures { contents_of self.new ≡ with_sender (idle_at 1024 own) (contents_of self.old) }
    {
        self.sender = Sender::idle_at(1024, own);
    }
}
