// Demand 3, that over every list of operations the channel does what document 01's plain channel does, is stated in
// specs/Demand.antt and proved in proofs/Theorem.antt. Here it is the contract of a function, and a self-test follows
// from it.
#![tactic(auto)]

ghost use Rattle.std.specs.Prelude.{◌≡◌};
ghost use Rattle.refusal.specs.Numbers.{number_of};
ghost use Rattle.delivery.specs.Demand.{Demand3};
ghost use Rattle.delivery.specs.HalfWhole.{HalfWhole};
ghost use Rattle.delivery.specs.Loopback.{loop, looped, ComesBack};

use refusal::Refusal;

// Does nothing: it is here for its contract, so that nothing passes the gate without the theorem.
pub fn demand_3()
    ensures { Demand3 }
{}

// The same for half-whole calls, which make all the moves that are left: demand 3 has them already.
pub fn half_whole()
    ensures { HalfWhole }
{}

// What the loopback's three calls answer; the last has the length of the message that came back.
#[derive(Clone, Copy)]
pub struct Looped {
    pub opened: Result<(), Refusal>,
    pub sent: Result<(), Refusal>,
    pub received: Result<usize, Refusal>,
}

// Opens a channel, sends a message whole and receives it whole. On a channel that opens, the message comes back dword
// for dword at the front of the output.
pub fn loopback(desc: &mut [u32], buf: &mut [u32], msg: &[u32], out: &mut [u32]) -> Looped
    ensures out_after { looped result desc.new buf.new out.new
        ≡ loop desc.old buf.old msg.now out.old }
    ensures comes_back { number_of result.opened ≡ 0
        → ComesBack msg.now out.old
        (looped result desc.new buf.new out.new) }
{
    let start = channel::open_channel(desc, &buf[..]);
    let mut sender = start.sender;
    let mut receiver = start.receiver;
    let sent = sender.send(desc, buf, msg);
    let received = receiver.receive(desc, &buf[..], out);
    Looped {
        opened: start.answer,
        sent,
        received,
    }
}
