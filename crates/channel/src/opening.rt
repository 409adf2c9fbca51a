// Opening a channel.
ghost use Rattle.std.specs.Prelude.{◌≡◌};
ghost use Rattle.refusal.specs.Numbers.{number_of};
ghost use Rattle.channel.specs.Opening.{opened, opening, open_number};

use crate::receiving::Receiver;
use crate::sending::Sender;
use refusal::Refusal;
use ring::{DESCRIPTOR_DWORDS, allowed};

// What opening answers, and both sides: those of a refused opening fit no call.
#[derive(Clone, Copy)]
pub struct Opened {
    pub answer: Result<(), Refusal>,
    pub sender: Sender,
    pub receiver: Receiver,
}

// 1, then 2, with the lengths of the descriptor and the buffer.
pub fn open_needs(descriptor: usize, n: usize) -> Result<(), Refusal>
    ensures { number_of result ≡ open_number descriptor n }
{
    if descriptor != DESCRIPTOR_DWORDS {
        return Err(Refusal::BadDescriptor);
    }
    if !allowed(n) {
        return Err(Refusal::BadBuffer);
    }
    Ok(())
}

// Opens a channel over a lent descriptor and buffer: the descriptor is zeroed, and both sides are idle at offset 0.
// Refused by 1 where the descriptor is not 16 dwords, by 2 where the buffer may not have this length; then the states
// are made for N 0 and fit no call.
pub fn open_channel(desc: &mut [u32], buf: &[u32]) -> Opened
    ensures { opened result desc.new buf.now ≡ opening desc.old buf.now }
{
    if let Err(reason) = open_needs(desc.len(), buf.len()) {
        return Opened {
            answer: Err(reason),
            sender: Sender::idle_at(0, 0),
            receiver: Receiver::idle_at(0, 0),
        };
    }
    desc.fill(0);
    Opened {
        answer: Ok(()),
        sender: Sender::idle_at(buf.len(), 0),
        receiver: Receiver::idle_at(buf.len(), 0),
    }
}
