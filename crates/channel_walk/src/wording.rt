// What follows a call's name: its verdict, the state of the side that made it, and the descriptor.
use channel::SideState;
use refusal::Refusal;
use say::{Descriptor, Verdict};
use stage::Ctb;
use std::{fmt, io};

// A side of the channel: idle with its own offset, or how far it is with a message.
#[derive(Clone, Copy)]
struct Shown<'a> {
    state: &'a SideState,
    idle: &'static str,
    moves: &'static str,
}

impl<'a> fmt::Display for Shown<'a> {
    fn fmt<W: fmt::Write>(&self, f: &mut fmt::Formatter<W>) -> fmt::Result {
        let SideState {
            own,
            len,
            moved,
            ..
        } = *self.state;
        if len == 0 {
            write!(f, "{} {own}", self.idle)
        } else {
            write!(f, "{} {moved} of {len}", self.moves)
        }
    }
}

// The verdict on a call of the sender, and the channel as the call left it.
pub(crate) fn sender_after<T>(
    rt: &impl Print,
    c: &Ctb,
    answer: &Result<T, Refusal>,
) -> io::Result<()> {
    let sender = Shown {
        state: &c.sender.state,
        idle: "sender idle, own tail",
        moves: "sender has stored",
    };
    after(rt, c, answer, sender)
}

// The same of the receiver.
pub(crate) fn receiver_after<T>(
    rt: &impl Print,
    c: &Ctb,
    answer: &Result<T, Refusal>,
) -> io::Result<()> {
    let receiver = Shown {
        state: &c.receiver.state,
        idle: "receiver idle, own head",
        moves: "receiver has copied",
    };
    after(rt, c, answer, receiver)
}

fn after<T>(
    rt: &impl Print,
    c: &Ctb,
    answer: &Result<T, Refusal>,
    side: Shown<'_>,
) -> io::Result<()> {
    let verdict = Verdict::of(answer);
    println!(rt; "{verdict}\n    {side}; {}", Descriptor::of(&c.desc))
}
