// Opening, the steps and the whole calls of a channel, with each side's state in 260 words that the caller keeps. A
// descriptor has 16 dwords by its type, so that 1 is never answered here.
ghost use Rattle.std.specs.Prelude.{◌≡◌, []};
ghost use Rattle.refusal.specs.Numbers.{number_of};
ghost use Rattle.ring.specs.AtOnce.{len_of};
ghost use Rattle.channel.specs.Opening.{opening};
ghost use Rattle.channel.specs.Send;
ghost use Rattle.channel.specs.Receive;
ghost use Rattle.side.specs.Words.{state_of, in_words, opened_words};

use refusal::{Refusal, number_of};
use ring::DESCRIPTOR_DWORDS;
use side::STATE_WORDS;

// What a receive answers: the number, and the length L of the message laid.
#[repr(C)]
#[derive(Clone, Copy)]
pub struct Received {
    pub code: u32,
    pub len: usize,
}

impl From<Result<usize, Refusal>> for Received {
    ghost from_gives = { λ answer r. (r.code ≡ number_of answer) × (r.len ≡ len_of answer) };

    fn from(answer: Result<usize, Refusal>) -> Received {
        Received {
            code: number_of(&answer),
            len: answer.unwrap_or(0),
        }
    }
}

#[unsafe(no_mangle)]
pub extern "C" fn guc_open(
    sender: &mut [u32; STATE_WORDS],
    receiver: &mut [u32; STATE_WORDS],
    desc: &mut [u32; DESCRIPTOR_DWORDS],
    buf: &[u32],
) -> u32
    ensures { opened_words result sender.new receiver.new desc.new buf.now
        ≡ opening desc.old buf.now }
{
    number_of(&side::open_channel(sender, receiver, &mut desc[..], buf))
}

#[unsafe(no_mangle)]
pub extern "C" fn guc_send_look(
    w: &mut [u32; STATE_WORDS],
    desc: &mut [u32; DESCRIPTOR_DWORDS],
    buf: &[u32],
    msg: &[u32],
) -> u32
    ensures { in_words result 0 w.new desc.new buf.now []
        ≡ Send.look (state_of w.old) msg.now desc.old buf.now }
{
    number_of(&side::send_look(w, &mut desc[..], buf, msg))
}

#[unsafe(no_mangle)]
pub extern "C" fn guc_send_store(
    w: &mut [u32; STATE_WORDS],
    desc: &[u32; DESCRIPTOR_DWORDS],
    buf: &mut [u32],
) -> u32
    ensures { in_words result 0 w.new desc.now buf.new []
        ≡ Send.move (state_of w.old) desc.now buf.old }
{
    number_of(&side::send_store(w, &desc[..], buf))
}

#[unsafe(no_mangle)]
pub extern "C" fn guc_send_store_all(
    w: &mut [u32; STATE_WORDS],
    desc: &[u32; DESCRIPTOR_DWORDS],
    buf: &mut [u32],
) -> u32
    ensures { in_words result 0 w.new desc.now buf.new []
        ≡ Send.move_all (state_of w.old) desc.now buf.old }
{
    number_of(&side::send_store_all(w, &desc[..], buf))
}

#[unsafe(no_mangle)]
pub extern "C" fn guc_send_publish(
    w: &mut [u32; STATE_WORDS],
    desc: &mut [u32; DESCRIPTOR_DWORDS],
    buf: &[u32],
) -> u32
    ensures { in_words result 0 w.new desc.new buf.now []
        ≡ Send.publish (state_of w.old) desc.old buf.now }
{
    number_of(&side::send_publish(w, &mut desc[..], buf))
}

#[unsafe(no_mangle)]
pub extern "C" fn guc_send(
    w: &mut [u32; STATE_WORDS],
    desc: &mut [u32; DESCRIPTOR_DWORDS],
    buf: &mut [u32],
    msg: &[u32],
) -> u32
    ensures { in_words result 0 w.new desc.new buf.new []
        ≡ Send.whole (state_of w.old) msg.now desc.old buf.old }
{
    number_of(&side::send(w, &mut desc[..], buf, msg))
}

#[unsafe(no_mangle)]
pub extern "C" fn guc_receive_look(
    w: &mut [u32; STATE_WORDS],
    desc: &mut [u32; DESCRIPTOR_DWORDS],
    buf: &[u32],
) -> u32
    ensures { in_words result 0 w.new desc.new buf.now []
        ≡ Receive.look (state_of w.old) desc.old buf.now }
{
    number_of(&side::receive_look(w, &mut desc[..], buf))
}

#[unsafe(no_mangle)]
pub extern "C" fn guc_receive_copy(
    w: &mut [u32; STATE_WORDS],
    desc: &[u32; DESCRIPTOR_DWORDS],
    buf: &[u32],
) -> u32
    ensures { in_words result 0 w.new desc.now buf.now []
        ≡ Receive.move (state_of w.old) desc.now buf.now }
{
    number_of(&side::receive_copy(w, &desc[..], buf))
}

#[unsafe(no_mangle)]
pub extern "C" fn guc_receive_copy_all(
    w: &mut [u32; STATE_WORDS],
    desc: &[u32; DESCRIPTOR_DWORDS],
    buf: &[u32],
) -> u32
    ensures { in_words result 0 w.new desc.now buf.now []
        ≡ Receive.move_all (state_of w.old) desc.now buf.now }
{
    number_of(&side::receive_copy_all(w, &desc[..], buf))
}

#[unsafe(no_mangle)]
pub extern "C" fn guc_receive_publish(
    w: &mut [u32; STATE_WORDS],
    desc: &mut [u32; DESCRIPTOR_DWORDS],
    buf: &[u32],
    out: &mut [u32],
) -> Received
    ensures { in_words result.code result.len w.new desc.new buf.now out.new
        ≡ Receive.publish (state_of w.old) out.old desc.old buf.now }
{
    Received::from(side::receive_publish(w, &mut desc[..], buf, out))
}

#[unsafe(no_mangle)]
pub extern "C" fn guc_receive(
    w: &mut [u32; STATE_WORDS],
    desc: &mut [u32; DESCRIPTOR_DWORDS],
    buf: &[u32],
    out: &mut [u32],
) -> Received
    ensures { in_words result.code result.len w.new desc.new buf.now out.new
        ≡ Receive.whole (state_of w.old) out.old desc.old buf.now }
{
    Received::from(side::receive(w, &mut desc[..], buf, out))
}
