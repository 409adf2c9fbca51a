// Opening and the whole calls of sides that make no others, in two words each.
ghost use Rattle.std.specs.Prelude.{◌≡◌, []};
ghost use Rattle.channel.specs.Opening.{opening};
ghost use Rattle.channel.specs.Send;
ghost use Rattle.channel.specs.Receive;
ghost use Rattle.two_words.specs.TwoWords.{idle_of, in_two_words, opened_two_words};

use crate::calls::Received;
use refusal::number_of;
use ring::DESCRIPTOR_DWORDS;
use two_words::WORDS;

#[unsafe(no_mangle)]
pub extern "C" fn guc_whole_open(
    sender: &mut [u32; WORDS],
    receiver: &mut [u32; WORDS],
    desc: &mut [u32; DESCRIPTOR_DWORDS],
    buf: &[u32],
) -> u32
    ensures { opened_two_words result sender.new receiver.new desc.new buf.now
        ≡ opening desc.old buf.now }
{
    number_of(&two_words::open(sender, receiver, &mut desc[..], buf))
}

#[unsafe(no_mangle)]
pub extern "C" fn guc_whole_send(
    w: &mut [u32; WORDS],
    desc: &mut [u32; DESCRIPTOR_DWORDS],
    buf: &mut [u32],
    msg: &[u32],
) -> u32
    ensures { in_two_words result 0 w.new desc.new buf.new []
        ≡ Send.whole (idle_of w.old) msg.now desc.old buf.old }
{
    number_of(&two_words::send(w, &mut desc[..], buf, msg))
}

#[unsafe(no_mangle)]
pub extern "C" fn guc_whole_receive(
    w: &mut [u32; WORDS],
    desc: &mut [u32; DESCRIPTOR_DWORDS],
    buf: &[u32],
    out: &mut [u32],
) -> Received
    ensures { in_two_words result.code result.len w.new desc.new buf.now out.new
        ≡ Receive.whole (idle_of w.old) out.old desc.old buf.now }
{
    Received::from(two_words::receive(w, &mut desc[..], buf, out))
}
