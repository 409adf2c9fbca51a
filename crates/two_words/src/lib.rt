// Sides that make whole calls only, in two words each, which are lent to the call and changed in place: between its
// calls such a side is idle, so that there is no copy to keep and no zeros to test. Held to the same definitions as the
// states by value. `side` has the same three calls on 260 words: what they share is `ring`'s whole calls and
// `channel::open_needs`; one trait over both kinds of words would say more than the few lines that are left.
#![tactic(auto)]

ghost use Rattle.std.specs.Prelude.{◌≡◌, [], length};
ghost use Rattle.refusal.specs.Numbers.{number_of};
ghost use Rattle.ring.specs.AtOnce.{len_of};
ghost use Rattle.channel.specs.State.{idle, idle_at};
ghost use Rattle.channel.specs.Opening.{opening};
ghost use Rattle.channel.specs.Send;
ghost use Rattle.channel.specs.Receive;
ghost use Rattle.two_words.specs.TwoWords.{idle_of, in_two_words, opened_two_words};

use channel::open_needs;
use refusal::Refusal;
use ring::wide;

// The words of such a side, and which of them holds its N and its own offset.
pub const WORDS: usize = 2;

const N: usize = 0;

const OWN: usize = 1;

// Such a side's numbers: the N that it was made for, and its own offset.
#[derive(Clone, Copy)]
pub(crate) struct Numbers {
    pub n: usize,
    pub own: usize,
}

// The numbers in the words. They are judged and used from here: neither word is read again.
fn numbers_of(w: &[u32]) -> Numbers
    requires { length w.now ≡ 2 }
    ensures { (result.n ≡ (idle_of w.now).n) × (result.own ≡ (idle_of w.now).own) }
{
    Numbers {
        n: wide(w[N]),
        own: wide(w[OWN]),
    }
}

// Whether the side fits a buffer of n dwords.
fn fits_buffer(n: usize, s: Numbers) -> bool
    ensures { result ≡ idle n (idle_at s.n s.own) }
{
    (s.n == n) & (s.own < n)
}

// Makes the words a side at offset 0, made for n dwords.
fn make(w: &mut [u32], n: u32)
    requires { length w.old ≡ 2 }
    ensures { idle_of w.new ≡ idle_at n 0 }
{
    w[N] = n;
    w[OWN] = 0;
}

// Opens a channel over a lent descriptor and buffer, with both sides in two words.
pub fn open(
    sender: &mut [u32; WORDS],
    receiver: &mut [u32; WORDS],
    desc: &mut [u32],
    buf: &[u32],
) -> Result<(), Refusal>
    ensures { opened_two_words (number_of result) sender.new receiver.new desc.new buf.now
        ≡ opening desc.old buf.now }
{
    if let Err(reason) = open_needs(desc.len(), buf.len()) {
        make(&mut sender[..], 0);
        make(&mut receiver[..], 0);
        return Err(reason);
    }
    let n = buf.len() as u32;
    desc.fill(0);
    make(&mut sender[..], n);
    make(&mut receiver[..], n);
    Ok(())
}

// A whole send. The own tail moves where the message was sent.
pub fn send(
    w: &mut [u32; WORDS],
    desc: &mut [u32],
    buf: &mut [u32],
    msg: &[u32],
) -> Result<(), Refusal>
    ensures { in_two_words (number_of result) 0 w.new desc.new buf.new []
        ≡ Send.whole (idle_of w.old) msg.now desc.old buf.old }
{
    let s = numbers_of(&w[..]);
    let fits = fits_buffer(buf.len(), s);
    let tail = ring::whole_send(fits, s.own, desc, buf, msg)?;
    w[OWN] = tail as u32;
    Ok(())
}

// A whole receive. The own head moves past a message that was laid or passed over.
pub fn receive(
    w: &mut [u32; WORDS],
    desc: &mut [u32],
    buf: &[u32],
    out: &mut [u32],
) -> Result<usize, Refusal>
    ensures { in_two_words (number_of result) (len_of result) w.new desc.new buf.now out.new
        ≡ Receive.whole (idle_of w.old) out.old desc.old buf.now }
{
    let s = numbers_of(&w[..]);
    let fits = fits_buffer(buf.len(), s);
    let end = ring::whole_receive(fits, s.own, desc, buf, out);
    match end.answer {
        Ok(_) | Err(Refusal::Malformed) => {
            w[OWN] = end.own as u32;
            end.answer
        }
        Err(reason) => Err(reason),
    }
}
