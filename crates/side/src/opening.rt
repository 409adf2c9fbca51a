// Opening a channel with both sides' states in words.
ghost use Rattle.std.specs.Prelude.{◌≡◌};
ghost use Rattle.refusal.specs.Numbers.{number_of};
ghost use Rattle.channel.specs.Opening.{opening};
ghost use Rattle.side.specs.Words.{opened_words};

use crate::words::{STATE_WORDS, make};
use channel::open_needs;
use refusal::Refusal;

// Opens a channel over a lent descriptor and buffer.
pub fn open_channel(
    sender: &mut [u32; STATE_WORDS],
    receiver: &mut [u32; STATE_WORDS],
    desc: &mut [u32],
    buf: &[u32],
) -> Result<(), Refusal>
    ensures { opened_words (number_of result) sender.new receiver.new desc.new buf.now
        ≡ opening desc.old buf.now }
{
    if let Err(reason) = open_needs(desc.len(), buf.len()) {
        make(&mut sender[..], 0);
        make(&mut receiver[..], 0);
        return Err(reason);
    }
    let n = buf.len() as u32;
    desc.fill(0);
    make(&mut sender[..], n);
    make(&mut receiver[..], n);
    Ok(())
}
