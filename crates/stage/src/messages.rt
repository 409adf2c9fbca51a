// Messages to send, each dword with a value of its own, and outputs to receive in.
ghost use Rattle.std.specs.Prelude.{◌≡◌, true, take, drop};
ghost use Rattle.message.specs.declared.Body.TheVariants.{Request, FastRequest};
ghost use Rattle.stage.specs.Dwords.{FrontOf};
ghost use Rattle.stage.specs.Messages.{untouched, host_message, message_in, AsDue};

use crate::dwords::{back, count_up, front, put};
use message::{Body, MESSAGE_MAX, Message, Origin};

// An output that nothing has been laid in: its dwords count up.
pub fn untouched() -> [u32; MESSAGE_MAX]
    ensures { result ≡ untouched }
{
    let mut out = channel::no_copy();
    count_up(&mut out, 0x5000_0000);
    out
}

// A host's request at the front of 256 dwords.
pub fn request(fence: u32, num_dwords: u32) -> [u32; MESSAGE_MAX]
    ensures { result ≡ host_message fence num_dwords (Request 0 fence) }
{
    packed(
        fence,
        num_dwords,
        Body::Request {
            data: 0,
            action: fence,
        },
    )
}

// The same as a fast request.
pub fn fast_request(fence: u32, num_dwords: u32) -> [u32; MESSAGE_MAX]
    ensures { result ≡ host_message fence num_dwords (FastRequest 0 fence) }
{
    packed(
        fence,
        num_dwords,
        Body::FastRequest {
            data: 0,
            action: fence,
        },
    )
}

// A host's message with this body; all zeros where it cannot be packed.
fn packed(fence: u32, num_dwords: u32, body: Body) -> [u32; MESSAGE_MAX]
    ensures { result ≡ host_message fence num_dwords body }
{
    let mut dwords = channel::no_copy();
    let m = Message {
        origin: Origin::Host,
        fence,
        num_dwords,
        body,
    };
    if let Ok((header, word)) = message::pack(m) {
        count_up(&mut dwords, header);
        put(&mut dwords, 1, word);
    }
    dwords
}

// The message at the front: as many dwords as its header says.
pub fn message_in(dwords: &[u32; MESSAGE_MAX]) -> &[u32]
    ensures { FrontOf dwords.entry (message_in dwords.now) result }
{
    let len = message::total_length(dwords[0]);
    front(dwords, len)
}

// Whether the first len dwords of an output are those of the message that was due.
fn laid_as_due(len: usize, out: &[u32; MESSAGE_MAX], due: &[u32; MESSAGE_MAX]) -> bool
    ensures { (result ≡ true → take len out.now ≡ take len due.now)
        × (take len out.now ≡ take len due.now → result ≡ true) }
{
    front(out, len) == front(due, len)
}

// Whether the others are untouched.
fn rest_untouched(len: usize, out: &[u32; MESSAGE_MAX]) -> bool
    ensures { (result ≡ true → drop len out.now ≡ drop len untouched)
        × (drop len out.now ≡ drop len untouched → result ≡ true) }
{
    let before = untouched();
    back(out, len) == back(&before, len)
}

// Whether an output has the first len dwords of the message that was due and is otherwise untouched, and len is 0 or
// that message's length.
pub fn as_due(len: usize, out: &[u32; MESSAGE_MAX], due: &[u32; MESSAGE_MAX]) -> bool
    ensures { (result ≡ true → AsDue len out.now due.now)
        × (AsDue len out.now due.now → result ≡ true) }
{
    let length_due = message::total_length(due[0]);
    let laid = laid_as_due(len, out, due);
    let others = rest_untouched(len, out);
    ((len == 0) | (len == length_due)) & laid & others
}
