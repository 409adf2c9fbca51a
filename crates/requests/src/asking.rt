// What is asked of a wall: an opening, or a reply as it was received. It is numbers by value, so that what is judged is
// what is used.
ghost use Rattle.std.specs.Prelude.{◌≡◌, ◌&&◌, eqb, leb};
ghost use Rattle.std.proofs.Math.Option.{some};
ghost use Rattle.message.specs.Fields.{field_of, type};
ghost use Rattle.message.specs.Header.{starts_message};
ghost use Rattle.message.specs.Packing.{unpack};
ghost use Rattle.ring.specs.Numbers.{need};
ghost use Rattle.requests.specs.Calls.{heard_of};
ghost use Rattle.requests.specs.Plan.{asks_request, asks_reply};

use crate::numbers;
use crate::record::ROOM_MAX;
use message::{Message, Type, dword_at};

// What is heard of a message: 0 with its HXG type and its fence, or the number that refuses it.
#[derive(Clone, Copy)]
pub struct Heard {
    pub(crate) code: u32,
    pub(crate) kind: u32,
    pub(crate) fence: u32,
}

// An opening, or a reply: 0, or the number that refuses it already. A reply has its type and its fence; an opening what is
// set aside for it, and the first two dwords of its message, as they were read.
#[derive(Clone, Copy)]
pub struct Ask {
    pub(crate) opening: bool,
    pub(crate) code: u32,
    pub(crate) kind: u32,
    pub(crate) fence: u32,
    pub(crate) room: u16,
    pub header: u32,
    pub word: u32,
}

// What is heard of a decoded message, of any origin.
pub fn reply(m: Message) -> Heard
    ensures { result ≡ heard_of (some m) }
{
    Heard {
        code: 0,
        kind: u32::from(m.body.kind()),
        fence: m.fence,
    }
}

// What is heard of a received message: it is unpacked here, and nothing of it is read later.
pub fn received(dwords: &[u32]) -> Heard
    ensures { result ≡ heard_of (unpack dwords.now) }
{
    match message::unpack(dwords) {
        Err(r) => Heard {
            code: r.number(),
            kind: 0,
            fence: 0,
        },
        Ok(m) => reply(m),
    }
}

// A reply, asked of a wall.
pub fn ask_reply(h: Heard) -> Ask
    ensures { result ≡ asks_reply h }
{
    Ask {
        opening: false,
        code: h.code,
        kind: h.kind,
        fence: h.fence,
        room: 0,
        header: 0,
        word: 0,
    }
}

// The number that refuses an opening for what is lent with it: 14, then 27.
fn request_number(len: usize, header: u32, word: u32, room: u32) -> u32
    ensures { result ≡ need (leb room 256) 14 (need (starts_message len header word && eqb (field_of type word) 0) 27 0) }
{
    if room > ROOM_MAX {
        return numbers::BAD_FIELD;
    }
    if !message::starts_message(len, header, word) {
        return numbers::NO_REQUEST;
    }
    if message::hxg_type(word) != Type::Request as u32 {
        return numbers::NO_REQUEST;
    }
    0
}

// An opening, asked of a wall: a request message, and so many reply dwords set aside for it. The first two dwords are read
// here, once: what is judged is what is sent.
pub fn ask_request(msg: &[u32], room: u32) -> Ask
    ensures { result ≡ asks_request room msg.now }
{
    let header = dword_at(msg, 0);
    let word = dword_at(msg, 1);
    Ask {
        opening: true,
        code: request_number(msg.len(), header, word, room),
        kind: 0,
        fence: 0,
        room: if room > ROOM_MAX { 0 } else { room as u16 },
        header,
        word,
    }
}
