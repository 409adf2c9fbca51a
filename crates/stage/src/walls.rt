// A wall of six players, by value: a table of six records and the wall's two words. A scene passes it from call to call.
// The channel that a request goes through is lent.
ghost use Rattle.std.specs.Prelude.{◌≡◌};
ghost use Rattle.side.specs.Words.{state_of};
ghost use Rattle.requests.specs.Fence.{age};
ghost use Rattle.requests.specs.Calls.{wall_of, given, replying};
ghost use Rattle.requests.specs.Opening.{sending};
ghost use Rattle.wall.specs.Sent.{sent_in};
ghost use Rattle.stage.specs.Walls.{fresh_wall, as_read};

use requests::{Answer, FIRST_LAST, Heard, Record, WALL_WORDS};
use ring::DESCRIPTOR_DWORDS;
use side::STATE_WORDS;

// How many requests the players can have open at once.
pub const PLAYERS: usize = 6;

// How many dwords the buffer has in which their replies come.
pub const REPLY_N: u16 = 1024;

#[derive(Clone, Copy)]
pub struct Wall {
    pub table: [Record; PLAYERS],
    pub words: [u16; WALL_WORDS],
}

// What a call answers, and the wall after it.
#[derive(Clone, Copy)]
pub struct Called {
    pub answer: Answer,
    pub wall: Wall,
}

// A wall with nothing open.
pub fn fresh_wall() -> Wall
    ensures { result ≡ fresh_wall }
{
    Wall {
        table: [Record {
            is_open: 0,
            fence: 0,
            action: 0,
            count: 0,
            room: 0,
        }; PLAYERS],
        words: [FIRST_LAST, REPLY_N],
    }
}

// The library's own reply, on a copy of a table.
fn reply_on(table: [Record; PLAYERS], words: [u16; WALL_WORDS], heard: Heard) -> Called
    ensures { given result.answer result.wall.table result.wall.words ≡ replying (wall_of table words) heard }
{
    let mut t = table;
    let l = words;
    let answer = wall::reply(&l, &mut t, heard);
    Called {
        answer,
        wall: Wall { table: t, words: l },
    }
}

// A reply, as it was received.
pub fn wall_reply(w: Wall, heard: Heard) -> Called
    ensures { given result.answer result.wall.table result.wall.words ≡ replying (wall_of w.table w.words) heard }
{
    let table = w.table;
    let words = w.words;
    reply_on(table, words, heard)
}

// The library's own send, on copies of a table and a state.
fn send_on(
    table: [Record; PLAYERS],
    words: [u16; WALL_WORDS],
    sender: &mut [u32; STATE_WORDS],
    desc: &mut [u32; DESCRIPTOR_DWORDS],
    buf: &mut [u32],
    msg: &[u32],
    room: u32,
) -> Called
    ensures { sent_in result.answer result.wall.table result.wall.words sender.new desc.new buf.new
        ≡ sending (wall_of table words) room msg.now (state_of sender.old) desc.old
        buf.old }
{
    let mut t = table;
    let mut l = words;
    let answer = wall::send(&mut l, &mut t, sender, desc, buf, msg, room);
    Called {
        answer,
        wall: Wall { table: t, words: l },
    }
}

// A request, sent through the channel that is lent.
pub fn wall_send(
    w: Wall,
    sender: &mut [u32; STATE_WORDS],
    desc: &mut [u32; DESCRIPTOR_DWORDS],
    buf: &mut [u32],
    msg: &[u32],
    room: u32,
) -> Called
    ensures { sent_in result.answer result.wall.table result.wall.words sender.new desc.new buf.new
        ≡ sending (wall_of w.table w.words) room msg.now (state_of sender.old) desc.old
        buf.old }
{
    let table = w.table;
    let words = w.words;
    send_on(table, words, sender, desc, buf, msg, room)
}

// The age of a fence as a person reads it: so much older than the newest, or newer.
#[derive(Clone, Copy)]
pub struct Aged {
    pub older: bool,
    pub by: u32,
}

pub fn age_of(fence: u16, newest: u16) -> Aged
    ensures { result ≡ as_read (age fence newest) }
{
    let a = requests::age(fence, newest);
    if a < 0 {
        Aged {
            older: true,
            by: (0 - a) as u32,
        }
    } else {
        Aged {
            older: false,
            by: a as u32,
        }
    }
}
