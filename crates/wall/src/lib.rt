// Replies matched to requests for a whole wall (document 02, T-06 and T-08): the functions over a lent table. They
// are few and thin: each record is taken by value once, all is decided on those values (`requests`), and one record is
// stored, or none. Making a table fresh reads no record and stores all.
#![tactic(auto)]

mod sending;

ghost use Rattle.std.specs.Prelude.{◌≡◌, ◌++◌, ◌≤◌, length, set, drop, replicate};
ghost use Rattle.side.specs.Words.{state_of};
ghost use Rattle.requests.specs.Table.{free_record};
ghost use Rattle.requests.specs.Calls.{wall_of, number_alone, given, replying, fresh};
ghost use Rattle.requests.specs.Opening.{sending};
ghost use Rattle.requests.specs.Plan.{plan_of, state_in};
ghost use Rattle.wall.specs.Sent.{sent_in};
ghost use Rattle.wall.specs.Private.{kept};

use requests::{Answer, Ask, Heard, Plan, RECORDS_MAX, Record, State, WALL_WORDS};
use ring::DESCRIPTOR_DWORDS;
use sending::send_planned;
use side::STATE_WORDS;

// How many records a call takes by value: all, or none where there are more than 256, which is refused.
fn kept(n: usize) -> usize
    ensures { result ≡ kept n }
{
    if n <= RECORDS_MAX { n } else { 0 }
}

// Takes the first m records by value, each once, and plans what is asked.
fn judge(t: &[Record], m: usize, state: State, ask: Ask) -> Plan
    requires { m ≡ kept (length t.now) }
    ensures { result ≡ plan_of t.now (length t.now) state ask }
{
    let mut words = [0; RECORDS_MAX];
    let mut rooms = [0; RECORDS_MAX];
    let mut i: usize = 0;
    while i < m {
        let r = t[i];
        words[i] = requests::word_of(r);
        rooms[i] = r.room;
        i = i + 1;
    }
    requests::plan_call(&words, &rooms, t.len(), state, ask)
}

// Plans what is asked of a wall. It is lent to be read: while a call is planned nothing is written.
fn plan(wall: &[u16; WALL_WORDS], t: &[Record], ask: Ask) -> Plan
    ensures { result ≡ plan_of t.now (length t.now) (state_in wall.now) ask }
{
    let m = kept(t.len());
    let state = requests::state_of(wall);
    judge(t, m, state, ask)
}

// Stores one record, where the table has the place.
fn store(t: &mut [Record], i: usize, r: Record)
    ensures { t.new ≡ set t.old i r }
{
    if i < t.len() {
        t[i] = r;
    }
}

// A reply: one record of the table is stored, or none. The state stays, so it is lent to be read.
pub fn reply(wall: &[u16; WALL_WORDS], t: &mut [Record], heard: Heard) -> Answer
    ensures { given result t.new wall.now
        ≡ replying (wall_of t.old wall.now) heard }
{
    let ask = requests::ask_reply(heard);
    let p = plan(wall, t, ask);
    store(t, p.at, p.stored);
    p.answer
}

// An opening: sends a request whole through a channel's sender, with a fence that no open request has, and keeps a record
// of it with so many reply dwords set aside. The record is stored, and then the last fence, where the ring took the message.
pub fn send(
    wall: &mut [u16; WALL_WORDS],
    t: &mut [Record],
    sender: &mut [u32; STATE_WORDS],
    desc: &mut [u32; DESCRIPTOR_DWORDS],
    buf: &mut [u32],
    msg: &[u32],
    room: u32,
) -> Answer
    ensures { sent_in result t.new wall.new sender.new desc.new buf.new
        ≡ sending (wall_of t.old wall.old) room msg.now (state_of sender.old)
        desc.old buf.old }
{
    let ask = requests::ask_request(msg, room);
    let p = plan(wall, t, ask);
    let sent = send_planned(p, t.len(), ask, sender, desc, buf, msg);
    store(t, sent.at, sent.stored);
    requests::keep_last(wall, sent.was, sent.last);
    sent.answer
}

// Frees the first m records.
fn clear(t: &mut [Record], m: usize)
    requires { m ≤ length t.old }
    ensures { t.new ≡ replicate m free_record ++ drop m t.old }
{
    let free = Record {
        is_open: 0,
        fence: 0,
        action: 0,
        count: 0,
        room: 0,
    };
    let mut freed: usize = 0;
    while freed < m {
        t[freed] = free;
        freed = freed + 1;
    }
}

// Makes a wall fresh for a reply buffer of n dwords, whatever it held: every record free, the last fence 65,535. Where that
// is refused no record is freed before `begin` says so.
pub fn fresh(wall: &mut [u16; WALL_WORDS], t: &mut [Record], n: usize) -> u32
    ensures { given (number_alone result) t.new wall.new
        ≡ fresh (wall_of t.old wall.old) n }
{
    let records = t.len();
    clear(t, requests::freed(records, n));
    requests::begin(wall, records, n)
}
