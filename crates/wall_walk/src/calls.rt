// The calls of a wall, each with the line that says what came of it.
ghost use Rattle.std.specs.Prelude.{◌≡◌, IfSome};
ghost use Rattle.refusal.specs.Numbers.{number};

use crate::site::Site;
use message::{Body, Message, Origin, Type, dword_at};
use refusal::Refusal;
use requests::{Answer, Heard, Record};
use say::Verdict;
use std::{fmt, io};

// A message of the GuC, as it is heard.
fn from_guc(fence: u32, body: Body) -> Heard {
    requests::reply(Message {
        origin: Origin::Guc,
        fence,
        num_dwords: 1,
        body,
    })
}

pub(crate) fn success(rt: &impl Print, s: Site, fence: u32) -> io::Result<Site> {
    reply(rt, s, fence, Body::Success { data: 0 })
}

pub(crate) fn failure(rt: &impl Print, s: Site, fence: u32) -> io::Result<Site> {
    reply(rt, s, fence, Body::Failure { hint: 0, error: 4 })
}

pub(crate) fn busy(rt: &impl Print, s: Site, fence: u32) -> io::Result<Site> {
    reply(rt, s, fence, Body::Busy { counter: 0 })
}

pub(crate) fn retry(rt: &impl Print, s: Site, fence: u32) -> io::Result<Site> {
    reply(rt, s, fence, Body::Retry { reason: 0 })
}

// An event is no reply, whatever its fence.
pub(crate) fn event(rt: &impl Print, s: Site, fence: u32) -> io::Result<Site> {
    print!(rt; "An event with fence {fence}")?;
    heard(rt, s, from_guc(fence, Body::Event { data: 0, action: 1 }))
}

// A reply, named by its fence.
fn reply(rt: &impl Print, s: Site, fence: u32, body: Body) -> io::Result<Site> {
    print!(rt; "Reply to fence {fence}")?;
    heard(rt, s, from_guc(fence, body))
}

// What came of what was heard.
fn heard(rt: &impl Print, s: Site, h: Heard) -> io::Result<Site> {
    let done = stage::wall_reply(s.wall, h);
    let a = done.answer;
    if a.code == 0 {
        println!(rt; ": {}", Answered(a))?;
    } else {
        refused(rt, a.code)?;
    }
    Ok(with_wall(&s, done.wall))
}

// Why a call was refused.
fn refused(rt: &impl Print, code: u32) -> io::Result<()> {
    match reason(code) {
        Some(why) => println!(rt; "{}", Verdict(Some(why))),
        None => println!(rt; ": number {code}"),
    }
}

// The reason that a number of a wall or of its ring stands for.
fn reason(code: u32) -> Option<Refusal>
    ensures { IfSome result (λ why. number why ≡ code) }
{
    match code {
        1 => Some(Refusal::BadDescriptor),
        2 => Some(Refusal::BadBuffer),
        3 => Some(Refusal::BadState),
        4 => Some(Refusal::BadMessage),
        5 => Some(Refusal::ShortOutput),
        6 => Some(Refusal::Broken),
        7 => Some(Refusal::Overflow),
        8 => Some(Refusal::Mismatch),
        9 => Some(Refusal::Underflow),
        10 => Some(Refusal::Full),
        11 => Some(Refusal::Empty),
        12 => Some(Refusal::OutOfTurn),
        13 => Some(Refusal::Malformed),
        14 => Some(Refusal::BadField),
        26 => Some(Refusal::TableFull),
        27 => Some(Refusal::NoRequest),
        28 => Some(Refusal::NoReplyRoom),
        35 => Some(Refusal::BadTable),
        _ => None,
    }
}

// What a reply was to its request.
#[derive(Clone, Copy)]
struct Answered(Answer);

impl fmt::Display for Answered {
    fn fmt<W: fmt::Write>(&self, f: &mut fmt::Formatter<W>) -> fmt::Result {
        let Answered(a) = *self;
        let action = a.action;
        let count = a.count;
        let times = if count == 1 { "time" } else { "times" };
        // (A request or an event is no reply, and never comes to this.)
        let (name, end) = match Type::try_from(a.kind) {
            Ok(Type::Busy) => ("busy", "still open"),
            Ok(Type::Retry) => ("retry", "closed, to be asked anew"),
            Ok(Type::Failure) => ("failure", "closed"),
            Ok(Type::Success) => ("success", "closed"),
            _ => ("no reply", "as it was"),
        };
        write!(f, "{name} for action {action}, busy {count} {times}; {end}")
    }
}

// A request of two dwords: the fence that it got, or why it was not sent.
pub(crate) fn send(rt: &impl Print, s: Site, action: u16, room: u32) -> io::Result<Site> {
    print!(rt; "Send action {action}, {room} dwords set aside")?;
    sent(rt, s, action, room, Type::Request)
}

// The same as a fast request.
pub(crate) fn send_fast(rt: &impl Print, s: Site, action: u16, room: u32) -> io::Result<Site> {
    print!(rt; "Send action {action} as a fast request, {room} dwords set aside")?;
    sent(rt, s, action, room, Type::FastRequest)
}

// A message of two dwords: a header with a fence of the caller's own, 7, which is not the one that goes out, and an HXG
// dword of this type.
fn sent(rt: &impl Print, s: Site, action: u16, room: u32, kind: Type) -> io::Result<Site> {
    let msg = [0x0007_0001, u32::from(kind) << 28 | u32::from(action)];
    let mut sender = s.sender;
    let mut desc = s.desc;
    let mut buf = s.buf;
    let done = stage::wall_send(s.wall, &mut sender, &mut desc, &mut buf, &msg, room);
    let a = done.answer;
    if a.code == 0 {
        println!(rt; ": fence {}", a.fence)?;
    } else {
        refused(rt, a.code)?;
    }
    Ok(Site {
        wall: done.wall,
        sender,
        desc,
        buf,
    })
}

// The site with another wall.
pub(crate) fn with_wall(s: &Site, wall: stage::Wall) -> Site {
    Site {
        wall,
        sender: s.sender,
        desc: s.desc,
        buf: s.buf,
    }
}

// The open records of a wall, each by its place.
pub(crate) fn table(rt: &impl Print, s: &Site) -> io::Result<()> {
    println!(rt; "Open now:")?;
    for (place, r) in s.wall.table.iter().enumerate() {
        if r.is_open != 0 {
            println!(rt;
                "    record {place}: fence {}, action {}, busy {}, {} dwords set aside",
                r.fence, r.action, r.count, r.room
            )?;
        }
    }
    Ok(())
}

// What the ring holds of the first two requests: the fences with which they went out.
pub(crate) fn ring(rt: &impl Print, s: &Site) -> io::Result<()> {
    let first = dword_at(&s.buf, 0) >> 16;
    let second = dword_at(&s.buf, 2) >> 16;
    println!(rt; "In the ring the first request has fence {first}, the second {second}.")
}

// How old a fence is beside the newest one given out.
pub(crate) fn age(rt: &impl Print, s: &Site, fence: u16) -> io::Result<()> {
    let newest = s.wall.words[0];
    let a = stage::age_of(fence, newest);
    let sign = if a.older { '-' } else { '+' };
    println!(rt;
        "Age of fence {fence} beside the newest, {newest}: {sign}{}",
        a.by
    )
}
