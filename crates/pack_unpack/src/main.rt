// Prints how messages unpack and how they pack, a few lines each, refused ones among them.
#![tactic(auto)]

use message::{Body, Message, Origin};
use say::Verdict;
use std::{fmt, io};

fn main(rt: HostRuntime) -> io::Result<()> {
    well_formed_messages(&rt)?;
    malformed_messages(&rt)?;
    packed_messages(&rt)?;
    unfit_messages(&rt)
}

fn well_formed_messages(rt: &impl Print) -> io::Result<()> {
    println!(rt; "Well-formed messages, by their first two dwords and their length")?;
    unpacks(rt, &[0x1234_0001, 0x00ab_4567])?;
    unpacks(rt, &[0x0007_0004, 0x9001_1000, 1, 2, 3])?;
    unpacks(rt, &[0x1234_0001, 0x20ab_4601])?;
    unpacks(rt, &[0x1234_0001, 0xb000_0005])?;
    unpacks(rt, &[0x1234_0001, 0xd000_0001])?;
    unpacks(rt, &[0x1234_0001, 0xe0ab_0010])?;
    unpacks(rt, &[0x1234_0001, 0xf000_0000])?;
    longest(rt)
}

// 256 dwords, and all bits set that may be.
fn longest(rt: &impl Print) -> io::Result<()> {
    let mut dwords = [0u32; 256];
    dwords[0] = 0xffff_00ff;
    dwords[1] = 0x7fff_ffff;
    unpacks(rt, &dwords)
}

fn malformed_messages(rt: &impl Print) -> io::Result<()> {
    print!(rt; "\nMalformed messages\nType 4: ")?;
    unpacks(rt, &[0x1234_0001, 0x4000_0000])?;
    print!(rt; "Format 1: ")?;
    unpacks(rt, &[0x1234_1001, 0])?;
    print!(rt; "A reserved bit: ")?;
    unpacks(rt, &[0x1234_0101, 0])?;
    print!(rt; "NUM_DWORDS 0: ")?;
    unpacks(rt, &[0x1234_0000])?;
    print!(rt; "A dword short: ")?;
    unpacks(rt, &[0x1234_0002, 0])?;
    print!(rt; "A dword too many: ")?;
    unpacks(rt, &[0x1234_0001, 0, 0])?;
    unpacks(rt, &[])
}

fn packed_messages(rt: &impl Print) -> io::Result<()> {
    println!(rt; "\nPacked")?;
    packs(rt, host(0x1234, 1, request(0, 0x10)))?;
    packs(rt, guc(0x1234, 2, event(1, 0x1000)))?;
    packs(rt, host(0x1234, 1, fast_request(0x0ab, 0x4601)))?;
    packs(rt, guc(0x1234, 1, Body::Busy { counter: 5 }))?;
    packs(rt, guc(0x1234, 1, Body::Retry { reason: 1 }))?;
    packs(rt, guc(0x1234, 1, failure(0x0ab, 0x10)))?;
    packs(rt, guc(0x1234, 1, Body::Success { data: 0 }))?;
    packs(rt, guc(0xffff, 255, request(0xfff, 0xffff)))
}

fn unfit_messages(rt: &impl Print) -> io::Result<()> {
    let busy = Body::Busy {
        counter: 0x1000_0000,
    };
    let reply = Body::Success { data: 0 };
    println!(rt; "\nNot to be packed")?;
    packs(rt, host(0x1234, 1, request(0x1000, 0)))?;
    packs(rt, host(0x1234, 1, event(0, 0x1_0000)))?;
    packs(rt, host(0x1234, 1, fast_request(0x1000, 0x4601)))?;
    packs(rt, guc(0x1234, 1, busy))?;
    packs(rt, guc(0x1234, 1, failure(0, 0x1_0000)))?;
    packs(rt, guc(0x1_0000, 1, reply))?;
    packs(rt, guc(0x1234, 0, reply))?;
    packs(rt, guc(0x1234, 256, reply))
}

fn request(data: u32, action: u32) -> Body {
    Body::Request { data, action }
}

fn event(data: u32, action: u32) -> Body {
    Body::Event { data, action }
}

fn fast_request(data: u32, action: u32) -> Body {
    Body::FastRequest { data, action }
}

fn failure(hint: u32, error: u32) -> Body {
    Body::Failure { hint, error }
}

// A message of the host, and one of the GuC.
fn host(fence: u32, num_dwords: u32, body: Body) -> Message {
    Message {
        origin: Origin::Host,
        fence,
        num_dwords,
        body,
    }
}

fn guc(fence: u32, num_dwords: u32, body: Body) -> Message {
    Message {
        origin: Origin::Guc,
        fence,
        num_dwords,
        body,
    }
}

// The first two dwords and the length; then the message and what it packs to again, or the refusal.
fn unpacks(rt: &impl Print, dwords: &[u32]) -> io::Result<()> {
    print!(rt; "{}", Begun(dwords))?;
    match message::unpack(dwords) {
        Ok(m) => {
            print!(rt; "\n    ")?;
            packs(rt, m)
        }
        Err(why) => println!(rt; "{}", Verdict(Some(why))),
    }
}

// As many of a message's first two dwords as there are, and its length.
#[derive(Clone, Copy)]
struct Begun<'a>(&'a [u32]);

impl<'a> fmt::Display for Begun<'a> {
    fn fmt<W: fmt::Write>(&self, f: &mut fmt::Formatter<W>) -> fmt::Result {
        let len = self.0.len();
        match *self.0 {
            [] => f.write_str("No dwords at all"),
            [first] => write!(f, "{first:#010x}, length {len}"),
            [first, second, ..] => write!(f, "{first:#010x} {second:#010x}, length {len}"),
        }
    }
}

// A message and what it packs to, or the refusal.
fn packs(rt: &impl Print, m: Message) -> io::Result<()> {
    print!(rt; "{}", Described(m))?;
    match message::pack(m) {
        Ok((header, word)) => println!(rt; "\n    packs to {header:#010x} {word:#010x}"),
        Err(why) => println!(rt; "{}", Verdict(Some(why))),
    }
}

// Who sent a message, what it carries, its fence and its NUM_DWORDS.
#[derive(Clone, Copy)]
struct Described(Message);

impl fmt::Display for Described {
    fn fmt<W: fmt::Write>(&self, f: &mut fmt::Formatter<W>) -> fmt::Result {
        let Message {
            origin,
            fence,
            num_dwords,
            body,
        } = self.0;
        let origin = match origin {
            Origin::Host => "host",
            Origin::Guc => "GuC",
        };
        let carried = Carried(body);
        write!(
            f,
            "{origin} {carried}, fence {fence:#010x}, NUM_DWORDS {num_dwords}"
        )
    }
}

// A body by its type and fields.
#[derive(Clone, Copy)]
struct Carried(Body);

impl fmt::Display for Carried {
    fn fmt<W: fmt::Write>(&self, f: &mut fmt::Formatter<W>) -> fmt::Result {
        match self.0 {
            Body::Request { data, action } => {
                write!(f, "request, data {data:#010x}, action {action:#010x}")
            }
            Body::Event { data, action } => {
                write!(f, "event, data {data:#010x}, action {action:#010x}")
            }
            Body::FastRequest { data, action } => {
                write!(f, "fast request, data {data:#010x}, action {action:#010x}")
            }
            Body::Busy { counter } => write!(f, "busy, counter {counter:#010x}"),
            Body::Retry { reason } => write!(f, "retry, reason {reason:#010x}"),
            Body::Failure { hint, error } => {
                write!(f, "failure, hint {hint:#010x}, error {error:#010x}")
            }
            Body::Success { data } => write!(f, "success, data {data:#010x}"),
        }
    }
}
