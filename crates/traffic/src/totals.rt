// What a record has in all, in words, and how its files ended.
use crate::kinds::{KINDS, Kind};
use crate::run::Recorded;
use record::Direction;
use std::fmt;

// The messages that went one way, and their dwords.
#[derive(Clone, Copy, Debug, Default, PartialEq, Eq)]
pub(crate) struct Way {
    messages: u64,
    dwords: u64,
}

// Messages and dwords each way, messages by type, requests that a reply closed, replies that no request has. Counts of
// what a file has do not wrap.
#[derive(Clone, Copy, Debug, Default, PartialEq, Eq)]
pub(crate) struct Totals {
    sent: Way,
    received: Way,
    kinds: [u64; KINDS],
    closed: u64,
    stray: u64,
}

// Adds to a count.
fn add(count: &mut u64, more: u64) {
    *count = count.wrapping_add(more);
}

impl Way {
    fn add(&mut self, other: Way) {
        add(&mut self.messages, other.messages);
        add(&mut self.dwords, other.dwords);
    }
}

impl Totals {
    // A message more, of that type.
    pub(crate) fn count(&mut self, m: Recorded<'_>, kind: Kind) {
        let one = Way {
            messages: 1,
            dwords: m.dwords.len() as u64,
        };
        match m.direction {
            Direction::Sent => self.sent.add(one),
            Direction::Received => self.received.add(one),
        }
        add(&mut self.kinds[kind.index()], 1);
    }

    // A reply more that closed a request, or that none had.
    pub(crate) fn count_closed(&mut self) {
        add(&mut self.closed, 1);
    }

    pub(crate) fn count_stray(&mut self) {
        add(&mut self.stray, 1);
    }

    // All of another file more.
    pub(crate) fn add(&mut self, other: &Totals) {
        self.sent.add(other.sent);
        self.received.add(other.received);
        add(&mut self.closed, other.closed);
        add(&mut self.stray, other.stray);
        for (count, more) in self.kinds.iter_mut().zip(other.kinds) {
            add(count, more);
        }
    }

    pub(crate) fn messages(&self) -> u64 {
        self.sent.messages.wrapping_add(self.received.messages)
    }

    fn of(&self, kind: Kind) -> u64 {
        self.kinds[kind.index()]
    }
}

// So many of something: what one is called, and any other number of them.
#[derive(Clone, Copy)]
struct Counted(u64, &'static str, &'static str);

impl fmt::Display for Counted {
    fn fmt<W: fmt::Write>(&self, f: &mut fmt::Formatter<W>) -> fmt::Result {
        let Counted(n, one, many) = *self;
        let name = if n == 1 { one } else { many };
        write!(f, "{n} {name}")
    }
}

// The dwords of one way.
fn dwords(way: Way) -> Counted {
    Counted(way.dwords, "dword", "dwords")
}

// Four lines: messages and dwords each way; messages by type, what asks, then what replies; and what belongs together.
impl fmt::Display for Totals {
    fn fmt<W: fmt::Write>(&self, f: &mut fmt::Formatter<W>) -> fmt::Result {
        let all = Counted(self.messages(), "message", "messages");
        let Totals { sent, received, .. } = *self;
        write!(f, "{all}: {} sent ({}), ", sent.messages, dwords(sent))?;
        writeln!(f, "{} received ({})", received.messages, dwords(received))?;

        let requests = Counted(self.of(Kind::Request), "request", "requests");
        let fast = Counted(self.of(Kind::Fast), "fast request", "fast requests");
        let events = Counted(self.of(Kind::Event), "event", "events");
        let malformed = self.of(Kind::Malformed);
        writeln!(f, "{requests}, {fast}, {events}, {malformed} malformed")?;
        let success = self.of(Kind::Success);
        let failure = self.of(Kind::Failure);
        let retry = self.of(Kind::Retry);
        let busy = self.of(Kind::Busy);
        writeln!(
            f,
            "{success} success, {failure} failure, {retry} retry, {busy} busy"
        )?;

        let open = self.of(Kind::Request).wrapping_sub(self.closed);
        let open = Counted(open, "request", "requests");
        let stray = Counted(self.stray, "reply", "replies");
        write!(f, "{open} without a reply; {stray} without a request")
    }
}

// How a file ended.
#[derive(Clone, Copy, Debug, PartialEq, Eq)]
pub(crate) enum Class {
    Whole,
    Damaged,
    NotRead,
}

// The files by how they ended.
#[derive(Clone, Copy, Debug, Default, PartialEq, Eq)]
pub(crate) struct Tally {
    whole: u64,
    damaged: u64,
    not_read: u64,
}

impl Tally {
    pub(crate) fn add(&mut self, class: Class) {
        add(
            match class {
                Class::Whole => &mut self.whole,
                Class::Damaged => &mut self.damaged,
                Class::NotRead => &mut self.not_read,
            },
            1,
        );
    }
}

// The last line, which the script takes its exit status from.
impl fmt::Display for Tally {
    fn fmt<W: fmt::Write>(&self, f: &mut fmt::Formatter<W>) -> fmt::Result {
        let Tally {
            whole,
            damaged,
            not_read,
        } = *self;
        write!(
            f,
            "traffic: {whole} whole, {damaged} damaged, {not_read} not read"
        )
    }
}
