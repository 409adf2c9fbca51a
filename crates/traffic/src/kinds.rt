// What a message is: its type and its fields, or what is malformed in it.
ghost use Rattle.std.specs.Prelude.{◌<◌};

use message::{Body, dword_at};
use std::fmt;

// The types, and what no type has: a malformed message.
#[derive(Clone, Copy, Debug, PartialEq, Eq)]
pub(crate) enum Kind {
    Request,
    Event,
    Fast,
    Busy,
    Malformed,
    Retry,
    Failure,
    Success,
}

// How many they are.
pub(crate) const KINDS: usize = 8;

impl Kind {
    const ALL: [Kind; KINDS] = [
        Kind::Request,
        Kind::Event,
        Kind::Fast,
        Kind::Busy,
        Kind::Malformed,
        Kind::Retry,
        Kind::Failure,
        Kind::Success,
    ];

    // Its place among all.
    pub(crate) fn index(self) -> usize
        ensures { result < 8 }
    {
        self as usize
    }

    pub(crate) fn name(self) -> &'static str {
        match self {
            Kind::Request => "request",
            Kind::Event => "event",
            Kind::Fast => "fast",
            Kind::Busy => "busy",
            Kind::Malformed => "malformed",
            Kind::Retry => "retry",
            Kind::Failure => "failure",
            Kind::Success => "success",
        }
    }

    // The kind that a word names.
    pub(crate) fn named(word: &[u8]) -> Option<Kind> {
        Kind::ALL
            .into_iter()
            .find(|kind| kind.name().as_bytes() == word)
    }
}

// What is malformed in a message whose header agrees with its length.
#[derive(Clone, Copy, Debug, PartialEq, Eq)]
pub(crate) enum Wrong {
    NoSecondDword,
    Format,
    Reserved,
    UnknownType,
}

impl Wrong {
    // By the header; where nothing is wrong in it, it is the type.
    fn of(header: u32) -> Wrong {
        if header % 0x100 == 0 {
            Wrong::NoSecondDword
        } else if header / 0x1000 % 0x10 != 0 {
            Wrong::Format
        } else if header / 0x100 % 0x10 != 0 {
            Wrong::Reserved
        } else {
            Wrong::UnknownType
        }
    }
}

impl fmt::Display for Wrong {
    fn fmt<W: fmt::Write>(&self, f: &mut fmt::Formatter<W>) -> fmt::Result {
        f.write_str(match self {
            Wrong::NoSecondDword => "(no second dword)",
            Wrong::Format => "(format is not 0)",
            Wrong::Reserved => "(reserved is not 0)",
            Wrong::UnknownType => "(unknown type 4)",
        })
    }
}

// A message's fence, and what it carries or what is wrong.
#[derive(Clone, Copy)]
pub(crate) struct Meaning {
    pub fence: u32,
    pub body: Result<Body, Wrong>,
}

impl Meaning {
    // That of a message of a record.
    pub(crate) fn of(msg: &[u32]) -> Meaning {
        match message::unpack(msg) {
            Ok(m) => Meaning {
                fence: m.fence,
                body: Ok(m.body),
            },
            Err(_) => {
                let header = dword_at(msg, 0);
                Meaning {
                    fence: header >> 16,
                    body: Err(Wrong::of(header)),
                }
            }
        }
    }

    pub(crate) fn kind(self) -> Kind {
        match self.body {
            Ok(Body::Request { .. }) => Kind::Request,
            Ok(Body::Event { .. }) => Kind::Event,
            Ok(Body::FastRequest { .. }) => Kind::Fast,
            Ok(Body::Busy { .. }) => Kind::Busy,
            Ok(Body::Retry { .. }) => Kind::Retry,
            Ok(Body::Failure { .. }) => Kind::Failure,
            Ok(Body::Success { .. }) => Kind::Success,
            Err(_) => Kind::Malformed,
        }
    }
}

// The fields in words, or what is malformed.
impl fmt::Display for Meaning {
    fn fmt<W: fmt::Write>(&self, f: &mut fmt::Formatter<W>) -> fmt::Result {
        match self.body {
            Ok(
                Body::Request { data, action }
                | Body::Event { data, action }
                | Body::FastRequest { data, action },
            ) => write!(f, "action 0x{action:04x} data {data}"),
            Ok(Body::Busy { counter }) => write!(f, "counter {counter}"),
            Ok(Body::Retry { reason }) => write!(f, "reason {reason}"),
            Ok(Body::Failure { hint, error }) => write!(f, "error 0x{error:04x} hint {hint}"),
            Ok(Body::Success { data }) => write!(f, "data {data}"),
            Err(wrong) => write!(f, "{wrong}"),
        }
    }
}
