// Reading a file whole, or saying why not.
use crate::verdicts::Class;
use say::Reason;
use std::io::{ErrorKind, Read};
use std::{fmt, io};

// The longest file that is read: 4 MiB, of a stack of 8.
const MOST: usize = 4194304;

// Room for the longest file that is read.
pub(crate) fn room() -> [u8; MOST] {
    [0u8; MOST]
}

// Why a file was not read whole.
#[derive(Clone, Copy, Debug, PartialEq, Eq)]
pub(crate) enum Unread {
    // it cannot be opened or read
    System(ErrorKind),
    // more follows, where reading stopped ahead of the room's end
    MoreFollows,
    LongerThan(usize),
}

impl From<ErrorKind> for Unread {
    fn from(error: ErrorKind) -> Unread {
        Unread::System(error)
    }
}

impl fmt::Display for Unread {
    fn fmt<W: fmt::Write>(&self, f: &mut fmt::Formatter<W>) -> fmt::Result {
        match self {
            Unread::System(error) => write!(f, "{}", Reason(*error)),
            Unread::MoreFollows => f.write_str("not to its end, try again"),
            Unread::LongerThan(most) => write!(
                f,
                "longer than {most} bytes, the most that is read"
            ),
        }
    }
}

// A file that was not read whole.
pub(crate) fn not_read(rt: &impl Print, why: Unread) -> io::Result<Class> {
    let class = Class::NotRead;
    println!(rt; "{class}: {why}")?;
    Ok(class)
}

// Whether an open file ends after n bytes of as much room.
pub(crate) fn ended(file: &mut impl Read, n: usize, room: usize) -> Result<(), Unread> {
    match file.read(&mut [0u8; 1]) {
        Ok(0) => Ok(()),
        Ok(_) if n < room => Err(Unread::MoreFollows),
        Ok(_) => Err(Unread::LongerThan(room)),
        Err(e) => Err(Unread::System(e.kind())),
    }
}
