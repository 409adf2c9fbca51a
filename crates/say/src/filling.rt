// Reading into room that is lent.
ghost use Rattle.std.specs.Prelude.{◌≡◌, ◌≤◌, length};

use std::io::{ErrorKind, Read};

// Why no more is read: the room is full, or the file ends, or the system says no.
#[derive(Clone, Copy, Debug, PartialEq, Eq)]
pub enum Stop {
    Full,
    End,
    Error(ErrorKind),
}

// How many bytes the room holds, and why no more.
#[derive(Clone, Copy, Debug, PartialEq, Eq)]
pub struct Filled {
    pub n: usize,
    pub stop: Stop,
}

// Reads on behind the bytes that the room holds already, up to its end or the file's.
pub fn fill(file: &mut impl Read, room: &mut [u8], kept: usize) -> Filled
    ensures { result.n ≤ length room.new }
{
    let mut n = kept.min(room.len());
    while n < room.len() {
        match file.read(&mut room[n..]) {
            Ok(0) => return stopped(n, Stop::End),
            Ok(more) => n += more,
            Err(e) => return stopped(n, Stop::Error(e.kind())),
        }
    }
    stopped(n, Stop::Full)
}

fn stopped(n: usize, stop: Stop) -> Filled
    ensures { result.n ≡ n }
{
    Filled { n, stop }
}
