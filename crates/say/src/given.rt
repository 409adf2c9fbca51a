// Words that a program is given, which need not be text, and the files that they name.
ghost use Rattle.std.specs.Prelude.{◌≡◌, length, MatchResult, IsUtf8};

use std::env::FillError;
use std::fs::File;
use std::io::ErrorKind;
use std::rt::{Env, Files};
use std::{env, io};

// Room for a word. A longer one is no option, no value of one, and no name that the system takes.
pub fn room() -> [u8; 4096]
    ensures { length result ≡ 4096 }
{
    [0u8; 4096]
}

// Word i, where there is one and it is not longer than the room.
pub fn whole_word<'a>(rt: &impl Env, i: usize, room: &'a mut [u8]) -> Option<&'a [u8]> {
    match rt.arg(i, room) {
        Ok(n) => Some(&room[..n]),
        Err(_) => None,
    }
}

// The same, and no bytes where there is none.
pub fn word<'a>(rt: &impl Env, i: usize, room: &'a mut [u8]) -> &'a [u8] {
    whole_word(rt, i, room).unwrap_or(&[])
}

// How many words there are, the program's own name among them.
pub fn word_count(rt: &impl Env) -> usize {
    for i in 1..usize::MAX {
        if let Err(FillError::NotPresent) = rt.arg(i, &mut []) {
            return i;
        }
    }
    usize::MAX
}

// A file's name as std takes it: the name itself, exactly where it is text.
pub fn path(name: &[u8]) -> io::Result<&str>
    ensures { MatchResult result (λ text. (text.now ≡ name.now) × IsUtf8 name.now)
        (λ _. ¬ (IsUtf8 name.now)) }
{
    match str::from_utf8(name) {
        Ok(text) => Ok(text),
        Err(_) => Err(io::Error::from(ErrorKind::InvalidData)),
    }
}

// Opens the file that word i names. For a name that is no text the script that runs the program lends a link to the
// file, by the word's number, in the folder that it says in FILE_LINKS.
pub fn open<R: Files + Env + AllocGlobal>(rt: &R, i: usize, name: &[u8]) -> io::Result<R::File> {
    match path(name) {
        Ok(text) => File::open(rt, text),
        Err(e) => match env::var(rt, "FILE_LINKS") {
            Ok(folder) => File::open(rt, format!(in rt.alloc(); "{folder}/{i}")?.as_str()),
            Err(_) => Err(e),
        },
    }
}
