// For the crew: says of each firmware file whether it is good to load, with the figures behind the verdict, and writes
// out a part of a good one. It ends with status 0 whatever it found; the script ./fwparts takes its own from the last
// line.
#![tactic(auto)]

mod directory;
mod image;
mod kinds;
mod options;
mod output;
mod reading;
mod sharing;
mod tally;
mod verdicts;
mod versions;

use image::Named;
use options::Asked;
use reading::Unread;
use say::Quoted;
use std::io;
use std::io::{ErrorKind, Read};
use std::ops::Range;
use std::rt::{Env, Files};
use tally::Tally;
use verdicts::Class;

// What the bytes of a file are. The marker $CPD makes a file a directory, good or not.
fn report(rt: &impl Print, blob: &[u8], named: Named, o: &Asked) -> io::Result<Class> {
    if firmware::cpd_marker(blob) {
        let class = directory::verdict(rt, blob, named, o)?;
        if o.figures {
            directory::figures(rt, blob)?;
        }
        Ok(class)
    } else {
        let class = image::verdict(rt, blob, named, o)?;
        if o.figures {
            image::figures(rt, blob, class)?;
        }
        Ok(class)
    }
}

// The verdict on the bytes of a file, and then a part of those bytes, where one is asked for and the file is good.
fn judge(
    rt: &(impl Print + Files + Env),
    blob: &[u8],
    named: Named,
    o: &Asked,
) -> io::Result<Class> {
    let class = report(rt, blob, named, o)?;
    match o.part {
        None => Ok(class),
        Some(part) if class == Class::Good => output::extract(rt, blob, part),
        Some(_) => {
            println!(rt; "  nothing written: only of a file that is good")?;
            Ok(class)
        }
    }
}

// Reads an open file into the room lent, and judges what was read.
fn read_and_judge(
    rt: &(impl Print + Files + Env),
    file: &mut impl Read,
    room: &mut [u8],
    named: Named,
    o: &Asked,
) -> io::Result<Class> {
    // What stops it is what the next read says.
    let n = say::fill(file, room, 0).n;
    match reading::ended(file, n, room.len()) {
        Ok(()) => judge(rt, &room[..n], named, o),
        Err(why) => reading::not_read(rt, why),
    }
}

// An open file, read into room of its own.
fn opened(
    rt: &(impl Print + Files + Env),
    file: &mut impl Read,
    named: Named,
    o: &Asked,
) -> io::Result<Class> {
    let mut room = reading::room();
    read_and_judge(rt, file, &mut room, named, o)
}

// The file that word i names.
fn file(rt: &(impl Print + Files + Env + AllocGlobal), i: usize, o: &Asked) -> io::Result<Class> {
    let mut room = say::room();
    let Some(name) = say::whole_word(rt, i, &mut room) else {
        return reading::not_read(rt, Unread::System(ErrorKind::InvalidFilename));
    };
    if o.several {
        print!(rt; "{}: ", Quoted(name))?;
    }
    match say::open(rt, i, name) {
        Ok(mut file) => opened(rt, &mut file, Named::by(name), o),
        Err(e) => reading::not_read(rt, Unread::System(e.kind())),
    }
}

// Every file.
fn all(
    rt: &(impl Print + Files + Env + AllocGlobal),
    files: Range<usize>,
    o: &Asked,
) -> io::Result<Tally> {
    let mut tally = Tally::default();
    for i in files {
        tally.add(file(rt, i, o)?);
    }
    Ok(tally)
}

fn main(rt: HostRuntime) -> io::Result<()> {
    match options::read(&rt) {
        Ok((files, asked)) => println!(rt; "{}", all(&rt, files, &asked)?),
        Err(_) => {
            let _ = eprintln!(rt;
                "usage: fwparts [--figures] [--expect VERSION] [--part NAME --out FILE] FILE.."
            );
            println!(rt; "fwparts: wrong usage")
        }
    }
}
