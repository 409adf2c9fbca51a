// For the crew: shows what went over a channel from a record of it, a line a message, with totals. It ends with status 0
// whatever it found; the script ./traffic takes its own from the last line.
#![tactic(auto)]

mod counting;
mod kinds;
mod lines;
mod options;
mod pieces;
mod progress;
mod run;
mod totals;

use counting::Counting;
use options::Asked;
use pieces::{End, Pieces};
use run::Messages;
use say::{Quoted, Reason};
use std::io;
use std::io::{ErrorKind, Read, Seek};
use std::ops::Range;
use std::rt::{Env, Files};
use totals::{Class, Tally, Totals};

// The messages of a piece, as a run: writes their lines, where lines are asked for, and counts them.
fn with_run(
    rt: &(impl Print + AllocGlobal),
    counting: &mut Counting,
    run: &[u32],
    o: Asked,
) -> io::Result<()> {
    if !o.totals_only {
        lines::show_run(rt, rt.alloc(), run, counting.totals.messages(), o.filter)?;
    }
    for m in Messages(run) {
        counting.add(m);
    }
    Ok(())
}

// How the file ended, in a line of its own where it is not whole.
fn ended(rt: &impl Print, pieces: &Pieces, end: End) -> io::Result<Class> {
    match end {
        End::Whole => Ok(Class::Whole),
        End::Unread(error) => {
            let front = pieces.front();
            println!(rt; "NOT READ from byte {front} on: {}", Reason(error))?;
            Ok(Class::NotRead)
        }
        End::Damaged { fault, at } => {
            println!(rt; "DAMAGED at byte {at}: {fault}")?;
            Ok(Class::Damaged)
        }
    }
}

// Goes through an open file, and answers how it ended, and its totals as far as it was read. A proved loop has to end,
// and nothing says that a file does: the loop has more turns than any run uses up.
fn through(
    rt: &(impl Print + Eprint + AllocGlobal),
    file: &mut (impl Read + Seek),
    o: Asked,
) -> io::Result<(Class, Totals)> {
    let size = if o.progress { progress::size(file) } else { 0 };
    let mut pieces = Pieces::new(rt.alloc())?;
    let mut counting = Counting::new(rt.alloc())?;
    let mut end = None;
    for _ in 0..u64::MAX {
        if end.is_some() {
            break;
        }
        let before = pieces.front();
        end = pieces.read_on(file);
        with_run(rt, &mut counting, pieces.run(), o)?;
        if o.progress {
            progress::say_at(rt, before, pieces.front(), size);
        }
    }
    if o.progress {
        progress::take_away(rt, pieces.front());
    }
    let class = ended(rt, &pieces, end.unwrap_or(End::Whole))?;
    Ok((class, counting.totals))
}

// An open file, and its totals in words.
fn opened(
    rt: &(impl Print + Eprint + AllocGlobal),
    file: &mut (impl Read + Seek),
    o: Asked,
) -> io::Result<(Class, Totals)> {
    let (class, totals) = through(rt, file, o)?;
    println!(rt; "{totals}")?;
    Ok((class, totals))
}

// A file that cannot be opened, by the system's error.
fn unread(rt: &impl Print, error: ErrorKind) -> io::Result<(Class, Totals)> {
    println!(rt; "NOT READ: {}", Reason(error))?;
    Ok((Class::NotRead, Totals::default()))
}

// The file that word i names, behind its name.
fn file(
    rt: &(impl Print + Eprint + Files + Env + AllocGlobal),
    i: usize,
    o: Asked,
) -> io::Result<(Class, Totals)> {
    let mut room = say::room();
    let Some(name) = say::whole_word(rt, i, &mut room) else {
        return unread(rt, ErrorKind::InvalidFilename);
    };
    println!(rt; "{}", Quoted(name))?;
    match say::open(rt, i, name) {
        Ok(mut file) => opened(rt, &mut file, o),
        Err(e) => unread(rt, e.kind()),
    }
}

// Every file, and where they are several the totals over all.
fn all(
    rt: &(impl Print + Eprint + Files + Env + AllocGlobal),
    files: Range<usize>,
    o: Asked,
) -> io::Result<Tally> {
    let several = 1 < files.len();
    let mut sums = Totals::default();
    let mut tally = Tally::default();
    for i in files {
        let (class, totals) = file(rt, i, o)?;
        sums.add(&totals);
        tally.add(class);
        println!(rt; "")?;
    }
    if several {
        println!(rt; "All files\n{sums}\n")?;
    }
    Ok(tally)
}

fn main(rt: HostRuntime) -> io::Result<()> {
    match options::read(&rt) {
        Ok((files, asked)) => println!(rt; "{}", all(&rt, files, asked)?),
        Err(_) => {
            let _ = eprintln!(rt; "usage: traffic [--fence F] [--type NAME] [--totals] FILE..");
            println!(rt; "traffic: wrong usage")
        }
    }
}
