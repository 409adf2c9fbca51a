// A part written to a new file: of the very bytes that were judged good in this run.
use crate::options::Wanted;
use crate::verdicts::Class;
use firmware::Component;
use refusal::Refusal;
use say::{Numbered, Quoted, Reason};
use std::fs::{OpenFile, OpenOptions};
use std::io::Write;
use std::rt::{Env, Files};
use std::{fmt, fs, io};

// A part by its name: a component of the image, or an entry of the directory.
#[derive(Clone, Copy)]
enum Part<'a> {
    Component(Component),
    Entry(&'a [u8]),
}

impl<'a> fmt::Display for Part<'a> {
    fn fmt<W: fmt::Write>(&self, f: &mut fmt::Formatter<W>) -> fmt::Result {
        match *self {
            Part::Component(which) => write!(f, "{}", say::Named(which)),
            Part::Entry(name) => write!(f, "entry {}", Quoted(name)),
        }
    }
}

// Writes a part of a file to a new one, by the words that name the two.
pub(crate) fn extract(
    rt: &(impl Print + Files + Env),
    blob: &[u8],
    wanted: Wanted,
) -> io::Result<Class> {
    let mut room = say::room();
    let name = say::word(rt, wanted.name, &mut room);
    match part_named(blob, name) {
        Ok(Some(part)) => written(rt, part, bytes(blob, part), wanted.out),
        Ok(None) => {
            println!(rt; "  not written: no part has the name {}", Quoted(name))?;
            Ok(Class::NotWritten)
        }
        Err(why) => {
            println!(rt; "  not written: {}: {}", Quoted(name), Numbered(why))?;
            Ok(Class::NotWritten)
        }
    }
}

// The part of that name: an entry of a directory, or a component of the image, also of the one in a directory. Of entries
// that share a name none is the one.
fn part_named<'a>(blob: &[u8], name: &'a [u8]) -> Result<Option<Part<'a>>, Refusal> {
    if firmware::cpd_marker(blob) {
        match firmware::cpd_answer(blob, name) {
            Ok(()) => return Ok(Some(Part::Entry(name))),
            Err(Refusal::DuplicateEntry) => return Err(Refusal::DuplicateEntry),
            Err(_) => (),
        }
    }
    match component_named(name) {
        Some(which) => Ok(Some(Part::Component(which))),
        None => Ok(None),
    }
}

fn component_named(name: &[u8]) -> Option<Component> {
    match name {
        b"ucode" => Some(Component::Ucode),
        b"rsa" => Some(Component::Rsa),
        b"modulus" => Some(Component::Modulus),
        b"exponent" => Some(Component::Exponent),
        _ => None,
    }
}

// A part's bytes; none where it is not in the file.
fn bytes<'a>(blob: &'a [u8], part: Part<'_>) -> &'a [u8] {
    match part {
        Part::Entry(name) => firmware::cpd_part(blob, name),
        Part::Component(which) if firmware::cpd_marker(blob) => firmware::huc_part(blob, which),
        Part::Component(which) => firmware::css_part(blob, which),
    }
}

// Writes the bytes of a part to the file that word `out` names.
fn written(
    rt: &(impl Print + Files + Env),
    part: Part<'_>,
    bytes: &[u8],
    out: usize,
) -> io::Result<Class> {
    if bytes.is_empty() {
        println!(rt; "  not written: nothing is in the file of {part}")?;
        return Ok(Class::NotWritten);
    }
    let mut room = say::room();
    let path = say::word(rt, out, &mut room);
    let quoted = Quoted(path);
    if let Err(e) = stored(rt, bytes, path) {
        println!(rt; "  not written, to {quoted}: {}", Reason(e.kind()))?;
        return Ok(Class::NotWritten);
    }
    let n = bytes.len();
    println!(rt; "  written: {n} bytes of {part}, to {quoted}")?;
    Ok(Class::Good)
}

// Stores the bytes in a file that is new: one that is there is never overwritten, and one that is not written whole is
// removed.
fn stored(rt: &impl Files, bytes: &[u8], name: &[u8]) -> io::Result<()> {
    let path = say::path(name)?;
    let mut file = OpenOptions::new()
        .write(true)
        .create_new(true)
        .open(rt, path)?;
    let written = put(&mut file, bytes);
    if written.is_err() {
        let _ = fs::remove_file(rt, path);
    }
    written
}

// Writes all of it. What the system tells only when a file is closed, which std does not pass on, it tells here.
fn put(file: &mut (impl Write + OpenFile), bytes: &[u8]) -> io::Result<()> {
    file.write_all(bytes)?;
    file.sync_all()
}
