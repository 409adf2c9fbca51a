// The classes of a file, and the lines that give one.
use firmware::Figures;
use refusal::Refusal;
use std::{fmt, io};

// What a file is, or what came of it: a part that was asked for can be not written though its file is good.
#[derive(Clone, Copy, Debug, PartialEq, Eq)]
pub(crate) enum Class {
    Good,
    NotGood,
    NotJudged,
    NotRead,
    NotWritten,
}

// As a verdict line starts.
impl fmt::Display for Class {
    fn fmt<W: fmt::Write>(&self, f: &mut fmt::Formatter<W>) -> fmt::Result {
        f.write_str(match self {
            Class::Good => "GOOD to load",
            Class::NotGood => "NOT GOOD",
            Class::NotJudged => "NOT JUDGED",
            Class::NotRead => "NOT READ",
            Class::NotWritten => "NOT WRITTEN",
        })
    }
}

// A file that is refused: the sentence, and the number.
pub(crate) fn refused(rt: &impl Print, why: Refusal) -> io::Result<Class> {
    refused_part(rt, "", why)
}

// The same of a part in a directory, behind its name.
pub(crate) fn refused_part(rt: &impl Print, part: &str, why: Refusal) -> io::Result<Class> {
    let class = Class::NotGood;
    println!(rt; "{class}: {part}{why} ({})", why.number())?;
    Ok(class)
}

// Bytes needed and there, in a line of its own where some are missing.
pub(crate) fn shortage(rt: &impl Print, f: Figures) -> io::Result<()> {
    let Figures { needed, there, .. } = f;
    if there < needed {
        println!(rt; "  needs {needed} bytes, has {there}")?;
    }
    Ok(())
}
