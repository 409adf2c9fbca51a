// The options in front of the files.
use crate::versions::Expected;
use say::{Choices, Usage};
use std::ops::Range;
use std::rt::Env;

// A part that is asked for: the word with its name, and the word with the new file's.
#[derive(Clone, Copy, Debug, PartialEq, Eq)]
pub(crate) struct Wanted {
    pub name: usize,
    pub out: usize,
}

// What is asked. Of several files each has a line behind its name.
#[derive(Clone, Copy, Debug, PartialEq, Eq)]
pub(crate) struct Asked {
    pub several: bool,
    pub figures: bool,
    pub expect: Option<Expected>,
    pub part: Option<Wanted>,
}

// The options as they are read.
#[derive(Clone, Copy, Debug, Default, PartialEq, Eq)]
struct Options {
    figures: Option<()>,
    expect: Option<Expected>,
    name: Option<usize>,
    out: Option<usize>,
}

impl Choices for Options {
    fn take(&mut self, rt: &impl Env, option: &[u8], at: usize) -> Result<usize, Usage> {
        let behind = at.wrapping_add(1);
        match option {
            b"--figures" => {
                say::once(&mut self.figures, ())?;
                return Ok(at);
            }
            b"--expect" => {
                let mut room = say::room();
                let version = Expected::of_word(say::word(rt, at, &mut room)).ok_or(Usage)?;
                say::once(&mut self.expect, version)?;
            }
            b"--part" => say::once(&mut self.name, at)?,
            b"--out" => say::once(&mut self.out, at)?,
            _ => return Err(Usage),
        }
        Ok(behind)
    }
}

// The files of this run, by their words, and what is asked of them. Figures are shown of a single file, and of several
// where they are asked for; a part is of one file.
pub(crate) fn read(rt: &impl Env) -> Result<(Range<usize>, Asked), Usage> {
    let mut o = Options::default();
    let files = say::files(rt, &mut o)?;
    let several = 1 < files.len();
    let part = match (o.name, o.out) {
        (None, None) => None,
        (Some(name), Some(out)) if !several => Some(Wanted { name, out }),
        _ => return Err(Usage),
    };
    let asked = Asked {
        several,
        figures: !several || o.figures.is_some(),
        expect: o.expect,
        part,
    };
    Ok((files, asked))
}
