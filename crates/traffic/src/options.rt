// The options in front of the files.
use crate::kinds::{Kind, Meaning};
use say::{Choices, Usage};
use std::ops::Range;
use std::rt::Env;

// Which messages are shown: those with this fence and of this type. None lets all through.
#[derive(Clone, Copy, Debug, Default, PartialEq, Eq)]
pub(crate) struct Filter {
    fence: Option<u16>,
    kind: Option<Kind>,
}

impl Filter {
    pub(crate) fn passes(self, m: Meaning) -> bool {
        self.fence.is_none_or(|fence| u32::from(fence) == m.fence)
            && self.kind.is_none_or(|kind| kind == m.kind())
    }
}

// What is asked. Whether somebody looks on, so that progress is shown, the script knows.
#[derive(Clone, Copy, Debug, Default, PartialEq, Eq)]
pub(crate) struct Asked {
    pub totals_only: bool,
    pub progress: bool,
    pub filter: Filter,
}

impl Choices for Asked {
    fn take(&mut self, rt: &impl Env, option: &[u8], at: usize) -> Result<usize, Usage> {
        let mut room = say::room();
        let behind = at.wrapping_add(1);
        match option {
            b"--fence" => {
                let fence = fence(say::word(rt, at, &mut room)).ok_or(Usage)?;
                say::once(&mut self.filter.fence, fence)?;
                Ok(behind)
            }
            b"--type" => {
                let kind = Kind::named(say::word(rt, at, &mut room)).ok_or(Usage)?;
                say::once(&mut self.filter.kind, kind)?;
                Ok(behind)
            }
            b"--totals" if !self.totals_only => {
                self.totals_only = true;
                Ok(at)
            }
            b"--progress" => {
                self.progress = true;
                Ok(at)
            }
            _ => Err(Usage),
        }
    }
}

// The fence that a word is, in decimal, or in hexadecimal behind 0x.
fn fence(word: &[u8]) -> Option<u16> {
    let word = str::from_utf8(word).ok()?;
    match word.strip_prefix("0x") {
        Some(digits) => say::hexadecimal(digits),
        None => say::decimal(word),
    }
}

// The files of this run, by their words, and what is asked of them. A filter has no line to pass where only totals are
// asked.
pub(crate) fn read(rt: &impl Env) -> Result<(Range<usize>, Asked), Usage> {
    let mut asked = Asked::default();
    let files = say::files(rt, &mut asked)?;
    if asked.totals_only && asked.filter != Filter::default() {
        return Err(Usage);
    }
    Ok((files, asked))
}
