// How many files of each class there were.
use crate::verdicts::Class;
use std::fmt;

#[derive(Clone, Copy, Debug, Default, PartialEq, Eq)]
pub(crate) struct Tally {
    good: u64,
    not_good: u64,
    not_judged: u64,
    not_read: u64,
    not_written: bool,
}

impl Tally {
    // Another file, of that class. A count of arguments does not wrap.
    pub(crate) fn add(&mut self, class: Class) {
        match class {
            Class::Good => self.good = self.good.wrapping_add(1),
            Class::NotGood => self.not_good = self.not_good.wrapping_add(1),
            Class::NotJudged => self.not_judged = self.not_judged.wrapping_add(1),
            Class::NotRead => self.not_read = self.not_read.wrapping_add(1),
            Class::NotWritten => self.not_written = true,
        }
    }
}

// The last line, which the script takes its exit status from.
impl fmt::Display for Tally {
    fn fmt<W: fmt::Write>(&self, f: &mut fmt::Formatter<W>) -> fmt::Result {
        let Tally {
            good,
            not_good,
            not_judged,
            not_read,
            not_written,
        } = *self;
        if not_written {
            return f.write_str("fwparts: not written");
        }
        write!(
            f,
            "fwparts: {good} good, {not_good} not good, {not_judged} not judged, {not_read} not read"
        )
    }
}
