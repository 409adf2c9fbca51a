// Reasons and STATUS by their numbers, with what each means.
use refusal::Refusal;
use std::fmt;

// A reason by its number and its sentence: 11 (nothing pending).
#[derive(Clone, Copy, Debug, PartialEq, Eq)]
pub struct Numbered(pub Refusal);

impl fmt::Display for Numbered {
    fn fmt<W: fmt::Write>(&self, f: &mut fmt::Formatter<W>) -> fmt::Result {
        let why = self.0;
        write!(f, "{} ({why})", why.number())
    }
}

// A STATUS and what it means: 0 (good).
#[derive(Clone, Copy, Debug, PartialEq, Eq)]
pub struct Status(pub u32);

impl fmt::Display for Status {
    fn fmt<W: fmt::Write>(&self, f: &mut fmt::Formatter<W>) -> fmt::Result {
        let status = self.0;
        let meaning = match status {
            0 => "good",
            1 => "overflow",
            2 => "underflow",
            4 => "mismatch",
            8 => "unused",
            _ => "broken",
        };
        write!(f, "{status} ({meaning})")
    }
}
