// What a call answered, as it follows the call's name.
ghost use Rattle.std.specs.Prelude.{◌≡◌, MatchOption};
ghost use Rattle.refusal.specs.Numbers.{number, number_of};

use crate::numbers::Numbered;
use refusal::Refusal;
use std::fmt;

// Accepted; or, in a line of its own, the reason that refuses.
#[derive(Clone, Copy, Debug, PartialEq, Eq)]
pub struct Verdict(pub Option<Refusal>);

impl Verdict {
    // That of an answer.
    pub fn of<T>(answer: &Result<T, Refusal>) -> Verdict
        ensures { MatchOption result.0 (number_of answer.now ≡ 0) (λ why. number_of answer.now ≡ number why) }
    {
        match answer {
            Ok(_) => Verdict(None),
            Err(why) => Verdict(Some(*why)),
        }
    }
}

impl fmt::Display for Verdict {
    fn fmt<W: fmt::Write>(&self, f: &mut fmt::Formatter<W>) -> fmt::Result {
        let Verdict(Some(why)) = *self else {
            return f.write_str(": accepted");
        };
        let how = match why {
            Refusal::Malformed => "passed over",
            _ => "REFUSED",
        };
        write!(f, "\n    {how} by {}", Numbered(why))
    }
}

// What a receive laid in its output, which is as due or not: a message by its header, and how many dwords.
#[derive(Clone, Copy, Debug, PartialEq, Eq)]
pub struct Laid {
    pub as_due: bool,
    pub len: usize,
    pub header: u32,
}

impl fmt::Display for Laid {
    fn fmt<W: fmt::Write>(&self, f: &mut fmt::Formatter<W>) -> fmt::Result {
        let len = self.len;
        if !self.as_due {
            f.write_str(", OUTPUT WRONG")
        } else if len == 0 {
            f.write_str(", output unchanged")
        } else {
            let fence = self.header >> 16;
            write!(f, " message {fence}, length {len}, as sent dword for dword")
        }
    }
}
