// What can be wrong with a record, in the paper's order.
ghost use Rattle.std.specs.Prelude.{◌≡◌};
ghost use Rattle.record.specs.Faults.{figure};

use std::fmt;

// What is wrong at the place that a 29 names. The figures are ours; C has them too, with 0 for nothing wrong.
#[derive(Clone, Copy, Debug, PartialEq, Eq)]
pub enum Fault {
    // 'one unfinished ..'
    Unfinished = 1,
    // '.. or missing inside a message', 'a run that ends early'
    Missing = 2,
    // 'a form too long'
    TooLong = 3,
    // 'a number above 32 bits'
    TooWide = 4,
    // 'a direction above 1'
    BadDirection = 5,
    // 'an L outside its limits'
    BadLength = 6,
    // 'a header that disagrees with L'
    BadHeader = 7,
}

impl Fault {
    // Its figure.
    pub fn number(self) -> u32
        ensures { result ≡ figure self }
    {
        self as u32
    }
}

// In a sentence, of a file.
impl fmt::Display for Fault {
    fn fmt<W: fmt::Write>(&self, f: &mut fmt::Formatter<W>) -> fmt::Result {
        f.write_str(match self {
            Fault::Unfinished => "the file ends inside a number",
            Fault::Missing => "the file ends inside a message",
            Fault::TooLong => "a number takes more bytes than it needs",
            Fault::TooWide => "a number is above 32 bits",
            Fault::BadDirection => "the direction is neither 0, sent, nor 1, received",
            Fault::BadLength => "L is not 1 to 256",
            Fault::BadHeader => "the header disagrees with L",
        })
    }
}
