// Where the part of a name lies.
use firmware::Located;
use refusal::Refusal;
use say::{Part, Verdict};
use std::io;

// Where a part lies, or that there is none, and what was answered.
pub(crate) fn sought(rt: &impl Print, answer: Result<Located, Refusal>) -> io::Result<()> {
    let verdict = Verdict::of(&answer);
    match answer {
        Ok(l) => println!(rt; ", part {}{verdict}", Part(l)),
        Err(_) => println!(rt; ", no part{verdict}"),
    }
}
