// The words of a program: options, then files. What starts with a dash is no file, unless `--` stands before the files:
// else an option behind a file would be passed over.
ghost use Rattle.std.specs.Prelude.{◌≡◌, ◌<◌, ◌≤◌, ◌↔◌, IsOk, IfOk, IfSome, Some, None};
ghost use Rattle.std.specs.Str.Parse.{digits_value, without_leading_plus};

use crate::given::{room, word, word_count};
use std::ops::Range;
use std::rt::Env;

// The words are none that the program takes.
#[derive(Clone, Copy, Debug, PartialEq, Eq)]
pub struct Usage;

// What a program can be asked in front of its files.
pub trait Choices {
    // Takes an option. The word behind it, where its value stands if it has one, is word `at`; answers which word follows.
    fn take(&mut self, rt: &impl Env, option: &[u8], at: usize) -> Result<usize, Usage>;
}

// So many options are taken at most.
const MOST: usize = 8;

// Reads the options of this run, and answers which words are files: one at least.
pub fn files<C: Choices>(rt: &impl Env, choices: &mut C) -> Result<Range<usize>, Usage>
    ensures { IfOk result (λ files. files.start < files.end) }
{
    let count = word_count(rt);
    let mut at = 1;
    for _ in 0..MOST {
        let mut room = room();
        let option = word(rt, at, &mut room);
        let behind = at.wrapping_add(1);
        at = match option {
            b"--" => return some(behind..count),
            [b'-', ..] => choices.take(rt, option, behind)?,
            _ => return some(without_option(rt, at..count)?),
        };
    }
    Err(Usage)
}

// Those words, where no option stands among them.
fn without_option(rt: &impl Env, files: Range<usize>) -> Result<Range<usize>, Usage> {
    for i in files.start..files.end {
        if word(rt, i, &mut room()).starts_with(b"-") {
            return Err(Usage);
        }
    }
    Ok(files)
}

// Those words, where there are any.
fn some(files: Range<usize>) -> Result<Range<usize>, Usage>
    ensures { IfOk result (λ some. some.start < some.end) }
{
    if files.is_empty() {
        return Err(Usage);
    }
    Ok(files)
}

// Takes the value of an option that may stand once.
pub fn once<T: Drop>(place: &mut Option<T>, value: T) -> Result<(), Usage>
    ensures value { place.new ≡ Some value }
    ensures once { IsOk result ↔ (place.old ≡ None) }
{
    match place.replace(value) {
        Some(_) => Err(Usage),
        None => Ok(()),
    }
}

// The number below 65,536 that a word is in decimal, or in hexadecimal: by its digits alone, without a sign.
pub fn decimal(word: &str) -> Option<u16>
    ensures { IfSome result (λ n. n ≡ digits_value 10 (without_leading_plus word.now)) }
{
    number(word, 10)
}

pub fn hexadecimal(word: &str) -> Option<u16>
    ensures { IfSome result (λ n. n ≡ digits_value 16 (without_leading_plus word.now)) }
{
    number(word, 16)
}

fn number(word: &str, radix: u32) -> Option<u16>
    requires { (2 ≤ radix) × (radix ≤ 36) }
    ensures { IfSome result (λ n. n ≡ digits_value radix (without_leading_plus word.now)) }
{
    if word.starts_with('+') {
        return None;
    }
    u16::from_str_radix(word, radix).ok()
}
