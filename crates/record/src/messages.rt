// One message of a run: judged by its first numbers, and taken into a copy, so that what is judged is what is used.
ghost use Rattle.std.specs.Prelude.{◌≡◌, ◌∷◌, ◌+◌, ◌^◌, ◌≤◌, ◌<◌, length};
ghost use Rattle.record.specs.Faults.{of_fault};
ghost use Rattle.record.specs.Runs.{is_length, judged_by, judged, of_judged};
ghost use Rattle.record.specs.Calls.{at_front};
ghost use Rattle.record.specs.Private.{TakenTo, blank, first_head};

use crate::direction::Direction;
use crate::fault::Fault;
use message::{MESSAGE_MAX, dword_at, total_length};

// The most dwords that a message takes in a run: its direction, its L, and 256.
pub(crate) const ENTRY_MAX: usize = 258;

// The most bytes that one takes in a file: 1 for its direction, 2 for its L, 5 for each dword.
pub const MESSAGE_BYTES_MAX: usize = 1283;

// What is wrong first in a message, and its place there.
#[derive(Clone, Copy)]
pub struct Wrong {
    pub fault: Fault,
    pub place: usize,
}

// What is wrong with a message's first number.
impl From<Fault> for Wrong {
    ghost from_gives = { λ fault wrong. (wrong.fault ≡ fault) × (wrong.place ≡ 0) };

    fn from(fault: Fault) -> Wrong {
        Wrong { fault, place: 0 }
    }
}

// 'L runs from 1 to 256'
pub(crate) fn is_length(len: usize) -> bool
    ensures { result ≡ is_length len }
{
    (1 <= len) & (len <= MESSAGE_MAX)
}

// A message's first numbers: its direction, its L and its header.
#[derive(Clone, Copy)]
pub struct Head {
    pub direction: u32,
    pub len: usize,
    pub header: u32,
}

impl Head {
    // Those of the message that starts a run: each of its dwords is read once.
    pub(crate) fn first(run: &[u32]) -> Head
        ensures { result ≡ first_head run.now }
    {
        Head {
            direction: dword_at(run, 0),
            len: dword_at(run, 1) as usize,
            header: dword_at(run, 2),
        }
    }

    // Judges a message of which `count` dwords are there: how many dwords it takes. It is lent no run.
    pub(crate) fn judge(self, count: usize) -> Result<usize, Wrong>
        ensures { of_judged result ≡ judged_by count self.direction self.len self.header }
    {
        Direction::try_from(self.direction)?;
        let missing = Wrong {
            fault: Fault::Missing,
            place: count,
        };
        if count <= 1 {
            return Err(missing);
        }
        if !is_length(self.len) {
            return Err(Wrong {
                fault: Fault::BadLength,
                place: 1,
            });
        }
        if count <= 2 {
            return Err(missing);
        }
        let total = total_length(self.header);
        if total != self.len {
            return Err(Wrong {
                fault: Fault::BadHeader,
                place: 2,
            });
        }
        if count < 2 + self.len {
            return Err(missing);
        }
        Ok(2 + self.len)
    }

    // Whether a message may be added, all of which is there.
    pub(crate) fn judge_added(self) -> Result<(), Fault>
        ensures { of_fault result
            ≡ (judged_by (2 + self.len) self.direction self.len self.header).fault }
    {
        if MESSAGE_MAX < self.len {
            Direction::try_from(self.direction)?;
            return Err(Fault::BadLength);
        }
        match self.judge(2 + self.len) {
            Ok(_) => Ok(()),
            Err(wrong) => Err(wrong.fault),
        }
    }
}

// The message that starts a run, judged on dwords that are each read once.
pub(crate) fn judge_first(run: &[u32]) -> Result<usize, Wrong>
    ensures { of_judged result ≡ judged run.now }
{
    Head::first(run).judge(run.len())
}

// A copy for one message, with nothing in it yet.
pub(crate) fn no_entry() -> [u32; ENTRY_MAX]
    ensures { result ≡ blank }
{
    [0; ENTRY_MAX]
}

// Puts a message at the front of dst, as a run has it: its first numbers by value, which were judged, and the others.
pub(crate) fn put_entry(dst: &mut [u32], head: Head, rest: &[u32])
    requires room { 3 + length rest.now ≤ length dst.old }
    requires len { head.len < 2 ^ 32 }
    ensures { dst.new ≡ at_front (head.direction ∷ head.len ∷ head.header ∷ rest.now) dst.old }
{
    dst[0] = head.direction;
    dst[1] = head.len as u32;
    dst[2] = head.header;
    let end = 3 + rest.len();
    slices::copy(&mut dst[3..end], rest);
}

// Takes the message that starts a run into a copy, as it was judged: each of its dwords is read once.
pub(crate) fn take_first(run: &[u32], copy: &mut [u32]) -> Result<usize, Wrong>
    requires { 258 ≤ length copy.old }
    ensures { TakenTo (of_judged result) copy.new copy.old run.now }
{
    let head = Head::first(run);
    let end = head.judge(run.len())?;
    put_entry(copy, head, &run[3..end]);
    Ok(end)
}
