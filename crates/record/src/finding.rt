// One message of a file: its numbers are read one after another, judged, and kept in a copy, so that what is judged is
// what is laid. Each byte is read once.
ghost use Rattle.std.specs.Prelude.{◌≡◌, ◌+◌, ◌^◌, ◌≤◌, ◌<◌, length};
ghost use Rattle.record.specs.Private.{of_body, of_found, later, dwords_of, length_of, message_of, ReadTo, FoundTo};
ghost use Rattle.record.specs.Private.{dwords_in, length_in, message_in};

use crate::direction::Direction;
use crate::fault::Fault;
use crate::messages::is_length;
use crate::numbers::number;
use message::total_length;

// A message of a file: its dwords in a run, and its bytes.
#[derive(Clone, Copy)]
pub struct Found {
    pub dwords: usize,
    pub size: usize,
}

// What is wrong first in some bytes, and at which of them.
#[derive(Clone, Copy)]
pub struct Torn {
    pub fault: Fault,
    pub at: usize,
}

// What is wrong with the number that they start with.
impl From<Fault> for Torn {
    ghost from_gives = { λ fault torn. (torn.fault ≡ fault) × (torn.at ≡ 0) };

    fn from(fault: Fault) -> Torn {
        Torn { fault, at: 0 }
    }
}

// The same answer, so many bytes later.
fn later(size: usize, r: Result<Found, Torn>) -> Result<Found, Torn>
    requires bad_bound { size + (of_found r).bad < 2 ^ 64 }
    requires size_bound { size + (of_found r).size < 2 ^ 64 }
    ensures { of_found result ≡ later size (of_found r) }
{
    match r {
        Ok(m) => Ok(Found {
            dwords: m.dwords,
            size: size + m.size,
        }),
        Err(torn) => Err(Torn {
            fault: torn.fault,
            at: size + torn.at,
        }),
    }
}

// Fills a copy with the numbers that bytes start with, and answers how many bytes they took.
fn read_numbers(bytes: &[u8], copy: &mut [u32]) -> Result<usize, Torn>
    ensures { ReadTo (of_body result) copy.new copy.old bytes.now }
{
    let mut at = 0;
    for place in copy.iter_mut() {
        match number(&bytes[at..]) {
            Ok(n) => {
                *place = n.value;
                at += n.size;
            }
            Err(fault) => return Err(Torn { fault, at }),
        }
    }
    Ok(at)
}

// The dwords of a message, as many as the copy has places: its header, which is to agree with that, and the others.
fn read_dwords(bytes: &[u8], copy: &mut [u32]) -> Result<Found, Torn>
    requires in_bounds { 1 ≤ length copy.old }
    requires copy_len_bound { length copy.old ≤ 256 }
    ensures { FoundTo (of_found result) (dwords_of (length copy.old) bytes.now) copy.new copy.old
        (dwords_in (length copy.old) bytes.now) (length bytes.now) }
{
    let h = number(bytes)?;
    let len = copy.len();
    let total = total_length(h.value);
    if total != len {
        return Err(Torn::from(Fault::BadHeader));
    }
    copy[0] = h.value;
    match read_numbers(&bytes[h.size..], &mut copy[1..]) {
        Ok(size) => Ok(Found {
            dwords: 2 + len,
            size: h.size + size,
        }),
        Err(torn) => Err(Torn {
            fault: torn.fault,
            at: h.size + torn.at,
        }),
    }
}

// Its L, and those.
fn read_length(bytes: &[u8], copy: &mut [u32]) -> Result<Found, Torn>
    requires { 257 ≤ length copy.old }
    ensures { FoundTo (of_found result) (length_of bytes.now) copy.new copy.old (length_in bytes.now)
        (length bytes.now) }
{
    let l = number(bytes)?;
    let len = l.value as usize;
    if !is_length(len) {
        return Err(Torn::from(Fault::BadLength));
    }
    copy[0] = l.value;
    let r = read_dwords(&bytes[l.size..], &mut copy[1..1 + len]);
    later(l.size, r)
}

// Its direction, and those: the message that bytes start with.
pub(crate) fn read_message(bytes: &[u8], copy: &mut [u32]) -> Result<Found, Torn>
    requires { 258 ≤ length copy.old }
    ensures { FoundTo (of_found result) (message_of bytes.now) copy.new copy.old (message_in bytes.now)
        (length bytes.now) }
{
    let d = number(bytes)?;
    Direction::try_from(d.value)?;
    copy[0] = d.value;
    let r = read_length(&bytes[d.size..], &mut copy[1..]);
    later(d.size, r)
}
