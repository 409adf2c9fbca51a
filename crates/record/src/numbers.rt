// The numbers of a record file: groups of seven bits, lowest first, each byte but the last with its top bit set, and
// never more bytes than are needed.
ghost use Rattle.std.specs.Prelude.{◌≡◌, cond, ◌+◌, ◌*◌, ◌^◌, ◌≤◌, ◌<◌, length, drop};
ghost use Rattle.record.specs.Numbers.{bytes_of, bytes_of_run, number_of, of_form};
ghost use Rattle.record.specs.Calls.{at_front};
ghost use Rattle.record.specs.Private.{ended};

use crate::fault::Fault;

// 'the top bit of each byte set when another follows', and of the last byte not
const FOLLOWED: u32 = 128;

const LAST: u32 = 0;

// A number that bytes start with, and how many of them it takes.
#[derive(Clone, Copy)]
pub struct Form {
    pub value: u32,
    pub size: usize,
}

// A number that ends with this group, behind `size` others that hold `value`: a last group of 0 should not be there.
fn ended(value: u32, weight: u32, size: usize, group: u8) -> Result<Form, Fault>
    requires group_bound { value + weight * group < 2 ^ 32 }
    requires size_bound { size < 5 }
    ensures { of_form result ≡ ended value weight size group }
{
    if (group == 0) & (0 < size) {
        return Err(Fault::TooLong);
    }
    Ok(Form {
        value: value + weight * u32::from(group),
        size: size + 1,
    })
}

// The number that bytes start with. Each byte is read once. One of a single byte, as most are, is told apart from the
// others: the compiler then has nothing to reckon for it.
pub(crate) fn number(bytes: &[u8]) -> Result<Form, Fault>
    ensures { of_form result ≡ number_of bytes.now }
{
    if bytes.is_empty() {
        return Err(Fault::Missing);
    }
    let first = bytes[0];
    if first < 128 {
        return Ok(Form {
            value: u32::from(first),
            size: 1,
        });
    }
    let mut value: u32 = u32::from(first) - 128;
    let mut weight: u32 = 128;
    for size in 1..4 {
        if bytes.len() <= size {
            return Err(Fault::Unfinished);
        }
        let group = bytes[size];
        if group < 128 {
            return ended(value, weight, size, group);
        }
        value += weight * (u32::from(group) - 128);
        weight *= 128;
    }
    if bytes.len() <= 4 {
        return Err(Fault::Unfinished);
    }
    let group = bytes[4];
    if 16 <= group {
        return Err(Fault::TooWide);
    }
    ended(value, weight, 4, group)
}

// How many bytes a number takes.
fn number_size(value: u32) -> usize
    ensures { result ≡ length (bytes_of value) }
{
    1 + usize::from(0x80 <= value)
        + usize::from(0x4000 <= value)
        + usize::from(0x20_0000 <= value)
        + usize::from(0x1000_0000 <= value)
}

// How many bytes some dwords take.
pub(crate) fn run_size(run: &[u32]) -> usize
    requires { length run.now < 2 ^ 60 }
    ensures { result ≡ length (bytes_of_run run.now) }
{
    let mut size = 0;
    for dword in run {
        size += number_size(*dword);
    }
    size
}

// Puts a number at the front of an output that has room for it.
fn put_number(value: u32, out: &mut [u8]) -> usize
    requires { length (bytes_of value) ≤ length out.old }
    ensures { (result ≡ length (bytes_of value)) × (out.new ≡ at_front (bytes_of value) out.old) }
{
    let mut rest = value;
    let mut at = 0;
    while 128 <= rest {
        out[at] = (rest % 128 + FOLLOWED) as u8;
        rest = rest / 128;
        at += 1;
    }
    out[at] = (rest + LAST) as u8;
    at + 1
}

// Puts dwords at the front of an output that has room for them.
pub(crate) fn put_run(run: &[u32], out: &mut [u8]) -> usize
    requires { length (bytes_of_run run.now) ≤ length out.old }
    ensures { (result ≡ length (bytes_of_run run.now))
        × (out.new ≡ at_front (bytes_of_run run.now) out.old) }
{
    let mut at = 0;
    for dword in run {
        at += put_number(*dword, &mut out[at..]);
    }
    at
}
