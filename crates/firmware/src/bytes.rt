// Little-endian numbers in a blob, and where a part of a blob lies.
ghost use Rattle.std.specs.Prelude.{◌≡◌, ◌+◌, ◌≤◌, ◌<◌, ◌^◌, get_or, length};
ghost use Rattle.firmware.specs.Bytes.{word_at, dword_at, of_located, span, PartOf};

use refusal::Refusal;

// Where a part lies in the lent blob that was judged: its first byte and its length. An image that is accepted without
// its modulus and exponent is truncated. A component that is not shown is the empty part at the blob's start, which is
// the default.
#[derive(Clone, Copy, Debug, Default, PartialEq, Eq)]
pub struct Located {
    pub truncated: bool,
    pub start: usize,
    pub len: usize,
}

impl Located {
    // That part of the blob.
    pub(crate) fn part_of(self, blob: &[u8]) -> &[u8]
        requires { self.start + self.len ≤ length blob.now }
        ensures { PartOf blob.entry (span self.start (self.start + self.len)) result }
    {
        &blob[self.start..self.start + self.len]
    }
}

// The part that was located; the empty part at the blob's start where that was refused.
pub(crate) fn part(blob: &[u8], l: Result<Located, Refusal>) -> &[u8]
    requires { (of_located l).start + (of_located l).len ≤ length blob.now }
    ensures { PartOf blob.entry (span (of_located l).start ((of_located l).start + (of_located l).len)) result }
{
    match l {
        Ok(l) => l.part_of(blob),
        Err(_) => &blob[..0],
    }
}

// Byte i, or 0 where there is none: a name so read is zero padded.
pub fn byte_at(s: &[u8], i: usize) -> u8
    ensures { result ≡ get_or s.now i 0 }
{
    s.get(i).copied().unwrap_or(0)
}

// The 16-bit number at byte `at`.
pub(crate) fn word_at(blob: &[u8], at: usize) -> u16
    requires { at + 2 ≤ length blob.now }
    ensures { result ≡ word_at blob.now at }
{
    u16::from_le_bytes([blob[at], blob[at + 1]])
}

// The dword at byte `at`.
pub(crate) fn dword_at(blob: &[u8], at: usize) -> usize
    requires { at + 4 ≤ length blob.now }
    ensures { (result ≡ dword_at blob.now at) × (result < 2 ^ 32) }
{
    u32::from_le_bytes([blob[at], blob[at + 1], blob[at + 2], blob[at + 3]]) as usize
}
