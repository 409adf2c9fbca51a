// A record of a table, and the same by value: four of its numbers in one word, and what is set aside beside it.
ghost use Rattle.std.specs.Prelude.{◌≡◌};
ghost use Rattle.requests.specs.Table.{is_open, has_fence, allowed_length};
ghost use Rattle.requests.specs.Words.{record_of, record_with, word_of};

// 'a lent table of 1 to 256 request records'
pub const RECORDS_MAX: usize = 256;

// 'the reply dwords set aside for it, 0 to 256'
pub const ROOM_MAX: u32 = 256;

// Whether a table may have n records.
pub(crate) fn allowed(n: usize) -> bool
    ensures { result ≡ allowed_length n }
{
    (1 <= n) & (n <= RECORDS_MAX)
}

// A request, or a free record: 0 in `is_open` is free, any other number open. `count` is how often it was answered busy,
// `room` how many reply dwords are set aside for it.
#[repr(C)]
#[derive(Clone, Copy)]
pub struct Record {
    pub is_open: u16,
    pub fence: u16,
    pub action: u16,
    pub count: u16,
    pub room: u16,
}

// Four numbers of a record side by side: all but what is set aside.
pub fn word_of(r: Record) -> u64
    ensures word { result ≡ word_of r }
    ensures back { record_with result r.room ≡ r }
{
    r.is_open as u64
        + r.fence as u64 * 0x1_0000
        + r.action as u64 * 0x1_0000_0000
        + r.count as u64 * 0x1_0000_0000_0000
}

// The record in a word, with so much set aside.
pub(crate) fn record_of(word: u64, room: u16) -> Record
    ensures { result ≡ record_with word room }
{
    Record {
        is_open: (word % 0x1_0000) as u16,
        fence: (word / 0x1_0000 % 0x1_0000) as u16,
        action: (word / 0x1_0000_0000 % 0x1_0000) as u16,
        count: (word / 0x1_0000_0000_0000 % 0x1_0000) as u16,
        room,
    }
}

// Whether the record in a word is open.
pub(crate) fn is_open(word: u64) -> bool
    ensures { result ≡ is_open (record_of word) }
{
    word % 0x1_0000 != 0
}

// The fence of the record in a word, open or not.
pub(crate) fn fence_of(word: u64) -> u64
    ensures { result ≡ (record_of word).fence }
{
    word / 0x1_0000 % 0x1_0000
}

// Whether it is open with this fence.
pub(crate) fn has_fence(fence: u64, word: u64) -> bool
    ensures { result ≡ has_fence fence (record_of word) }
{
    is_open(word) & (fence_of(word) == fence)
}
