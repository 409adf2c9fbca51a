// A table's words judged: which records are open, with which fences, and which fence is next. Nothing here is lent the
// table itself.
ghost use Rattle.std.specs.Prelude.{◌≡◌, false, cond, ◌≤◌, length};
ghost use Rattle.requests.specs.Fence.{next_fence};
ghost use Rattle.requests.specs.Table.{is_open, still_open, fence_twice, lowest_free, place_of, set_aside};
ghost use Rattle.requests.specs.Words.{record_of, records, records_with};
ghost use Rattle.requests.specs.Private.{Marked};

use crate::fence::after;
use crate::record::{fence_of, has_fence, is_open};

// Flags by the low eight bits of a fence.
pub(crate) const FLAGS: usize = 256;

// The place of the open record with this fence, or how many records there are.
pub(crate) fn place_of(fence: u64, words: &[u64]) -> usize
    ensures { result ≡ place_of fence (records words.now) }
{
    let mut i: usize = 0;
    while i < words.len() {
        if has_fence(fence, words[i]) {
            return i;
        }
        i = i + 1;
    }
    i
}

// The place of the lowest free record, or how many records there are.
pub(crate) fn lowest_free(words: &[u64]) -> usize
    ensures { result ≡ lowest_free (records words.now) }
{
    let mut place: usize = 0;
    while place < words.len() {
        if !is_open(words[place]) {
            return place;
        }
        place = place + 1;
    }
    place
}

// Whether two open records have one fence. A fence is compared with those before it only where one of them has its low
// eight bits: 256 fences picked one after another never do. The flags stay, for whoever picks the next fence.
pub(crate) fn fence_twice(words: &[u64], flags: &mut [u8; FLAGS]) -> bool
    requires { length flags.old ≡ 256 }
    ensures value { result ≡ fence_twice (records words.now) }
    ensures marked { result ≡ false → Marked (records words.now) flags.new }
{
    let mut i: usize = 0;
    while i < words.len() {
        let word = words[i];
        if is_open(word) {
            let fence = fence_of(word);
            let low = (fence % 256) as usize;
            if flags[low] != 0 {
                if place_of(fence, &words[0..i]) < i {
                    return true;
                }
            }
            flags[low] = 1;
        }
        i = i + 1;
    }
    false
}

// The next fence that is not open, counting up from the last one used.
pub(crate) fn next_fence(words: &[u64], flags: &[u8; FLAGS], last: u16) -> u16
    requires { Marked (records words.now) flags.now }
    ensures { result ≡ next_fence (still_open (records words.now)) last }
{
    let mut fence = last;
    let mut tries: u32 = 0;
    while tries < 65536 {
        fence = after(fence);
        let low = (fence % 256) as usize;
        if flags[low] == 0 {
            return fence;
        }
        if place_of(fence as u64, words) == words.len() {
            return fence;
        }
        tries = tries + 1;
    }
    fence
}

// What one record has set aside: nothing where it is free, whatever it holds.
fn aside_of(word: u64, room: u16) -> u32
    ensures { result ≡ cond (is_open (record_of word)) room 0 }
{
    let kept = room as u32;
    if is_open(word) { kept } else { 0 }
}

// The dwords set aside by all open records. There are at most 256 of them, each with at most 65,535, so that the sum is far
// below 32 bits.
pub(crate) fn set_aside(words: &[u64], rooms: &[u16]) -> u32
    requires { (length words.now ≡ length rooms.now) × (length words.now ≤ 256) }
    ensures { (result ≡ set_aside (records_with words.now rooms.now)) × (result ≤ 16776960) }
{
    let mut sum: u32 = 0;
    let mut counted: usize = 0;
    while counted < words.len() {
        sum = sum + aside_of(words[counted], rooms[counted]);
        counted = counted + 1;
    }
    sum
}
