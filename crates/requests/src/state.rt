// The state that the calls of a wall share: two words, the last fence and the reply buffer's N. A call reads each once, by
// value; the last fence is written last.
ghost use Rattle.std.specs.Prelude.{◌≡◌, get_or};
ghost use Rattle.requests.specs.Calls.{fresh_number};
ghost use Rattle.requests.specs.Plan.{state_in, last_kept, freed, fresh_state};

use crate::fence::FIRST_LAST;
use crate::numbers;
use crate::record::allowed;

pub const WALL_WORDS: usize = 2;

const LAST: usize = 0;

const N: usize = 1;

#[derive(Clone, Copy)]
pub struct State {
    pub last: u16,
    pub n: u16,
}

// The state in the words.
pub fn state_of(wall: &[u16; WALL_WORDS]) -> State
    ensures { result ≡ state_in wall.now }
{
    State {
        last: wall[LAST],
        n: wall[N],
    }
}

// The last fence from now on, which was another: where it is the same nothing is written. (A store of what lies there
// already no contract can see; interop/loads looks for it.)
pub fn keep_last(wall: &mut [u16; WALL_WORDS], was: u16, last: u16)
    ensures { state_in wall.new
        ≡ record { last = last_kept was last (get_or wall.old 0 0); n = get_or wall.old 1 0 } }
{
    if was != last {
        let state = &mut wall[..];
        state[LAST] = last;
    }
}

// The number of making a table of so many records fresh, for a reply buffer of n dwords.
fn fresh_number(records: usize, n: usize) -> u32
    ensures { result ≡ fresh_number records n }
{
    if !allowed(records) {
        return numbers::BAD_TABLE;
    }
    if !ring::allowed(n) {
        return numbers::BAD_BUFFER;
    }
    0
}

// How many records are freed: all, or none where it is refused.
pub fn freed(records: usize, n: usize) -> usize
    ensures { result ≡ freed records n }
{
    if fresh_number(records, n) == 0 {
        records
    } else {
        0
    }
}

// The state of a wall whose table of so many records is fresh, for a reply buffer of n dwords.
pub fn begin(wall: &mut [u16; WALL_WORDS], records: usize, n: usize) -> u32
    ensures { (result ≡ fresh_number records n) × (state_in wall.new ≡ fresh_state records n (state_in wall.old)) }
{
    let code = fresh_number(records, n);
    if code != 0 {
        return code;
    }
    let state = &mut wall[..];
    state[N] = n as u16;
    state[LAST] = FIRST_LAST;
    0
}
