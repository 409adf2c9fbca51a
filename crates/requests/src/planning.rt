// What a call does, planned on a table's words: its answer, the one record that is stored, and the last fence from then
// on. Nothing is written here.
ghost use Rattle.std.specs.Prelude.{◌≡◌, ◌≤◌, length, take};
ghost use Rattle.ring.specs.Numbers.{need};
ghost use Rattle.requests.specs.Calls.{is_reply, counted, record_after, answer_of};
ghost use Rattle.requests.specs.Words.{records, records_with};
ghost use Rattle.requests.specs.Plan.{refused_plan, open_plan, reply_plan, plan_of};
ghost use Rattle.requests.specs.Private.{Marked};

use crate::asking::Ask;
use crate::judging::{FLAGS, fence_twice, lowest_free, next_fence, place_of, set_aside};
use crate::numbers;
use crate::record::{RECORDS_MAX, Record, allowed, record_of};
use crate::state::State;
use message::Type;

// What a call answers: a number, then an opening's fence, or a reply's kind with the request's action and count. What a
// call has no part in is 0, and on a refusal all but the number is.
#[repr(C)]
#[derive(Clone, Copy)]
pub struct Answer {
    pub code: u32,
    pub kind: u32,
    pub fence: u16,
    pub action: u16,
    pub count: u16,
}

// What a call does: its answer, the record that is stored at a place (the table's length for nothing), and the last fence
// before it and after it.
#[derive(Clone, Copy)]
pub struct Plan {
    pub at: usize,
    pub stored: Record,
    pub answer: Answer,
    pub was: u16,
    pub last: u16,
}

// A refusal stores nothing in a table of n records, and leaves the last fence.
pub fn refuse(code: u32, n: usize, last: u16) -> Plan
    ensures { result ≡ refused_plan code n last }
{
    Plan {
        at: n,
        stored: Record {
            is_open: 0,
            fence: 0,
            action: 0,
            count: 0,
            room: 0,
        },
        answer: Answer {
            code,
            kind: 0,
            fence: 0,
            action: 0,
            count: 0,
        },
        was: last,
        last,
    }
}

// 26 where no record is free, else 28 where its replies would not fit.
fn open_number(free: bool, fits: bool) -> u32
    ensures { result ≡ need free 26 (need fits 28 0) }
{
    if !free {
        return numbers::TABLE_FULL;
    }
    if !fits {
        return numbers::NO_REPLY_ROOM;
    }
    0
}

// An opening at the lowest free record, or 26, or 28.
fn plan_open(
    words: &[u64],
    rooms: &[u16],
    flags: &[u8; FLAGS],
    state: State,
    room: u16,
    action: u16,
) -> Plan
    requires marked { Marked (records words.now) flags.now }
    requires words_len { (length words.now ≡ length rooms.now) × (length words.now ≤ 256) × (1 ≤ state.n) }
    ensures { result ≡ open_plan (records_with words.now rooms.now) state room action }
{
    let at = lowest_free(words);
    let most = state.n as u32 - 1;
    let free = at < words.len();
    let fits = set_aside(words, rooms) + room as u32 <= most;
    let code = open_number(free, fits);
    if code != 0 {
        return refuse(code, words.len(), state.last);
    }
    let fence = next_fence(words, flags, state.last);
    Plan {
        at,
        stored: Record {
            is_open: 1,
            fence,
            action,
            count: 0,
            room,
        },
        answer: Answer {
            code: 0,
            kind: 0,
            fence,
            action: 0,
            count: 0,
        },
        was: state.last,
        last: fence,
    }
}

// Whether a message of this type answers a request.
fn is_reply(kind: u32) -> bool
    ensures { result ≡ is_reply kind }
{
    (kind == Type::Busy as u32)
        | (kind == Type::Retry as u32)
        | (kind == Type::Failure as u32)
        | (kind == Type::Success as u32)
}

// One time more answered busy, stopping at 65,535.
fn counted(n: u16) -> u16
    ensures { result ≡ counted n }
{
    if n < 65535 { n + 1 } else { n }
}

// A reply of this kind to the record at a place: busy counts, the others close it.
fn answer_at(at: usize, kind: u32, r: Record, last: u16) -> Plan
    ensures { result ≡ record { at = at; stored = record_after kind r; answer = answer_of kind r; was = last; last = last } }
{
    if kind == Type::Busy as u32 {
        let count = counted(r.count);
        return Plan {
            at,
            stored: Record {
                is_open: r.is_open,
                fence: r.fence,
                action: r.action,
                count,
                room: r.room,
            },
            answer: Answer {
                code: 0,
                kind,
                fence: 0,
                action: r.action,
                count,
            },
            was: last,
            last,
        };
    }
    // 'closed .. is free and all zeros'
    let zero = 0;
    Plan {
        at,
        stored: Record {
            is_open: zero,
            fence: zero,
            action: zero,
            count: zero,
            room: zero,
        },
        answer: Answer {
            code: 0,
            kind,
            fence: 0,
            action: r.action,
            count: r.count,
        },
        was: last,
        last,
    }
}

// A reply to the open record with its fence, or 27.
fn plan_reply(words: &[u64], rooms: &[u16], last: u16, kind: u32, fence: u32) -> Plan
    requires { length words.now ≡ length rooms.now }
    ensures { result ≡ reply_plan (records_with words.now rooms.now) last kind fence }
{
    let at = place_of(fence as u64, words);
    if at == words.len() {
        return refuse(numbers::NO_REQUEST, at, last);
    }
    if !is_reply(kind) {
        return refuse(numbers::NO_REQUEST, words.len(), last);
    }
    answer_at(at, kind, record_of(words[at], rooms[at]), last)
}

// What is asked, planned for a table of n records that the words and the rooms beside them hold. 35 comes before all else,
// then 2, then what refuses the request or the reply already.
pub fn plan_call(
    words: &[u64; RECORDS_MAX],
    rooms: &[u16; RECORDS_MAX],
    n: usize,
    state: State,
    ask: Ask,
) -> Plan
    ensures { result ≡ plan_of (take n (records_with words.now rooms.now)) n state ask }
{
    if !allowed(n) {
        return refuse(numbers::BAD_TABLE, n, state.last);
    }
    let mut flags = [0; FLAGS];
    let all = &words[..];
    let table = &all[0..n];
    if fence_twice(table, &mut flags) {
        return refuse(numbers::BAD_TABLE, n, state.last);
    }
    if !ring::allowed(state.n as usize) {
        return refuse(numbers::BAD_BUFFER, n, state.last);
    }
    if ask.code != 0 {
        return refuse(ask.code, n, state.last);
    }
    let all_rooms = &rooms[..];
    let beside = &all_rooms[0..n];
    if ask.opening {
        return plan_open(
            table,
            beside,
            &flags,
            state,
            ask.room,
            message::action_of(ask.word),
        );
    }
    plan_reply(table, beside, state.last, ask.kind, ask.fence)
}
