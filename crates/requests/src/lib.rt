// Replies matched to requests, and room for them (document 02, T-06 and T-08), on values: what a record says, which fence
// is next, what is set aside, and what a call does to a table that it is not lent: `wall` stores the record and sends the
// request. The state, two words, is kept here.
#![tactic(auto)]

mod asking;
mod fence;
mod judging;
mod numbers;
mod planning;
mod record;
mod state;

pub use asking::{Ask, Heard, ask_reply, ask_request, received, reply};
pub use fence::{FIRST_LAST, age};
pub use planning::{Answer, Plan, plan_call, refuse};
pub use record::{RECORDS_MAX, ROOM_MAX, Record, word_of};
pub use state::{State, WALL_WORDS, begin, freed, keep_last, state_of};
