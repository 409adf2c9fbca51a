// The calls of a channel on a state of 260 dwords (n, own, len, moved, and the copy), which is lent to the call and
// changed in place: for callers that keep a side's state in memory of their own, as the C interface does. Held to the
// same definitions as the states by value. Sides of two words stand in `two_words`.
#![tactic(auto)]

mod opening;
mod receiving;
mod sending;
mod words;

pub use opening::open_channel;
pub use receiving::{receive, receive_copy, receive_copy_all, receive_look, receive_publish};
pub use sending::{send, send_as, send_look, send_publish, send_store, send_store_all};
pub use words::STATE_WORDS;
