// The ring of one command transport buffer (CTB): its descriptor and its buffer, on plain numbers and slices. What a
// look decides, and whole calls at once. States and steps stand above it, in `channel`.
#![tactic(auto)]

mod descriptor;
mod memory;
mod numbers;
mod receiving;
mod sending;

pub use descriptor::{DESCRIPTOR_DWORDS, HEAD, STATUS, TAIL};
pub use memory::{mark, publish_head, publish_tail, put, wide};
pub use numbers::{allowed, first_needs};
pub use receiving::{JudgedHeader, WholeReceive, receive_decision, whole_receive};
pub use sending::{send_decision, whole_send, whole_send_as};
