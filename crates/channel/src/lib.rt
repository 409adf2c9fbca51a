// One command transport buffer (CTB) in one direction: its opening, and the steps and whole calls of its sender and its
// receiver, in place or handed back.
#![tactic(auto)]

mod handing;
mod opening;
mod receiving;
mod sending;
mod state;

pub use handing::{Received, Sent, Stepped};
pub use opening::{Opened, open_channel, open_needs};
pub use receiving::Receiver;
pub use sending::Sender;
pub use state::{Counts, SideState, no_copy};
