// What programs build their scenes with: a channel with both its sides, a wall of players, messages to send, outputs to
// receive in, firmware files laid byte by byte, and comparisons. Each is held to a definition, once, here.
#![tactic(auto)]

mod channels;
mod dwords;
mod files;
mod messages;
mod walls;

pub use channels::Ctb;
pub use dwords::put;
pub use files::{
    Room, blank, cut, huc_directory, image, put_directory, put_dword, put_entry, put_image,
};
pub use messages::{as_due, fast_request, message_in, request, untouched};
pub use walls::{Aged, Called, PLAYERS, REPLY_N, Wall, age_of, fresh_wall, wall_reply, wall_send};
