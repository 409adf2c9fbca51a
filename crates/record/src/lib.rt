// A record of what went over a channel (document 02, T-10): in memory a run of dwords, in a file the same numbers in
// groups of seven bits. Three calls: add a message to a run, write a run into a file, read a file back.
#![tactic(auto)]

ghost use Rattle.record.specs.MailedHome.{MailedHome};

mod adding;
mod direction;
mod fault;
mod finding;
mod messages;
mod numbers;
mod reading;
mod writing;

pub use adding::{AddError, add};
pub use direction::Direction;
pub use fault::Fault;
pub use messages::MESSAGE_BYTES_MAX;
pub use reading::{Laid, ReadError, read};
pub use writing::{WriteError, write, write_bound};

// Does nothing: it is here for its contract, what is proved of records written, read, cut and read in pieces.
pub fn mailed_home()
    ensures { MailedHome }
{}
