// Straight runs of dwords: how a message goes into the buffer of a ring and out of it, in one run or two, and the
// offset past it. It knows no descriptor, and of a message only that its first two dwords were judged.
#![tactic(auto)]

ghost use Rattle.runs.specs.TwoRuns.{TwoRuns};

mod offset;
mod runs;

pub use offset::{N_MAX, past};
pub use runs::{lay, lay_copy, lay_message, load_dwords, store_dwords, store_message};

// Does nothing: it is here for its contract, so that nothing passes the gate without the statement.
pub fn two_runs()
    ensures { TwoRuns }
{}
