// Adding one message to a run of dwords in memory: what a kernel calls after each send and receive.
ghost use Rattle.std.specs.Prelude.{◌≡◌, length};
ghost use Rattle.record.specs.declared.adding.AddError.TheVariants.{BadRecord};
ghost use Rattle.record.specs.Calls.{add_answer, add_leaves, of_added};

use crate::fault::Fault;
use crate::messages::{Head, put_entry};
use message::dword_at;

// Why a message is not added: what is wrong with it, or the run is too short from the place on.
#[derive(Clone, Copy, Debug, PartialEq, Eq)]
pub enum AddError {
    BadRecord(Fault),
    ShortRoom,
}

impl From<Fault> for AddError {
    ghost from_gives = { λ fault error. error ≡ BadRecord fault };

    fn from(fault: Fault) -> AddError {
        AddError::BadRecord(fault)
    }
}

// Adds a message of this direction to a run, from a place on, and answers the place for the next one. Each dword of the
// message is read once.
pub fn add(run: &mut [u32], place: usize, direction: u32, msg: &[u32]) -> Result<usize, AddError>
    ensures { (of_added place result ≡ add_answer (length run.old) place direction msg.now)
        × (run.new ≡ add_leaves run.old place direction msg.now) }
{
    let head = Head {
        direction,
        len: msg.len(),
        header: dword_at(msg, 0),
    };
    head.judge_added()?;
    if run.len() < place {
        return Err(AddError::ShortRoom);
    }
    if run.len() - place < 2 + head.len {
        return Err(AddError::ShortRoom);
    }
    put_entry(&mut run[place..], head, &msg[1..]);
    Ok(place + (2 + head.len))
}
