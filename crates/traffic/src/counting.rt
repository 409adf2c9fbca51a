// Which replies and requests of a record belong together, beside what it has in all.
use crate::kinds::{Kind, Meaning};
use crate::run::{Recorded, other};
use crate::totals::Totals;
use record::Direction;
use std::alloc::{AllocError, Global};

// The fences of each direction.
const FENCES: usize = 65536;

// The totals so far, and how many requests are open under each fence of each direction.
#[derive(Drop)]
pub(crate) struct Counting {
    pub totals: Totals,
    open: Vec<u32>,
}

impl Counting {
    // Of no message.
    pub(crate) fn new(alloc: Global) -> Result<Counting, AllocError> {
        Ok(Counting {
            totals: Totals::default(),
            open: vec![in alloc; 0u32; 2 * FENCES]?,
        })
    }

    // With a message. A request waits for a reply, as on the wall; a fast one and an event wait for none.
    pub(crate) fn add(&mut self, m: Recorded<'_>) {
        let meaning = Meaning::of(m.dwords);
        let kind = meaning.kind();
        self.totals.count(m, kind);
        match kind {
            Kind::Request => self.requested(m.direction, meaning.fence),
            Kind::Busy => self.replied(m.direction, meaning.fence, false),
            Kind::Retry | Kind::Failure | Kind::Success => {
                self.replied(m.direction, meaning.fence, true)
            }
            Kind::Event | Kind::Fast | Kind::Malformed => (),
        }
    }

    // Another request is open. The count stops at 4,294,967,295 open ones of one fence: a record that has more is longer
    // than 16 GiB, and of their replies those above that number count as replies without a request.
    fn requested(&mut self, direction: Direction, fence: u32) {
        if let Some(n) = self.open.get_mut(place(direction, fence)) {
            *n = n.saturating_add(1);
        }
    }

    // A reply, to a request that went the other way: busy leaves it open, the others close it.
    fn replied(&mut self, direction: Direction, fence: u32, closes: bool) {
        match self.open.get_mut(place(other(direction), fence)) {
            Some(n) if 0 < *n => {
                if closes {
                    *n -= 1;
                    self.totals.count_closed();
                }
            }
            _ => self.totals.count_stray(),
        }
    }
}

// Where the requests are counted that went this way with this fence.
fn place(direction: Direction, fence: u32) -> usize {
    let from = match direction {
        Direction::Sent => 0,
        Direction::Received => FENCES,
    };
    from + fence as usize % FENCES
}
