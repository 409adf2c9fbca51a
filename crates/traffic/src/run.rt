// A run of dwords, as the library lays it: each message behind its direction and its L.
ghost use Rattle.std.specs.Prelude.{◌≡◌, ◌+◌, ◌≤◌, IfSome, length, take, drop, slice_index};
ghost use Rattle.std.specs.Iterator.{at_most};

use record::Direction;

// The other way.
pub(crate) fn other(way: Direction) -> Direction {
    match way {
        Direction::Sent => Direction::Received,
        Direction::Received => Direction::Sent,
    }
}

// A message, and which way it went.
#[derive(Clone, Copy, Debug, PartialEq, Eq)]
pub(crate) struct Recorded<'a> {
    pub direction: Direction,
    pub dwords: &'a [u32],
}

// The messages of a run, one after the other. The library lays none that is not whole.
#[derive(Drop)]
pub(crate) struct Messages<'a>(pub &'a [u32]);

// The message that a run starts with, and what is behind it.
fn first(run: &[u32]) -> Option<(Recorded<'_>, &[u32])>
    ensures dwords { IfSome result (λ s. s.0.dwords.now ≡ take (slice_index run.now 1) (drop 2 run.now)) }
    ensures behind { IfSome result (λ s. s.1.now ≡ drop (2 + slice_index run.now 1) run.now) }
    ensures whole { IfSome result (λ s. 2 + slice_index run.now 1 ≤ length run.now) }
{
    let (way, behind) = run.split_first()?;
    let (len, behind) = behind.split_first()?;
    let (dwords, behind) = behind.split_at_checked(*len as usize)?;
    let direction = Direction::try_from(*way).ok()?;
    Some((Recorded { direction, dwords }, behind))
}

impl<'a> Iterator for Messages<'a> {
    type Item = Recorded<'a>;

    ghost remaining = { λ m. at_most (length m.0.now) };

    fn next(&mut self) -> Option<Recorded<'a>> {
        let (message, behind) = first(self.0)?;
        self.0 = behind;
        Some(message)
    }
}
