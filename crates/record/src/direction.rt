// Which way a message went: '0 for sent or 1 for received'.
ghost use Rattle.std.specs.Prelude.{◌≡◌};
ghost use Rattle.record.specs.Runs.{way, Directs};

use crate::fault::Fault;

#[derive(Clone, Copy, Debug, PartialEq, Eq)]
pub enum Direction {
    Sent = 0,
    Received = 1,
}

impl TryFrom<u32> for Direction {
    type Error = Fault;

    ghost try_from_gives = { Directs };

    fn try_from(number: u32) -> Result<Direction, Fault> {
        match number {
            0 => Ok(Direction::Sent),
            1 => Ok(Direction::Received),
            _ => Err(Fault::BadDirection),
        }
    }
}

impl From<Direction> for u32 {
    ghost from_gives = { λ direction number. number ≡ way direction };

    fn from(direction: Direction) -> u32 {
        direction as u32
    }
}
