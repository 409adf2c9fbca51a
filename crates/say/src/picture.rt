// A descriptor in words, and the ring's picture: 64 characters for 1,024 places, 16 to a character.
ghost use Rattle.std.specs.Prelude.{◌≡◌, ◌<◌, slice_index};

use crate::numbers::Status;
use ring::{DESCRIPTOR_DWORDS, HEAD, STATUS, TAIL};
use std::fmt;
use std::fmt::Write;

// The places of the ring that programs show.
const PLACES: usize = 1024;

// The places of a character.
const WIDE: usize = 16;

// The characters of the picture.
const CELLS: usize = PLACES / WIDE;

// A descriptor as it is shown: HEAD and TAIL, what is used and free by them where both lie in the ring, and STATUS.
#[derive(Clone, Copy, Debug, PartialEq, Eq)]
pub struct Descriptor {
    head: usize,
    tail: usize,
    status: Status,
}

impl Descriptor {
    pub fn of(desc: &[u32; DESCRIPTOR_DWORDS]) -> Descriptor
        ensures head { result.head ≡ slice_index desc.now 0 }
        ensures tail { result.tail ≡ slice_index desc.now 1 }
        ensures status { result.status.0 ≡ slice_index desc.now 2 }
    {
        Descriptor {
            head: desc[HEAD] as usize,
            tail: desc[TAIL] as usize,
            status: Status(desc[STATUS]),
        }
    }

    // (TAIL - HEAD) mod 1,024.
    fn used(self) -> usize
        ensures { result < 1024 }
    {
        self.tail.wrapping_sub(self.head) % PLACES
    }
}

impl fmt::Display for Descriptor {
    fn fmt<W: fmt::Write>(&self, f: &mut fmt::Formatter<W>) -> fmt::Result {
        let head = self.head;
        let tail = self.tail;
        write!(f, "HEAD {head}, TAIL {tail}, ")?;
        if head < PLACES && tail < PLACES {
            let used = self.used();
            write!(f, "used {used}, free {}, ", PLACES - 1 - used)?;
        }
        write!(f, "STATUS {}", self.status)
    }
}

// A ring with HEAD and TAIL over it, and the descriptor under it.
#[derive(Clone, Copy, Debug, PartialEq, Eq)]
pub struct Picture(pub Descriptor);

impl Picture {
    // H over HEAD, T over TAIL, X over both.
    fn mark(self, cell: usize) -> char {
        let d = self.0;
        match (d.head / WIDE == cell, d.tail / WIDE == cell) {
            (true, true) => 'X',
            (true, false) => 'H',
            (false, true) => 'T',
            (false, false) => ' ',
        }
    }

    // '#' where one of a cell's places is used, '.' where all are free.
    fn fill(self, cell: usize) -> char {
        let d = self.0;
        let used = d.used();
        let past_head = cell.wrapping_mul(WIDE).wrapping_sub(d.head) % PLACES;
        if past_head < used || (d.head / WIDE == cell && 0 < used) {
            '#'
        } else {
            '.'
        }
    }
}

impl fmt::Display for Picture {
    fn fmt<W: fmt::Write>(&self, f: &mut fmt::Formatter<W>) -> fmt::Result {
        let d = self.0;
        let last = d.head.max(d.tail) / WIDE;
        f.write_str("    ")?;
        for cell in (0..CELLS).take_while(|cell| *cell <= last) {
            f.write_char(self.mark(cell))?;
        }
        f.write_str("\n    ")?;
        for cell in 0..CELLS {
            f.write_char(self.fill(cell))?;
        }
        write!(f, "\n    {d}")
    }
}
