// A file, piece by piece: what is not a whole message yet at the end of a piece goes to the front of the next one.
ghost use Rattle.std.specs.Prelude.{◌≤◌, length};

use record::{Fault, ReadError};
use say::Stop;
use std::alloc::{AllocError, Global};
use std::io::{ErrorKind, Read};

// So many bytes has a piece, which is longer than any message.
const LONG: usize = 65536;

// How a file ends: whole; where the system stops reading; or with what is wrong at a byte.
#[derive(Clone, Copy, Debug, PartialEq, Eq)]
pub(crate) enum End {
    Whole,
    Unread(ErrorKind),
    Damaged { fault: Fault, at: u64 },
}

// A piece, the run of the whole messages that are in it, and how far the file is read: the byte of the file that the piece
// starts with, and how many bytes of it are there already.
#[derive(Drop)]
pub(crate) struct Pieces {
    piece: Vec<u8>,
    run: Vec<u32>,
    front: u64,
    kept: usize,
    laid: usize,
}

impl Pieces {
    // Nothing read yet. A run has as many dwords as a piece has bytes, so that what is read always fits.
    pub(crate) fn new(alloc: Global) -> Result<Pieces, AllocError> {
        Ok(Pieces {
            piece: vec![in alloc; 0u8; LONG]?,
            run: vec![in alloc; 0u32; LONG]?,
            front: 0,
            kept: 0,
            laid: 0,
        })
    }

    // The byte that the next piece starts with.
    pub(crate) fn front(&self) -> u64 {
        self.front
    }

    // The messages that were laid last.
    pub(crate) fn run(&self) -> &[u32] {
        let run = self.run.as_slice();
        run.get(..self.laid).unwrap_or(run)
    }

    // Reads on into the piece, lays the whole messages that are in it then, and answers how the file ends, where it does. A
    // piece is longer than any message, so one that has no whole message is damaged, as is the last one that is not used up.
    pub(crate) fn read_on(&mut self, file: &mut impl Read) -> Option<End> {
        let piece = self.piece.as_mut_slice();
        let f = say::fill(file, piece, self.kept);
        let (laid, damage) = match record::read(&piece[..f.n], self.run.as_mut_slice()) {
            Ok(laid) => (laid, None),
            Err(ReadError::ShortRoom { laid }) => (laid, None),
            Err(ReadError::BadRecord { fault, at, laid }) => {
                let at = self.front.wrapping_add(at as u64);
                (laid, Some(End::Damaged { fault, at }))
            }
        };
        self.front = self.front.wrapping_add(laid.took as u64);
        self.kept = keep(piece, laid.took, f.n);
        self.laid = laid.written;
        match f.stop {
            Stop::Full if laid.took == 0 => damage,
            Stop::Full => None,
            Stop::End => Some(damage.unwrap_or(End::Whole)),
            Stop::Error(error) => Some(End::Unread(error)),
        }
    }
}

// Brings the bytes behind `from` to the front, and answers how many they are.
fn keep(piece: &mut [u8], from: usize, n: usize) -> usize
    requires { n ≤ length piece.old }
    ensures { result ≤ length piece.new }
{
    if n <= from {
        return 0;
    }
    piece.copy_within(from..n, 0);
    n - from
}
