// Reading a record file back into a run of dwords. What is laid was judged from the very bytes, by the pass that lays it;
// a pass before it only decides 30, and only where the file could have more dwords than the output.
ghost use Rattle.std.specs.Prelude.{◌≡◌, leb, length};
ghost use Rattle.record.specs.Files.{whole_of};
ghost use Rattle.record.specs.Calls.{read_answer, read_leaves, of_read};
ghost use Rattle.record.specs.Private.{LaidTo};

use crate::fault::Fault;
use crate::finding::read_message;
use crate::messages::no_entry;

// The dwords that were laid, and the bytes of the file that these messages took.
#[derive(Clone, Copy, Debug, PartialEq, Eq)]
pub struct Laid {
    pub written: usize,
    pub took: usize,
}

// Why a file is not read to its end: what is wrong, and the byte where the bad number starts; or the output is too
// short. With each what was laid all the same.
#[derive(Clone, Copy, Debug, PartialEq, Eq)]
pub enum ReadError {
    BadRecord { fault: Fault, at: usize, laid: Laid },
    ShortRoom { laid: Laid },
}

// How many dwords the whole messages of a file have. It is lent no output, so that nothing is laid before 30 is decided.
fn count_dwords(file: &[u8]) -> usize
    ensures { result ≡ whole_of file.now }
{
    let mut copy = no_entry();
    let mut at = 0;
    let mut dwords = 0;
    while at < file.len() {
        match read_message(&file[at..], &mut copy) {
            Ok(m) => {
                dwords += m.dwords;
                at += m.size;
            }
            Err(_) => return dwords,
        }
    }
    dwords
}

// Lays the whole messages of a file, one behind the other, as far as they fit.
fn lay(file: &[u8], out: &mut [u32]) -> Result<Laid, ReadError>
    ensures { LaidTo (of_read result) out.new out.old file.now }
{
    let mut copy = no_entry();
    let mut at = 0;
    let mut filled = 0;
    while at < file.len() {
        let laid = Laid {
            written: filled,
            took: at,
        };
        match read_message(&file[at..], &mut copy) {
            Ok(m) => {
                let end = filled + m.dwords;
                if out.len() < end {
                    return Err(ReadError::ShortRoom { laid });
                }
                slices::copy(&mut out[filled..end], &copy[0..m.dwords]);
                filled = end;
                at += m.size;
            }
            Err(torn) => {
                return Err(ReadError::BadRecord {
                    fault: torn.fault,
                    at: at + torn.at,
                    laid,
                });
            }
        }
    }
    Ok(Laid {
        written: filled,
        took: at,
    })
}

// Whether an output has room for the whole messages of a file. One with a dword for each byte has, so that the file is
// read but once.
fn has_room(file: &[u8], room: usize) -> bool
    ensures { result ≡ leb (whole_of file.now) room }
{
    if file.len() <= room {
        return true;
    }
    count_dwords(file) <= room
}

// Reads a file back.
pub fn read(file: &[u8], out: &mut [u32]) -> Result<Laid, ReadError>
    ensures { (of_read result ≡ read_answer file.now (length out.old))
        × (out.new ≡ read_leaves file.now out.old) }
{
    if !has_room(file, out.len()) {
        return Err(ReadError::ShortRoom {
            laid: Laid {
                written: 0,
                took: 0,
            },
        });
    }
    lay(file, out)
}
