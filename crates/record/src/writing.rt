// Writing a run of dwords into a record file. The whole run is judged and measured first; what is then written was taken
// into a copy message by message, and judged there again.
ghost use Rattle.std.specs.Prelude.{◌≡◌, ◌^◌, ◌<◌, leb, length};
ghost use Rattle.record.specs.Numbers.{bytes_of_run};
ghost use Rattle.record.specs.Calls.{write_answer, write_leaves, write_bound, of_written};
ghost use Rattle.record.specs.Private.{MeasuredTo, PutTo};

use crate::fault::Fault;
use crate::messages::{Wrong, judge_first, no_entry, take_first};
use crate::numbers::{put_run, run_size};

// Why a run is not written: what is wrong, and the place in the run of that message's direction; or the output is too
// short. With each the bytes that were written all the same: none, but where somebody rewrites the run during the call.
#[derive(Clone, Copy, Debug, PartialEq, Eq)]
pub enum WriteError {
    BadRecord {
        fault: Fault,
        at: usize,
        written: usize,
    },
    ShortRoom {
        written: usize,
    },
}

// Judges a run, and answers the bytes that it takes; or what is wrong, and the place of that message's direction.
fn measure(run: &[u32]) -> Result<usize, Wrong>
    ensures { MeasuredTo result run.now }
{
    let mut at = 0;
    let mut size = 0;
    while at < run.len() {
        match judge_first(&run[at..]) {
            Ok(dwords) => {
                let end = at + dwords;
                size += run_size(&run[at..end]);
                at = end;
            }
            Err(wrong) => {
                return Err(Wrong {
                    fault: wrong.fault,
                    place: at,
                });
            }
        }
    }
    Ok(size)
}

// Whether an output of so many bytes has room for some dwords: it has where there are five for each.
fn has_bytes(run: &[u32], room: usize) -> bool
    requires { length run.now < 2 ^ 60 }
    ensures { result ≡ leb (length (bytes_of_run run.now)) room }
{
    if 5 * run.len() <= room {
        return true;
    }
    run_size(run) <= room
}

// Writes the whole messages of a run, one behind the other, as far as they fit, and answers their bytes. Of a run that
// was measured it refuses nothing, unless somebody rewrote it since.
fn put_messages(run: &[u32], out: &mut [u8]) -> Result<usize, WriteError>
    ensures { PutTo result out.new out.old run.now }
{
    let mut copy = no_entry();
    let mut at = 0;
    let mut filled = 0;
    while at < run.len() {
        match take_first(&run[at..], &mut copy) {
            Ok(dwords) => {
                if !has_bytes(&copy[0..dwords], out.len() - filled) {
                    return Err(WriteError::ShortRoom { written: filled });
                }
                filled += put_run(&copy[0..dwords], &mut out[filled..]);
                at += dwords;
            }
            Err(wrong) => {
                return Err(WriteError::BadRecord {
                    fault: wrong.fault,
                    at,
                    written: filled,
                });
            }
        }
    }
    Ok(filled)
}

// Writes a run into a file, and answers its bytes.
pub fn write(run: &[u32], out: &mut [u8]) -> Result<usize, WriteError>
    ensures { (of_written result ≡ write_answer run.now (length out.old))
        × (out.new ≡ write_leaves run.now out.old) }
{
    match measure(run) {
        Ok(size) => {
            if out.len() < size {
                return Err(WriteError::ShortRoom { written: 0 });
            }
            put_messages(run, out)
        }
        Err(wrong) => Err(WriteError::BadRecord {
            fault: wrong.fault,
            at: wrong.place,
            written: 0,
        }),
    }
}

// The bytes that a run of so many dwords needs at most.
pub fn write_bound(dwords: usize) -> usize
    ensures { result ≡ write_bound dwords }
{
    dwords.saturating_mul(5)
}
