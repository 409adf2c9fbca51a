// A record to mail home, for C: each call is the library's own, its answer a number with the figures that C reads.
ghost use Rattle.std.specs.Prelude.{◌≡◌, length};
ghost use Rattle.record.specs.Calls.{add_answer, add_leaves, write_answer, write_leaves, write_bound, read_answer, read_leaves};
ghost use Rattle.record.specs.Calls.{of_added, of_written, of_read};
ghost use Rattle.guc.specs.Records.{in_added, in_written, in_read};

use record::{AddError, Laid, ReadError, WriteError};
use refusal::Refusal;

// What adding answers: 0, 29 or 30; at 29 what is wrong; the place for the next message.
#[repr(C)]
#[derive(Clone, Copy)]
pub struct Added {
    pub code: u32,
    pub fault: u32,
    pub place: usize,
}

impl Added {
    // On a refusal the place stays.
    fn new(place: usize, answer: Result<usize, AddError>) -> Added
        ensures { in_added result ≡ of_added place answer }
    {
        match answer {
            Ok(next) => Added {
                code: 0,
                fault: 0,
                place: next,
            },
            Err(AddError::BadRecord(fault)) => Added {
                code: Refusal::BadRecord.number(),
                fault: fault.number(),
                place,
            },
            Err(AddError::ShortRoom) => Added {
                code: Refusal::ShortRoom.number(),
                fault: 0,
                place,
            },
        }
    }
}

// What writing answers: 0, 29 or 30; at 29 what is wrong, and the place in the run of that message's direction; the
// bytes that were written.
#[repr(C)]
#[derive(Clone, Copy)]
pub struct Written {
    pub code: u32,
    pub fault: u32,
    pub at: usize,
    pub written: usize,
}

impl From<Result<usize, WriteError>> for Written {
    ghost from_gives = { λ answer written. in_written written ≡ of_written answer };

    fn from(answer: Result<usize, WriteError>) -> Written {
        match answer {
            Ok(written) => Written {
                code: 0,
                fault: 0,
                at: 0,
                written,
            },
            Err(WriteError::BadRecord { fault, at, written }) => Written {
                code: Refusal::BadRecord.number(),
                fault: fault.number(),
                at,
                written,
            },
            Err(WriteError::ShortRoom { written }) => Written {
                code: Refusal::ShortRoom.number(),
                fault: 0,
                at: 0,
                written,
            },
        }
    }
}

// What reading answers: 0, 29 or 30; at 29 what is wrong, and the byte where the bad number starts; the dwords that were
// laid, and the bytes of the file that these messages took.
#[repr(C)]
#[derive(Clone, Copy)]
pub struct ReadBack {
    pub code: u32,
    pub fault: u32,
    pub at: usize,
    pub written: usize,
    pub took: usize,
}

impl From<Result<Laid, ReadError>> for ReadBack {
    ghost from_gives = { λ answer back. in_read back ≡ of_read answer };

    fn from(answer: Result<Laid, ReadError>) -> ReadBack {
        match answer {
            Ok(laid) => ReadBack {
                code: 0,
                fault: 0,
                at: 0,
                written: laid.written,
                took: laid.took,
            },
            Err(ReadError::BadRecord { fault, at, laid }) => ReadBack {
                code: Refusal::BadRecord.number(),
                fault: fault.number(),
                at,
                written: laid.written,
                took: laid.took,
            },
            Err(ReadError::ShortRoom { laid }) => ReadBack {
                code: Refusal::ShortRoom.number(),
                fault: 0,
                at: 0,
                written: laid.written,
                took: laid.took,
            },
        }
    }
}

#[unsafe(no_mangle)]
pub extern "C" fn guc_record_add(
    run: &mut [u32],
    place: usize,
    direction: u32,
    msg: &[u32],
) -> Added
    ensures { (in_added result ≡ add_answer (length run.old) place direction msg.now)
        × (run.new ≡ add_leaves run.old place direction msg.now) }
{
    Added::new(place, record::add(run, place, direction, msg))
}

#[unsafe(no_mangle)]
pub extern "C" fn guc_record_write_bound(dwords: usize) -> usize
    ensures { result ≡ write_bound dwords }
{
    record::write_bound(dwords)
}

#[unsafe(no_mangle)]
pub extern "C" fn guc_record_write(run: &[u32], file: &mut [u8]) -> Written
    ensures { (in_written result ≡ write_answer run.now (length file.old))
        × (file.new ≡ write_leaves run.now file.old) }
{
    Written::from(record::write(run, file))
}

#[unsafe(no_mangle)]
pub extern "C" fn guc_record_read(file: &[u8], run: &mut [u32]) -> ReadBack
    ensures { (in_read result ≡ read_answer file.now (length run.old))
        × (run.new ≡ read_leaves file.now run.old) }
{
    ReadBack::from(record::read(file, run))
}
