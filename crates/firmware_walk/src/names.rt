// Names in a directory: whole names agree and prefixes do not, a name that two entries have is refused, and names that
// may not be sought.
use crate::directories::{sought_huc, two_entries, with_huc};
use crate::wording::sought;
use say::Quoted;
use stage::{Room, cut};
use std::io;

// Seeks a name in the first len bytes.
fn seek_in(rt: &impl Print, room: &Room, len: usize, name: &[u8]) -> io::Result<()> {
    print!(rt; "In {len} bytes, ")?;
    seek(rt, cut(room, len), name)
}

fn seek(rt: &impl Print, blob: &[u8], name: &[u8]) -> io::Result<()> {
    print!(rt; "seek {}", Quoted(name))?;
    sought(rt, firmware::cpd_located(blob, name))
}

// Names that are there, and that are not.
pub(crate) fn found_or_not(rt: &impl Print) -> io::Result<()> {
    println!(rt;
        "\nNames sought in 100 bytes: \"twelve_bytes\" at 70 to 75, then \"huc_fw\" at 80 to 84"
    )?;
    let room = with_huc(80, 4);
    let d = cut(&room, 100);
    seek(rt, d, b"huc_fw")?;
    seek(rt, d, b"twelve_bytes")?;
    seek(rt, d, b"huc")?;
    seek(rt, d, b"huc_fwx")?;
    seek(rt, d, b"HUC_FW")?;
    seek(rt, d, b"HUCP.man")
}

// Names of which one is a prefix, and a name that two entries have. 100 bytes each.
pub(crate) fn alike_or_twice(rt: &impl Print) -> io::Result<()> {
    println!(rt; "\nNames that begin alike, and one name twice, in 100 bytes: seek \"huc_fw\"")?;
    longer_first(rt)?;
    twice(rt, 70, 5)?;
    twice(rt, 99, 2)?;
    twice(rt, 80, 4)?;
    not_counted(rt)?;
    first_and_last(rt)
}

// An entry of the name huc_fw at byte `at`.
pub(crate) fn put_huc(s: &mut [u8], at: usize, offset: u32, len: u32) {
    stage::put_entry(s, at, b"huc_fw", offset, len);
}

// A longer name comes first, and the name sought is its prefix.
fn longer_first(rt: &impl Print) -> io::Result<()> {
    let mut room = with_huc(80, 4);
    stage::put_entry(&mut room, 20, b"huc_fwx", 70, 5);
    print!(rt; "\"huc_fwx\" at 70 to 75 and \"huc_fw\" at 80 to 84")?;
    sought_huc(rt, &room, 100)
}

// Two entries of the name, the second at 80 to 84: refused also where they are alike, and before a part that lies
// beyond the blob.
fn twice(rt: &impl Print, offset: u32, len: u32) -> io::Result<()> {
    let mut room = with_huc(80, 4);
    put_huc(&mut room, 20, offset, len);
    let end = offset.wrapping_add(len);
    print!(rt; "\"huc_fw\" at {offset} to {end} and again at 80 to 84")?;
    sought_huc(rt, &room, 100)
}

// An entry behind those that the directory counts is none.
fn not_counted(rt: &impl Print) -> io::Result<()> {
    let mut room = with_huc(80, 4);
    put_huc(&mut room, 20, 80, 4);
    stage::put_directory(&mut room, 1, 20);
    print!(rt; "The same with entry count 1")?;
    sought_huc(rt, &room, 100)
}

// Entry 0 and entry 2 have one name, entry 1 another, which is still found.
fn first_and_last(rt: &impl Print) -> io::Result<()> {
    let mut room = two_entries(b"other", 94, 3);
    stage::put_directory(&mut room, 3, 20);
    put_huc(&mut room, 20, 92, 2);
    put_huc(&mut room, 68, 97, 3);
    print!(rt; "\"huc_fw\" at 92 to 94, \"other\" at 94 to 97, \"huc_fw\" at 97 to 100")?;
    sought_huc(rt, &room, 100)?;
    seek(rt, cut(&room, 100), b"other")
}

// Names that may not be sought, whatever the blob is: 14 is the lowest number here.
pub(crate) fn refused(rt: &impl Print) -> io::Result<()> {
    println!(rt; "\nNames that may not be sought")?;
    let room = with_huc(80, 4);
    seek_in(rt, &room, 100, b"")?;
    seek_in(rt, &room, 100, b"twelve_bytes1")?;
    seek_in(rt, &room, 100, b"huc_fw\0")?;
    seek_in(rt, &room, 100, b"\0")?;
    seek_in(rt, &room, 19, b"")?;
    seek_in(rt, &room, 19, b"huc_fw")
}
