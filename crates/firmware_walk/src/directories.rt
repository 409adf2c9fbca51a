// Code partition directories: their own numbers, and where the part of a name lies.
use crate::wording::sought;
use say::{Quoted, Verdict};
use stage::{Room, cut};
use std::io;

// Two entries after a header of 20 bytes, so that they end at byte 68, and room behind them.
// The second entry's part is given.
pub(crate) fn two_entries(second: &[u8], offset: u32, len: u32) -> Room {
    let mut room = stage::blank();
    stage::put_directory(&mut room, 2, 20);
    stage::put_entry(&mut room, 20, b"twelve_bytes", 70, 5);
    stage::put_entry(&mut room, 44, second, offset, len);
    room
}

// The same, with a part of the name huc_fw.
pub(crate) fn with_huc(offset: u32, len: u32) -> Room {
    two_entries(b"huc_fw", offset, len)
}

// How many entries a directory has, the names of the first two and of one too many, and what it is answered.
fn listed(rt: &impl Print, blob: &[u8]) -> io::Result<()> {
    let d = firmware::cpd_directory(blob);
    let count = d.map_or(0, |d| d.count);
    print!(rt; "{} bytes, entries {count}, names", blob.len())?;
    for i in 0..3 {
        print!(rt; " {}", Quoted(firmware::cpd_name(blob, i)))?;
    }
    println!(rt; "{}", Verdict::of(&d))
}

// The first len bytes of a directory.
fn listed_to(rt: &impl Print, room: &Room, len: usize) -> io::Result<()> {
    listed(rt, cut(room, len))
}

// A directory's own numbers: 15, 18 and 19.
pub(crate) fn entries(rt: &impl Print) -> io::Result<()> {
    println!(rt; "\nA directory of two entries after a header of 20 bytes: the entries end at 68")?;
    let room = two_entries(b"name_of_this", 68, 0);
    listed_to(rt, &room, 19)?;
    listed_to(rt, &room, 20)?;
    listed_to(rt, &room, 67)?;
    listed_to(rt, &room, 68)?;
    with_header_length(rt, room, 19)?;
    with_header_length(rt, room, 21)?;
    with_count(rt, 0, 20)?;
    with_count(rt, 0xffff_ffff, 100)?;
    print!(rt; "Marker $CPd: ")?;
    with_byte(rt, room, 3, b'd')
}

// The same with another header length.
fn with_header_length(rt: &impl Print, room: Room, length: u8) -> io::Result<()> {
    print!(rt; "Header length {length}: ")?;
    with_byte(rt, room, 10, length)
}

// The same with another byte.
fn with_byte(rt: &impl Print, room: Room, at: usize, value: u8) -> io::Result<()> {
    let mut other = room;
    stage::put(&mut other, at, value);
    listed_to(rt, &other, 68)
}

// A directory with that entry count and no entries laid.
fn with_count(rt: &impl Print, count: u32, len: usize) -> io::Result<()> {
    let mut room = stage::blank();
    stage::put_directory(&mut room, count, 20);
    print!(rt; "Entry count {count}: ")?;
    listed_to(rt, &room, len)
}

// Seeks huc_fw.
pub(crate) fn sought_huc(rt: &impl Print, room: &Room, len: usize) -> io::Result<()> {
    sought(rt, firmware::cpd_located(cut(room, len), b"huc_fw"))
}

// Parts that end where the blob ends, or a byte later.
pub(crate) fn parts(rt: &impl Print) -> io::Result<()> {
    println!(rt; "\nThe part of that directory's second entry")?;
    part_at(rt, 68, 0, 67)?;
    part_at(rt, 68, 0, 68)?;
    part_at(rt, 69, 0, 68)?;
    part_at(rt, 68, 1, 68)?;
    part_at(rt, 68, 1, 69)?;
    part_at(rt, 68, 0xffff_ffff, 100)?;
    println!(rt; "Bits 31:25 of an offset do not count, bit 24 does; 0x44 is 68")?;
    part_with_bits(rt, 0x0200_0044)?;
    part_with_bits(rt, 0xfe00_0044)?;
    part_with_bits(rt, 0x0100_0044)
}

// A part with that offset and length, in a blob of so many bytes.
fn part_at(rt: &impl Print, offset: u32, len: u32, bytes: usize) -> io::Result<()> {
    print!(rt; "Offset {offset}, length {len}, in {bytes} bytes")?;
    sought_huc(rt, &with_huc(offset, len), bytes)
}

// A part of 8 bytes with that offset as it is stored.
fn part_with_bits(rt: &impl Print, offset: u32) -> io::Result<()> {
    print!(rt; "Offset {offset:#010x}, length 8, in 100 bytes")?;
    sought_huc(rt, &with_huc(offset, 8), 100)
}
