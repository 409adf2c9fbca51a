// Firmware files laid byte by byte: numbers, names, image headers, directories and entries. A byte that does
// not fit is not laid.
ghost use Rattle.std.specs.Prelude.{◌≡◌, ◌%◌, ◌^◌, ◌≤◌, take, replicate, slice_set};
ghost use Rattle.stage.specs.Dwords.{FrontOf};
ghost use Rattle.stage.specs.Files;

use crate::dwords::{front, put};
use firmware::Sizes;

// Room for any file of a scene; a line takes as many of its first bytes as it speaks of.
pub type Room = [u8; 4700];

// Room with nothing laid in it.
pub fn blank() -> Room
    ensures { result ≡ replicate 4700 0 }
{
    [0u8; 4700]
}

// The first len bytes of a blob.
pub fn cut(blob: &Room, len: usize) -> &[u8]
    ensures { FrontOf blob.entry (take len blob.now) result }
{
    front(blob, len)
}

// Stores four bytes in front.
fn put_front(s: &mut [u8], a: u8, b: u8, c: u8, d: u8)
    ensures { s.new ≡ Files.four a b c d s.old }
{
    put(s, 0, a);
    put(s, 1, b);
    put(s, 2, c);
    put(s, 3, d);
}

// Stores four bytes.
fn put_four(s: &mut [u8], at: usize, a: u8, b: u8, c: u8, d: u8)
    ensures { s.new ≡ Files.from at (Files.four a b c d) s.old }
{
    if at <= s.len() {
        put_front(&mut s[at..], a, b, c, d);
    }
}

// Stores a dword, little-endian.
pub fn put_dword(s: &mut [u8], at: usize, v: u32)
    ensures { s.new ≡ Files.dword at v s.old }
{
    put_four(
        s,
        at,
        (v % 0x100) as u8,
        (v / 0x100 % 0x100) as u8,
        (v / 0x1_0000 % 0x100) as u8,
        (v / 0x100_0000) as u8,
    );
}

// Stores four bytes of a name, from byte j of it on, at byte j.
fn put_name_bytes(s: &mut [u8], name: &[u8], j: usize)
    requires { j ≤ 8 }
    ensures { s.new ≡ Files.name_bytes name.now j s.old }
{
    let a = firmware::byte_at(name, j);
    let b = firmware::byte_at(name, j + 1);
    let c = firmware::byte_at(name, j + 2);
    let d = firmware::byte_at(name, j + 3);
    put_four(s, j, a, b, c, d);
}

// Stores the twelve bytes of a name, zero padded.
fn put_name(s: &mut [u8], name: &[u8])
    ensures { s.new ≡ Files.name name.now s.old }
{
    put_name_bytes(s, name, 0);
    put_name_bytes(s, name, 4);
    put_name_bytes(s, name, 8);
}

// The header of an image that starts at byte `at`, with those sizes and version 70.5.1.
pub fn put_image(s: &mut [u8], at: usize, z: Sizes)
    ensures { s.new ≡ Files.from at (Files.header z) s.old }
{
    if at <= s.len() {
        put_header(&mut s[at..], z);
    }
}

// Stores a size, in a dword.
fn put_size(s: &mut [u8], at: usize, size: usize)
    ensures { s.new ≡ Files.dword at (size % 2 ^ 32) s.old }
{
    put_dword(s, at, (size % 0x1_0000_0000) as u32);
}

fn put_header(s: &mut [u8], z: Sizes)
    ensures { s.new ≡ Files.header z s.old }
{
    put_size(s, 4, z.h);
    put_size(s, 24, z.s);
    put_size(s, 28, z.k);
    put_size(s, 32, z.m);
    put_size(s, 36, z.e);
    put_dword(s, 64, 0x0046_0501);
}

// The marker $CPD, the entry count and the header length of a directory.
pub fn put_directory(s: &mut [u8], count: u32, header: u8)
    ensures { s.new ≡ Files.directory count header s.old }
{
    put_dword(s, 0, 0x4450_4324);
    put_dword(s, 4, count);
    put(s, 10, header);
}

// An entry in front: its name, its offset as stored, and its length.
fn put_entry_front(s: &mut [u8], name: &[u8], offset: u32, len: u32)
    ensures { s.new ≡ Files.entry name.now offset len s.old }
{
    put_name(s, name);
    put_dword(s, 12, offset);
    put_dword(s, 16, len);
}

// An entry at byte `at`.
pub fn put_entry(s: &mut [u8], at: usize, name: &[u8], offset: u32, len: u32)
    ensures { s.new ≡ Files.from at (Files.entry name.now offset len) s.old }
{
    if at <= s.len() {
        put_entry_front(&mut s[at..], name, offset, len);
    }
}

// A file that is an image with those sizes, in a room.
pub fn image(z: Sizes) -> Room
    ensures { result ≡ Files.from 0 (Files.header z) (replicate 4700 0) }
{
    let mut room = blank();
    put_image(&mut room, 0, z);
    room
}

// A directory of two entries after a header of 20 bytes: a manifest of version 9.4.2.0 at byte 68, under that name, and
// as huc_fw an image at byte 112 with that h, s 40 and 1 dword each of RSA, modulus and exponent, so that it ends at byte
// 272. What the entries say of the lengths is given.
pub fn huc_directory(first: &[u8], manifest_len: u32, image_len: u32, h: usize) -> Room
    ensures { result ≡ Files.huc_directory first.now manifest_len image_len h (replicate 4700 0) }
{
    let mut room = blank();
    put_directory(&mut room, 2, 20);
    put_entry(&mut room, 20, first, 68, manifest_len);
    put_entry(&mut room, 44, b"huc_fw", 112, image_len);
    put_dword(&mut room, 104, 0x0004_0009);
    put_dword(&mut room, 108, 0x0000_0002);
    let z = Sizes {
        h,
        s: 40,
        k: 1,
        m: 1,
        e: 1,
    };
    put_image(&mut room, 112, z);
    room
}
