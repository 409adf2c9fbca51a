// Parts inside a directory: manifests, and images judged as blobs of their own.
use crate::names::put_huc;
use say::{ManifestVersion, Verdict};
use stage::{Room, cut};
use std::io;

// A directory with the manifest under its own name at byte 68 and the image at byte 112, of those lengths.
fn directory(manifest_len: u32, image_len: u32, h: usize) -> Room {
    stage::huc_directory(b"HUCP.man", manifest_len, image_len, h)
}

// An entry of the manifest's name.
fn put_manifest(s: &mut [u8], at: usize, offset: u32, len: u32) {
    stage::put_entry(s, at, b"HUCP.man", offset, len);
}

// Manifests on both sides of 44 bytes, and blobs without one.
pub(crate) fn manifests(rt: &impl Print) -> io::Result<()> {
    println!(rt; "\nManifests: HUCP.man at 68, which with length 44 ends at 112")?;
    manifest_of(rt, 43, 300)?;
    manifest_of(rt, 44, 300)?;
    manifest_of(rt, 44, 112)?;
    manifest_of(rt, 44, 111)?;
    manifest_of(rt, 44, 67)?;
    other_manifests(rt)
}

// A manifest of that length, in a blob of so many bytes.
fn manifest_of(rt: &impl Print, len: u32, bytes: usize) -> io::Result<()> {
    let room = directory(len, 160, 35);
    print!(rt; "Length {len}, in {bytes} bytes")?;
    manifest(rt, &room, bytes)
}

// What a manifest is answered, or its version.
fn manifest(rt: &impl Print, room: &Room, bytes: usize) -> io::Result<()> {
    let answer = firmware::manifest_version(cut(room, bytes));
    let verdict = Verdict::of(&answer);
    match answer {
        Ok(_) => println!(rt; "{verdict}; firmware version {}", ManifestVersion(answer)),
        Err(_) => println!(rt; "{verdict}"),
    }
}

// Another name in its place, and its name twice.
fn other_manifests(rt: &impl Print) -> io::Result<()> {
    let mut other = directory(44, 160, 35);
    stage::put_entry(&mut other, 20, b"HUCP.met", 68, 44);
    print!(rt; "HUCP.met instead")?;
    manifest(rt, &other, 300)?;
    put_manifest(&mut other, 20, 68, 44);
    put_manifest(&mut other, 44, 112, 160);
    print!(rt; "HUCP.man twice")?;
    manifest(rt, &other, 300)
}

// The image in the first bytes of a directory, judged.
fn judged_to(rt: &impl Print, room: &Room, bytes: usize) -> io::Result<()> {
    say::inner_image(rt, cut(room, bytes))
}

// An image in a part of that length, with that h.
fn image_of(rt: &impl Print, len: u32, h: usize) -> io::Result<()> {
    let room = directory(44, len, h);
    print!(rt; "Length {len}, h {h}")?;
    judged_to(rt, &room, 300)
}

// Images that are accepted.
pub(crate) fn accepted_images(rt: &impl Print) -> io::Result<()> {
    println!(rt; "\nImages in a directory of 300 bytes: huc_fw at 112, with s 40, k 1, m 1, e 1")?;
    image_of(rt, 160, 35)?;
    image_of(rt, 161, 35)?;
    image_of(rt, 188, 35)?;
    image_of(rt, 159, 35)?;
    image_of(rt, 152, 35)?;
    let mut room = directory(44, 160, 35);
    stage::put_dword(&mut room, 56, 0x0200_0070);
    print!(rt; "Length 160, h 35, offset 112 with bit 25 set")?;
    judged_to(rt, &room, 300)
}

// Images that the image's rules or the directory's refuse.
pub(crate) fn refused_images(rt: &impl Print) -> io::Result<()> {
    println!(rt; "\nImages in that directory that are refused; 188 bytes are left from 112 on")?;
    image_of(rt, 151, 35)?;
    image_of(rt, 127, 35)?;
    image_of(rt, 0, 35)?;
    image_of(rt, 160, 36)?;
    image_of(rt, 189, 35)?;
    other_images(rt)
}

// Another name in its place, entries cut off, and its name twice.
fn other_images(rt: &impl Print) -> io::Result<()> {
    let mut other = directory(44, 160, 35);
    print!(rt; "In 67 bytes")?;
    judged_to(rt, &other, 67)?;
    put_huc(&mut other, 20, 112, 160);
    print!(rt; "huc_fw twice")?;
    judged_to(rt, &other, 300)?;
    put_manifest(&mut other, 20, 68, 44);
    stage::put_entry(&mut other, 44, b"huc_fwx", 112, 160);
    print!(rt; "huc_fwx instead")?;
    judged_to(rt, &other, 300)
}
