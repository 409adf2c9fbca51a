// Firmware files: an image judged and handed out in parts, files put in its place, a directory with an image in it, and
// one that has the image's name twice.
use firmware::Sizes;
use say::{ManifestVersion, Part, Quoted, Verdict};
use stage::{Room, cut};
use std::io;

// A file that is an image with h as given, s 40, k 1, m 1, e 1.
fn image(h: usize) -> Room {
    stage::image(Sizes {
        h,
        s: 40,
        k: 1,
        m: 1,
        e: 1,
    })
}

// A file by its length: what it is answered, and where its parts lie.
fn judged(rt: &impl Print, blob: &[u8]) -> io::Result<()> {
    print!(rt; "  A file of {} bytes", blob.len())?;
    say::image(rt, blob)
}

// One image, and what is put in its place.
pub(crate) fn images(rt: &impl Print) -> io::Result<()> {
    rt.print(
        "\n9. A firmware file is judged, and judged afresh when it is swapped\n\
         \x20 An image with sizes in dwords: all but uCode 35, all 40, and 1 each of RSA,\n\
         \x20 modulus and exponent; then its first bytes only, then all but uCode 36\n",
    )?;
    let good = image(35);
    judged(rt, cut(&good, 160))?;
    judged(rt, cut(&good, 159))?;
    judged(rt, cut(&good, 151))?;
    judged(rt, cut(&image(36), 160))
}

// A directory with a manifest under that name from byte 68 to 112, and that image as huc_fw from there to 272.
fn directory(first: &[u8]) -> Room {
    stage::huc_directory(first, 44, 160, 35)
}

// A name sought in a directory.
fn sought(rt: &impl Print, blob: &[u8], name: &[u8]) -> io::Result<()> {
    let answer = firmware::cpd_located(blob, name);
    print!(rt; "  Seek {}{}", Quoted(name), Verdict::of(&answer))?;
    match answer {
        Ok(l) => println!(rt; ", {}", Part(l)),
        Err(_) => println!(rt; ""),
    }
}

// The image that a directory has under huc_fw.
fn image_inside(rt: &impl Print, blob: &[u8]) -> io::Result<()> {
    print!(rt; "  The image in huc_fw, as a file of its own")?;
    say::inner_image(rt, blob)
}

// A directory, its parts, and the image in one of them.
pub(crate) fn directories(rt: &impl Print) -> io::Result<()> {
    println!(rt; "\n10. A code partition directory, with an image in it")?;
    let file = directory(b"HUCP.man");
    let blob = cut(&file, 272);
    sought(rt, blob, b"HUCP.man")?;
    let version = ManifestVersion(firmware::manifest_version(blob));
    println!(rt; "  The manifest's version: {version}")?;
    sought(rt, blob, b"huc")?;
    image_inside(rt, blob)?;
    doubled(rt)
}

// The same with huc_fw as the name of both entries.
fn doubled(rt: &impl Print) -> io::Result<()> {
    println!(rt; "  Swapped for a file in which both entries are named huc_fw")?;
    let file = directory(b"huc_fw");
    image_inside(rt, cut(&file, 272))
}
