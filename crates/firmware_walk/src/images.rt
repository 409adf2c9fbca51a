// CSS images: judged at each length, and with sizes that disagree.
use firmware::{Component, Located, Sizes};
use say::{Part, Version};
use stage::{Room, cut};
use std::{fmt, io};

fn sizes(h: usize, s: usize, k: usize, m: usize, e: usize) -> Sizes {
    Sizes { h, s, k, m, e }
}

// The first len bytes, judged.
fn judged_to(rt: &impl Print, room: &Room, len: usize) -> io::Result<()> {
    print!(rt; "{len} bytes")?;
    say::image(rt, cut(room, len))
}

// What else is answered where an image is refused: the same number, and the empty part at byte 0.
fn refused_as_well(rt: &impl Print, blob: &[u8]) -> io::Result<()> {
    let version = Version(firmware::css_version(blob));
    let ucode = located(blob, Component::Ucode);
    let exponent = located(blob, Component::Exponent);
    println!(rt; "    {version}; uCode {ucode}; exponent {exponent}")
}

// Where a component lies; where it is refused, the empty part.
fn located(blob: &[u8], which: Component) -> Part {
    let empty = Located {
        truncated: false,
        start: 0,
        len: 0,
    };
    Part(firmware::css_located(blob, which).unwrap_or(empty))
}

// The sizes that a line is about.
#[derive(Clone, Copy)]
struct Described(Sizes);

impl fmt::Display for Described {
    fn fmt<W: fmt::Write>(&self, f: &mut fmt::Formatter<W>) -> fmt::Result {
        let Sizes { h, s, k, m, e } = self.0;
        write!(f, "h {h}, s {s}, k {k}, m {m}, e {e}")
    }
}

// One image, in blobs of lengths on both sides of each line.
pub(crate) fn by_length(rt: &impl Print) -> io::Result<()> {
    let z = sizes(161, 1161, 64, 64, 1);
    println!(rt; "\nAn image with {}", Described(z))?;
    println!(rt; "uCode and RSA end at 4384, all ends at 4644; bytes past it belong to no part")?;
    let room = stage::image(z);
    judged_to(rt, &room, 127)?;
    refused_as_well(rt, cut(&room, 127))?;
    judged_to(rt, &room, 128)?;
    judged_to(rt, &room, 4383)?;
    judged_to(rt, &room, 4384)?;
    judged_to(rt, &room, 4643)?;
    judged_to(rt, &room, 4644)?;
    judged_to(rt, &room, 4700)
}

// The smallest image: its modulus and exponent have no bytes, so they are shown empty at its end.
pub(crate) fn smallest(rt: &impl Print) -> io::Result<()> {
    let z = sizes(33, 34, 1, 0, 0);
    println!(rt; "\nThe smallest image, with {}", Described(z))?;
    let room = stage::image(z);
    judged_to(rt, &room, 135)?;
    judged_to(rt, &room, 136)
}

// A blob of 4,644 bytes with those sizes, after a note on them.
fn wrong(rt: &impl Print, note: &str, z: Sizes) -> io::Result<()> {
    print!(rt; "{note}: {}", Described(z))?;
    let room = stage::image(z);
    say::image(rt, cut(&room, 4644))
}

// Sizes of which one is wrong, and a sum that is h only modulo 2^32.
pub(crate) fn sizes_disagree(rt: &impl Print) -> io::Result<()> {
    println!(rt; "\nImages of 4644 bytes whose sizes disagree, or that are longer than the blob")?;
    wrong(rt, "h one too few", sizes(160, 1161, 64, 64, 1))?;
    wrong(rt, "h one too many", sizes(162, 1161, 64, 64, 1))?;
    wrong(rt, "k is 0", sizes(97, 1161, 0, 64, 1))?;
    wrong(
        rt,
        "s is h, so that there is no uCode",
        sizes(161, 161, 64, 64, 1),
    )?;
    wrong(
        rt,
        "32 + k + m + e is h only modulo 2^32",
        sizes(96, 1161, 0xffff_ffff, 64, 1),
    )?;
    wrong(
        rt,
        "The largest s, whose 4s is more than 2^32",
        sizes(161, 0xffff_ffff, 64, 64, 1),
    )
}
