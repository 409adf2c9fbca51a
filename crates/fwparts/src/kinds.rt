// Files that are no firmware file that is judged here, named for what they are. The library judges first: what it
// accepts is never taken for one of these.
use crate::verdicts::Class;
use refusal::Refusal;
use std::{fmt, io};

#[derive(Clone, Copy, Debug, PartialEq, Eq)]
pub(crate) enum Kind {
    Xz,
    Zstd,
    Gzip,
    Elf,
    Text,
    Empty,
    Gsc,
    Other,
    // what the rules have no case for
    SignatureApart,
    HeaderApart,
    NoImage,
}

impl fmt::Display for Kind {
    fn fmt<W: fmt::Write>(&self, f: &mut fmt::Formatter<W>) -> fmt::Result {
        f.write_str(match self {
            Kind::Xz => "compressed by xz: unpack it first (xz -dk FILE)",
            Kind::Zstd => "compressed by zstd: unpack it first (zstd -d FILE)",
            Kind::Gzip => "compressed by gzip: unpack it first (gzip -dk FILE)",
            Kind::Elf => "an ELF program or object, not a firmware file",
            Kind::Text => "text, not a firmware file",
            Kind::Empty => "an empty file",
            Kind::Gsc => "a GSC image, which this version does not read",
            Kind::Other => {
                "not a file of GuC or HuC: neither their CSS header nor a code partition directory"
            }
            Kind::SignatureApart => {
                "a HuC directory with the signature apart, in guc_sig: ask the office, the rules have no case for it"
            }
            Kind::HeaderApart => {
                "a HuC directory with the CSS header apart, in HuC_CSS: ask the office, the rules have no case for it"
            }
            Kind::NoImage => {
                "a HuC directory without huc_fw: only for boxes that do not load in two steps, ask the office"
            }
        })
    }
}

// A file of that kind.
pub(crate) fn not_judged(rt: &impl Print, kind: Kind) -> io::Result<Class> {
    let class = Class::NotJudged;
    println!(rt; "{class}: {kind}")?;
    Ok(class)
}

// Whether it starts with the dword 6, as images of GuC and HuC do (Linux: the CSS module type). No rule reads it.
pub(crate) fn has_module_type(blob: &[u8]) -> bool {
    blob.starts_with(b"\x06\0\0\0")
}

// What a file is that the rules for images refuse for that reason, where it is of another kind.
pub(crate) fn of_image(blob: &[u8], why: Refusal) -> Option<Kind> {
    if blob.is_empty() {
        return Some(Kind::Empty);
    }
    let foreign = by_first_bytes(blob);
    if foreign.is_some() {
        return foreign;
    }
    if blob.iter().take(64).all(is_text) {
        return Some(Kind::Text);
    }
    match why {
        Refusal::CssSizes if has_module_type(blob) => None,
        Refusal::CssSizes if is_gsc(blob) => Some(Kind::Gsc),
        Refusal::CssSizes => Some(Kind::Other),
        _ => None,
    }
}

// What starts with bytes of its own.
fn by_first_bytes(blob: &[u8]) -> Option<Kind> {
    match blob {
        [0xfd, b'7', b'z', b'X', b'Z', 0, ..] => Some(Kind::Xz),
        [0x28, 0xb5, 0x2f, 0xfd, ..] => Some(Kind::Zstd),
        [0x1f, 0x8b, ..] => Some(Kind::Gzip),
        [0x7f, b'E', b'L', b'F', ..] => Some(Kind::Elf),
        _ => None,
    }
}

// Whether a byte is printable ASCII, or a tab or the end of a line.
fn is_text(byte: &u8) -> bool {
    matches!(byte, b' '..=b'~' | b'\t' | b'\n' | b'\r')
}

// A GSC image has the offset of Boot1 as the dword at byte 32, and there a partition table that starts AA 55 00 00
// (document 02, T-05). No file is that long where the dword's highest byte is not 0.
fn is_gsc(blob: &[u8]) -> bool {
    let Some([a, b, c, 0]) = blob.get(32..36) else {
        return false;
    };
    let boot1 = u32::from_le_bytes([*a, *b, *c, 0]) as usize;
    match blob.get(boot1..) {
        Some(table) => table.starts_with(b"\xaa\x55\0\0"),
        None => false,
    }
}
