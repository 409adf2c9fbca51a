// Firmware parts for C: located, and copied out in the call that judges them. One call makes one judgement: number,
// start and length are that one's.
ghost use Rattle.std.specs.Prelude.{◌≡◌, ◌++◌, ◌+◌, ◌≤◌, length, drop, MatchOption};
ghost use Rattle.std.proofs.Math.Option.{none, some};
ghost use Rattle.firmware.specs.Bytes.{bytes, of_located, span};
ghost use Rattle.firmware.specs.Css;
ghost use Rattle.firmware.specs.Css.{of_answer};
ghost use Rattle.firmware.specs.Inside.{huc_number, huc_truncated};
ghost use Rattle.guc.specs.Parts.{image_by, component_of, css_part, huc_part, cpd_part, flag, part_by};
ghost use Rattle.guc.specs.Parts.{copied, copied_by, css_copy, huc_copy, cpd_copy};

use crate::numbers::{NO_ROOM, NO_SUCH};
use firmware::{Component, ImageAnswer, Located};
use refusal::{Refusal, number_of};

// The components' numbers for C, in their order.
const PART_UCODE: u32 = 0;

const PART_RSA: u32 = 1;

const PART_MODULUS: u32 = 2;

const PART_EXPONENT: u32 = 3;

// 0 or the number that refuses an image, and whether it is truncated, 0 or 1.
#[repr(C)]
#[derive(Clone, Copy)]
pub struct Image {
    pub code: u32,
    pub truncated: u32,
}

// 0 and where a part lies in the lent blob, with whether its image is truncated, 0 or 1; or the number that refuses it
// with zeros.
#[repr(C)]
#[derive(Clone, Copy)]
pub struct Part {
    pub code: u32,
    pub truncated: u32,
    pub start: usize,
    pub len: usize,
}

// 0 and the bytes copied, with whether the part's image is truncated, or the number that refuses it; 100 with the bytes
// that are needed.
#[repr(C)]
#[derive(Clone, Copy)]
pub struct Copied {
    pub code: u32,
    pub truncated: u32,
    pub len: usize,
}

// The component of a number.
fn component(which: u32) -> Option<Component>
    ensures { MatchOption result (component_of which ≡ none) (λ c. component_of which ≡ some c) }
{
    match which {
        PART_UCODE => Some(Component::Ucode),
        PART_RSA => Some(Component::Rsa),
        PART_MODULUS => Some(Component::Modulus),
        PART_EXPONENT => Some(Component::Exponent),
        _ => None,
    }
}

impl From<Result<ImageAnswer, Refusal>> for Image {
    ghost from_gives = { λ a r. r ≡ image_by (of_answer a).code (of_answer a).truncated };

    fn from(a: Result<ImageAnswer, Refusal>) -> Image {
        Image {
            code: number_of(&a),
            truncated: a.map_or(0, |a| u32::from(a.truncated)),
        }
    }
}

impl From<Result<Located, Refusal>> for Part {
    ghost from_gives = { λ l r. r ≡ part_by (of_located l) };

    fn from(l: Result<Located, Refusal>) -> Part {
        match l {
            Ok(l) => Part {
                code: 0,
                truncated: u32::from(l.truncated),
                start: l.start,
                len: l.len,
            },
            Err(r) => Part::refused(r.number()),
        }
    }
}

impl Part {
    fn refused(code: u32) -> Part
        ensures { result ≡ record { code = code; truncated = 0; start = 0; len = 0 } }
    {
        Part {
            code,
            truncated: 0,
            start: 0,
            len: 0,
        }
    }
}

impl Copied {
    fn refused(code: u32) -> Copied
        ensures { result ≡ record { code = code; truncated = 0; len = 0 } }
    {
        Copied {
            code,
            truncated: 0,
            len: 0,
        }
    }
}

#[unsafe(no_mangle)]
pub extern "C" fn guc_css_answer(blob: &[u8]) -> Image
    ensures { result ≡ image_by (Css.number blob.now) (Css.truncated blob.now) }
{
    Image::from(firmware::css_answer(blob))
}

#[unsafe(no_mangle)]
pub extern "C" fn guc_huc_answer(blob: &[u8]) -> Image
    ensures { result ≡ image_by (huc_number blob.now) (huc_truncated blob.now) }
{
    Image::from(firmware::huc_answer(blob))
}

#[unsafe(no_mangle)]
pub extern "C" fn guc_css_part(blob: &[u8], which: u32) -> Part
    ensures { result ≡ css_part which blob.now }
{
    match component(which) {
        Some(c) => Part::from(firmware::css_located(blob, c)),
        None => Part::refused(NO_SUCH),
    }
}

#[unsafe(no_mangle)]
pub extern "C" fn guc_huc_part(blob: &[u8], which: u32) -> Part
    ensures { result ≡ huc_part which blob.now }
{
    match component(which) {
        Some(c) => Part::from(firmware::huc_located(blob, c)),
        None => Part::refused(NO_SUCH),
    }
}

#[unsafe(no_mangle)]
pub extern "C" fn guc_cpd_part(blob: &[u8], name: &[u8]) -> Part
    ensures { result ≡ cpd_part blob.now name.now }
{
    Part::from(firmware::cpd_located(blob, name))
}

// Copies out the part that was located, where the destination has room for it: its bytes are read, and nothing that was
// judged is read again.
fn copy_part(blob: &[u8], l: Result<Located, Refusal>, dst: &mut [u8]) -> Copied
    requires { (of_located l).start + (of_located l).len ≤ length blob.now }
    ensures { copied result dst.new
        ≡ copied_by (of_located l).code (flag (of_located l).truncated)
        (bytes blob.now (span (of_located l).start ((of_located l).start + (of_located l).len)))
        dst.old }
{
    let l = match l {
        Ok(l) => l,
        Err(r) => return Copied::refused(r.number()),
    };
    let part = &blob[l.start..l.start + l.len];
    let truncated = u32::from(l.truncated);
    let len = part.len();
    if dst.len() < len {
        return Copied {
            code: NO_ROOM,
            truncated,
            len,
        };
    }
    slices::copy(dst, part);
    Copied {
        code: 0,
        truncated,
        len,
    }
}

#[unsafe(no_mangle)]
pub extern "C" fn guc_css_copy(blob: &[u8], which: u32, dst: &mut [u8]) -> Copied
    ensures { copied result dst.new ≡ css_copy which blob.now dst.old }
{
    match component(which) {
        Some(c) => copy_part(blob, firmware::css_located(blob, c), dst),
        None => Copied::refused(NO_SUCH),
    }
}

#[unsafe(no_mangle)]
pub extern "C" fn guc_huc_copy(blob: &[u8], which: u32, dst: &mut [u8]) -> Copied
    ensures { copied result dst.new ≡ huc_copy which blob.now dst.old }
{
    match component(which) {
        Some(c) => copy_part(blob, firmware::huc_located(blob, c), dst),
        None => Copied::refused(NO_SUCH),
    }
}

#[unsafe(no_mangle)]
pub extern "C" fn guc_cpd_copy(blob: &[u8], name: &[u8], dst: &mut [u8]) -> Copied
    ensures { copied result dst.new ≡ cpd_copy blob.now name.now dst.old }
{
    copy_part(blob, firmware::cpd_located(blob, name), dst)
}
