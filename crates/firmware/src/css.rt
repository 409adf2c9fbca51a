// CSS firmware images: the judgement, and each component as a part of the lent blob.
ghost use Rattle.std.specs.Prelude.{◌≡◌, cond, ◌+◌, ◌*◌, ◌≤◌, ◌<◌, ◌^◌, length, leb};
ghost use Rattle.firmware.specs.Bytes.{PartOf, span, nowhere, located_at, of_located};
ghost use Rattle.firmware.specs.declared.css.Component.TheVariants.{Ucode, Rsa, Modulus, Exponent};
ghost use Rattle.firmware.specs.Css;
ghost use Rattle.firmware.specs.Css.{of_answer};
ghost use Rattle.firmware.specs.Private.{Small, LocatedBy, rank};

use crate::bytes::{Located, dword_at, part};
use refusal::Refusal;

// 'CSS: at least 128 bytes': what the header has.
pub(crate) const HEADER_BYTES: usize = 128;

// Where the dwords of the header that are read start: '1 = h (all that is not uCode), 6 = s (all), 7 = k (RSA), 8 = m
// (modulus), 9 = e (exponent), 16 = version'.
const H_AT: usize = 4 * 1;

const S_AT: usize = 4 * 6;

const K_AT: usize = 4 * 7;

const M_AT: usize = 4 * 8;

const E_AT: usize = 4 * 9;

pub(crate) const VERSION_AT: usize = 4 * 16;

// The parts of an image beside its header, in their order.
#[derive(Clone, Copy, Debug, PartialEq, Eq)]
pub enum Component {
    Ucode,
    Rsa,
    Modulus,
    Exponent,
}

// What an image that is accepted is answered: whether it is without its modulus and exponent.
#[derive(Clone, Copy, Debug, PartialEq, Eq)]
pub struct ImageAnswer {
    pub truncated: bool,
}

// The sizes in an image's header, in dwords.
#[derive(Clone, Copy, Debug, PartialEq, Eq)]
pub struct Sizes {
    pub h: usize,
    pub s: usize,
    pub k: usize,
    pub m: usize,
    pub e: usize,
}

// What sizes are summed in. They are dwords, so a sum of four may wrap in 32 bits, and does not in 64.
type Sum = u64;

// 'h = 32 + k + m + e': the header's own dwords.
const HEADER_DWORDS: Sum = 32;

// The sizes that a header says, each read once: what is judged and what is handed out are these numbers.
pub(crate) fn read_sizes(blob: &[u8]) -> Sizes
    requires { 128 ≤ length blob.now }
    ensures { (result ≡ Css.sizes blob.now) × Small result }
{
    let h = dword_at(blob, H_AT);
    let s = dword_at(blob, S_AT);
    let k = dword_at(blob, K_AT);
    let m = dword_at(blob, M_AT);
    let e = dword_at(blob, E_AT);
    Sizes { h, s, k, m, e }
}

// Whether the sizes agree.
pub(crate) fn agree(z: Sizes) -> bool
    requires { Small z }
    ensures { result ≡ Css.agree z }
{
    let sum = HEADER_DWORDS + z.k as Sum + z.m as Sum + z.e as Sum;
    (z.h as Sum == sum) & (1 <= z.k) & (z.h < z.s)
}

// A component from byte `from` to byte `to` of an accepted image of n bytes, shown where the bytes that it needs are
// there.
fn component_located(n: usize, needed: usize, truncated: bool, from: usize, to: usize) -> Located
    requires { from ≤ to }
    ensures { of_located (Ok result) ≡ located_at 0 truncated (cond (leb needed n) (span from to) nowhere) }
{
    let (start, len) = if n < needed {
        (0, 0)
    } else {
        (from, to - from)
    };
    Located {
        truncated,
        start,
        len,
    }
}

// Which of the four a component is, in their order. Asked by halves in `judge`: a match of four is compiled to a jump
// table, which a kernel's archive may not have (archive/check).
fn rank(which: Component) -> u32
    ensures { (result ≡ rank which) × (result < 4) }
{
    which as u32
}

// Judges an image of n bytes by the sizes in its header. No blob is lent here, so nothing can be read a second time.
fn judge(n: usize, z: Sizes, which: Component) -> Result<Located, Refusal>
    requires { (128 ≤ n) × Small z }
    ensures { LocatedBy n z which result }
{
    if !agree(z) {
        return Err(Refusal::CssSizes);
    }
    let rsa = HEADER_BYTES + 4 * (z.s - z.h);
    let modulus = rsa + 4 * z.k;
    if n < modulus {
        return Err(Refusal::CssBeyond);
    }
    let exponent = modulus + 4 * z.m;
    let end = 4 * z.s;
    let truncated = n < end;
    let rank = rank(which);
    if rank < 2 {
        if rank < 1 {
            return Ok(component_located(n, modulus, truncated, HEADER_BYTES, rsa));
        }
        return Ok(component_located(n, modulus, truncated, rsa, modulus));
    }
    if rank < 3 {
        return Ok(component_located(n, end, truncated, modulus, exponent));
    }
    Ok(component_located(n, end, truncated, exponent, end))
}

// The one judgement of an image: the number that refuses it, or where a component lies.
pub fn css_located(blob: &[u8], which: Component) -> Result<Located, Refusal>
    ensures { of_located result ≡ Css.located which blob.now }
{
    if blob.len() < HEADER_BYTES {
        return Err(Refusal::ShortBlob);
    }
    judge(blob.len(), read_sizes(blob), which)
}

// Whether the blob is an image, and whether that is truncated.
pub fn css_answer(blob: &[u8]) -> Result<ImageAnswer, Refusal>
    ensures { of_answer result ≡ Css.answer blob.now }
{
    let l = css_located(blob, Component::Ucode)?;
    Ok(ImageAnswer {
        truncated: l.truncated,
    })
}

// A component of an image; the empty part at the blob's start where it is not shown.
pub fn css_part(blob: &[u8], which: Component) -> &[u8]
    ensures { PartOf blob.entry (Css.part which blob.now) result }
{
    part(blob, css_located(blob, which))
}

// Each component by its name: the empty part at the blob's start where it is not shown.
pub fn ucode(blob: &[u8]) -> &[u8]
    ensures { PartOf blob.entry (Css.part Ucode blob.now) result }
{
    css_part(blob, Component::Ucode)
}

pub fn rsa(blob: &[u8]) -> &[u8]
    ensures { PartOf blob.entry (Css.part Rsa blob.now) result }
{
    css_part(blob, Component::Rsa)
}

pub fn modulus(blob: &[u8]) -> &[u8]
    ensures { PartOf blob.entry (Css.part Modulus blob.now) result }
{
    css_part(blob, Component::Modulus)
}

pub fn exponent(blob: &[u8]) -> &[u8]
    ensures { PartOf blob.entry (Css.part Exponent blob.now) result }
{
    css_part(blob, Component::Exponent)
}
