// Bytes needed and bytes there beside each number, for what a crew is told. Each function is one judgement of the lent
// blob; its number is the one that the calls of css.rt, cpd.rt, huc.rt and version.rt answer.
ghost use Rattle.std.specs.Prelude.{◌≡◌, ◌<◌, ◌≤◌};
ghost use Rattle.refusal.specs.Numbers.{number, number_of};
ghost use Rattle.firmware.specs.Cpd;
ghost use Rattle.firmware.specs.Figures.{figures, of_figures, unmeasured, measured, image_figures};
ghost use Rattle.firmware.specs.Figures.{directory_figures, entry_figures, manifest_figures, huc_figures, header_sizes};
ghost use Rattle.firmware.specs.Private.{of_table};

use crate::cpd::{self, NoTable, Table};
use crate::css;
use crate::version::MANIFEST_MIN;
use refusal::Refusal;

// An answer with the bytes that it asks for, those that nothing is left out of, and those that are there, counted from
// the start of the blob or part judged. A refusal has figures too.
#[derive(Clone, Copy, Debug, PartialEq, Eq)]
pub struct Figures {
    pub answer: Result<(), Refusal>,
    pub needed: usize,
    pub complete: usize,
    pub there: usize,
}

// A refusal that asks for no bytes.
fn unmeasured(refusal: Refusal, there: usize) -> Figures
    ensures { of_figures result ≡ unmeasured (number refusal) there }
{
    Figures {
        answer: Err(refusal),
        needed: 0,
        complete: 0,
        there,
    }
}

// A refusal that is given exactly when fewer bytes are there than needed.
fn measured(refusal: Refusal, needed: usize, complete: usize, there: usize) -> Figures
    ensures { of_figures result ≡ measured (number refusal) needed complete there }
{
    let answer = if there < needed { Err(refusal) } else { Ok(()) };
    Figures {
        answer,
        needed,
        complete,
        there,
    }
}

// The figures of an image.
pub fn css_figures(blob: &[u8]) -> Figures
    ensures { of_figures result ≡ image_figures blob.now }
{
    if blob.len() < css::HEADER_BYTES {
        return measured(
            Refusal::ShortBlob,
            css::HEADER_BYTES,
            css::HEADER_BYTES,
            blob.len(),
        );
    }
    let z = css::read_sizes(blob);
    if !css::agree(z) {
        return unmeasured(Refusal::CssSizes, blob.len());
    }
    let needed = css::HEADER_BYTES + 4 * (z.s - z.h) + 4 * z.k;
    measured(Refusal::CssBeyond, needed, 4 * z.s, blob.len())
}

// The sizes in an image's header, also where they disagree; all 0 where there is no header.
pub fn css_sizes(blob: &[u8]) -> css::Sizes
    ensures { result ≡ header_sizes blob.now }
{
    if blob.len() < css::HEADER_BYTES {
        return css::Sizes {
            h: 0,
            s: 0,
            k: 0,
            m: 0,
            e: 0,
        };
    }
    css::read_sizes(blob)
}

// Whether the blob starts with the marker $CPD, which makes it a directory, good or not.
pub fn cpd_marker(blob: &[u8]) -> bool
    ensures { result ≡ Cpd.has_marker blob.now }
{
    cpd::has_marker(blob)
}

// What a directory is answered, and the bytes that it asks for.
fn of_table(t: Result<Table, NoTable>, there: usize) -> Figures
    ensures { of_figures result ≡ figures (of_table t).code (of_table t).needed (of_table t).needed there }
{
    let (answer, needed) = match t {
        Ok(t) => (Ok(()), t.needed),
        Err(e) => (Err(e.refusal), e.needed),
    };
    Figures {
        answer,
        needed,
        complete: needed,
        there,
    }
}

// The figures of a directory.
pub fn cpd_figures(blob: &[u8]) -> Figures
    ensures { of_figures result ≡ directory_figures blob.now }
{
    of_table(cpd::read_table(blob), blob.len())
}

// The figures of entry i, by its index.
pub fn cpd_entry_figures(blob: &[u8], i: usize) -> Figures
    ensures { of_figures result ≡ entry_figures blob.now i }
{
    let t = match cpd::read_table(blob) {
        Ok(t) => t,
        Err(e) => return of_table(Err(e), blob.len()),
    };
    if t.count <= i {
        return unmeasured(Refusal::NoEntry, blob.len());
    }
    let x = cpd::extent_at(blob, t.start + cpd::ENTRY_BYTES * i);
    let end = x.start + x.len;
    measured(Refusal::CpdBeyond, end, end, blob.len())
}

// The figures of the manifest, the part `HUCP.man` of a directory.
pub fn manifest_figures(blob: &[u8]) -> Figures
    ensures { of_figures result ≡ manifest_figures blob.now }
{
    match cpd::cpd_located(blob, b"HUCP.man") {
        Ok(f) => measured(Refusal::ShortBlob, MANIFEST_MIN, MANIFEST_MIN, f.len),
        Err(refusal) => unmeasured(refusal, 0),
    }
}

// The figures of the image in the part `huc_fw` of a directory.
pub fn huc_figures(blob: &[u8]) -> Figures
    ensures { of_figures result ≡ huc_figures blob.now }
{
    match cpd::cpd_located(blob, b"huc_fw") {
        Ok(f) => css_figures(f.part_of(blob)),
        Err(refusal) => unmeasured(refusal, 0),
    }
}
