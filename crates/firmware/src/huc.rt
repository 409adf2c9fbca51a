// The CSS image in the part `huc_fw` of a code partition directory, judged as a blob of its own.
ghost use Rattle.std.specs.Prelude.{◌≡◌, ◌+◌, ◌<◌, ◌^◌};
ghost use Rattle.firmware.specs.Bytes.{PartOf, of_located};
ghost use Rattle.firmware.specs.Css.{of_answer};
ghost use Rattle.firmware.specs.declared.css.Component.TheVariants.{Ucode, Rsa, Modulus, Exponent};
ghost use Rattle.firmware.specs.Inside.{huc_answer, huc_located, huc_span};
ghost use Rattle.firmware.specs.Private.{outer};

use crate::bytes::{Located, part};
use crate::cpd::cpd_located;
use crate::css::{Component, ImageAnswer, css_located};
use refusal::Refusal;

// A location in a part that starts at byte `at`, as one in the outer blob. A component that is shown starts past the
// image's header; one that is not shown stays at the outer blob's start.
fn outer(at: usize, l: Located) -> Located
    requires { at + l.start < 2 ^ 64 }
    ensures { of_located (Ok result) ≡ outer at (of_located (Ok l)) }
{
    if l.start == 0 {
        return l;
    }
    Located {
        start: at + l.start,
        ..l
    }
}

// The one judgement: the directory's numbers and then the image's, or where a component lies in the outer blob.
pub fn huc_located(blob: &[u8], which: Component) -> Result<Located, Refusal>
    ensures { of_located result ≡ huc_located which blob.now }
{
    let f = cpd_located(blob, b"huc_fw")?;
    let l = css_located(f.part_of(blob), which)?;
    Ok(outer(f.start, l))
}

// Whether the directory has such an image, and whether that is truncated.
pub fn huc_answer(blob: &[u8]) -> Result<ImageAnswer, Refusal>
    ensures { of_answer result ≡ huc_answer blob.now }
{
    let l = huc_located(blob, Component::Ucode)?;
    Ok(ImageAnswer {
        truncated: l.truncated,
    })
}

// A component of that image; the empty part at the outer blob's start where it is not shown.
pub fn huc_part(blob: &[u8], which: Component) -> &[u8]
    ensures { PartOf blob.entry (huc_span which blob.now) result }
{
    part(blob, huc_located(blob, which))
}

// Each component by its name.
pub fn huc_ucode(blob: &[u8]) -> &[u8]
    ensures { PartOf blob.entry (huc_span Ucode blob.now) result }
{
    huc_part(blob, Component::Ucode)
}

pub fn huc_rsa(blob: &[u8]) -> &[u8]
    ensures { PartOf blob.entry (huc_span Rsa blob.now) result }
{
    huc_part(blob, Component::Rsa)
}

pub fn huc_modulus(blob: &[u8]) -> &[u8]
    ensures { PartOf blob.entry (huc_span Modulus blob.now) result }
{
    huc_part(blob, Component::Modulus)
}

pub fn huc_exponent(blob: &[u8]) -> &[u8]
    ensures { PartOf blob.entry (huc_span Exponent blob.now) result }
{
    huc_part(blob, Component::Exponent)
}
