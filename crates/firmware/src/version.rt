// The versions of a CSS image, of a manifest in a directory, and of the image in one.
ghost use Rattle.std.specs.Prelude.{◌≡◌, MatchResult};
ghost use Rattle.refusal.specs.Numbers.{number};
ghost use Rattle.firmware.specs.Cpd;
ghost use Rattle.firmware.specs.Inside.{manifest_name, part_named};
ghost use Rattle.firmware.specs.Version.{of_version, of_manifest, css_reading, manifest_reading, huc_reading};
ghost use Rattle.firmware.specs.Private.{manifest_in};

use crate::bytes::{dword_at, word_at};
use crate::cpd::cpd_located;
use crate::css::{Component, VERSION_AT, css_located};
use refusal::Refusal;

// 'four 16-bit numbers (major, minor, hotfix, build) at byte 36, so 44 bytes are needed'
const MAJOR_AT: usize = 36;

const MINOR_AT: usize = 38;

const HOTFIX_AT: usize = 40;

const BUILD_AT: usize = 42;

pub(crate) const MANIFEST_MIN: usize = 44;

// The version of a CSS image.
#[derive(Clone, Copy, Debug, PartialEq, Eq)]
pub struct Version {
    pub major: u8,
    pub minor: u8,
    pub patch: u8,
}

// The firmware version in a manifest.
#[derive(Clone, Copy, Debug, PartialEq, Eq)]
pub struct ManifestVersion {
    pub major: u16,
    pub minor: u16,
    pub hotfix: u16,
    pub build: u16,
}

// The version of a CSS image.
pub fn css_version(blob: &[u8]) -> Result<Version, Refusal>
    ensures { of_version result ≡ css_reading blob.now }
{
    css_located(blob, Component::Ucode)?;
    let v = dword_at(blob, VERSION_AT);
    Ok(Version {
        major: (v / 0x1_0000 % 0x100) as u8,
        minor: (v / 0x100 % 0x100) as u8,
        patch: (v % 0x100) as u8,
    })
}

// The version in a manifest.
fn version_in(m: &[u8]) -> Result<ManifestVersion, Refusal>
    ensures { of_manifest result ≡ manifest_in m.now }
{
    if m.len() < MANIFEST_MIN {
        return Err(Refusal::ShortBlob);
    }
    Ok(ManifestVersion {
        major: word_at(m, MAJOR_AT),
        minor: word_at(m, MINOR_AT),
        hotfix: word_at(m, HOTFIX_AT),
        build: word_at(m, BUILD_AT),
    })
}

// The bytes of the part `HUCP.man` of a directory.
fn manifest(blob: &[u8]) -> Result<&[u8], Refusal>
    ensures { MatchResult result
        (λ m. (Cpd.number blob.now manifest_name ≡ 0) × (m.now ≡ part_named blob.now manifest_name))
        (λ r. Cpd.number blob.now manifest_name ≡ number r) }
{
    let f = cpd_located(blob, b"HUCP.man")?;
    Ok(f.part_of(blob))
}

// The firmware version in it.
#[tactic(auto, using(crate::proofs::Manifest::refused_reading, crate::proofs::Manifest::found_reading))]
pub fn manifest_version(blob: &[u8]) -> Result<ManifestVersion, Refusal>
    ensures { of_manifest result ≡ manifest_reading blob.now }
{
    version_in(manifest(blob)?)
}

// The version of the image in the part `huc_fw` of a directory.
pub fn huc_version(blob: &[u8]) -> Result<Version, Refusal>
    ensures { of_version result ≡ huc_reading blob.now }
{
    let f = cpd_located(blob, b"huc_fw")?;
    css_version(f.part_of(blob))
}
