// Version readings for C: the number and the version's numbers, zeros where it is refused.
ghost use Rattle.std.specs.Prelude.{◌≡◌};
ghost use Rattle.firmware.specs.Version.{css_reading, huc_reading, manifest_reading, of_manifest, of_version};
ghost use Rattle.guc.specs.Parts.{version_by, manifest_by};

use firmware::ManifestVersion;
use refusal::Refusal;

#[repr(C)]
#[derive(Clone, Copy)]
pub struct Version {
    pub code: u32,
    pub major: u32,
    pub minor: u32,
    pub patch: u32,
}

#[repr(C)]
#[derive(Clone, Copy)]
pub struct Manifest {
    pub code: u32,
    pub major: u32,
    pub minor: u32,
    pub hotfix: u32,
    pub build: u32,
}

impl From<Result<firmware::Version, Refusal>> for Version {
    ghost from_gives = { λ v r. r ≡ version_by (of_version v) };

    fn from(v: Result<firmware::Version, Refusal>) -> Version {
        match v {
            Ok(v) => Version {
                code: 0,
                major: u32::from(v.major),
                minor: u32::from(v.minor),
                patch: u32::from(v.patch),
            },
            Err(r) => Version {
                code: r.number(),
                major: 0,
                minor: 0,
                patch: 0,
            },
        }
    }
}

impl From<Result<ManifestVersion, Refusal>> for Manifest {
    ghost from_gives = { λ v r. r ≡ manifest_by (of_manifest v) };

    fn from(v: Result<ManifestVersion, Refusal>) -> Manifest {
        match v {
            Ok(v) => Manifest {
                code: 0,
                major: u32::from(v.major),
                minor: u32::from(v.minor),
                hotfix: u32::from(v.hotfix),
                build: u32::from(v.build),
            },
            Err(r) => Manifest {
                code: r.number(),
                major: 0,
                minor: 0,
                hotfix: 0,
                build: 0,
            },
        }
    }
}

#[unsafe(no_mangle)]
pub extern "C" fn guc_css_version(blob: &[u8]) -> Version
    ensures { result ≡ version_by (css_reading blob.now) }
{
    Version::from(firmware::css_version(blob))
}

#[unsafe(no_mangle)]
pub extern "C" fn guc_huc_version(blob: &[u8]) -> Version
    ensures { result ≡ version_by (huc_reading blob.now) }
{
    Version::from(firmware::huc_version(blob))
}

#[unsafe(no_mangle)]
pub extern "C" fn guc_manifest_version(blob: &[u8]) -> Manifest
    ensures { result ≡ manifest_by (manifest_reading blob.now) }
{
    Manifest::from(firmware::manifest_version(blob))
}
