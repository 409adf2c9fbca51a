// Firmware files: the parts and versions of CSS images and of HuC code partition directories (CPD). Public are
// locations, answers, versions and parts, each from one judgement of the lent blob, or the refusal that it gives. A part
// is a sub-slice of that blob, and a location (start and length) says where it lies. Nothing about a blob is kept, and no function takes an
// offset back.
#![tactic(auto)]

mod bytes;
mod cpd;
mod css;
mod figures;
mod huc;
mod name;
mod version;

pub use bytes::{Located, byte_at};
pub use cpd::{
    Directory, cpd_answer, cpd_directory, cpd_entry, cpd_has_name, cpd_located, cpd_name, cpd_part,
};
pub use css::{
    Component, ImageAnswer, Sizes, css_answer, css_located, css_part, exponent, modulus, rsa, ucode,
};
pub use figures::{
    Figures, cpd_entry_figures, cpd_figures, cpd_marker, css_figures, css_sizes, huc_figures,
    manifest_figures,
};
pub use huc::{huc_answer, huc_exponent, huc_located, huc_modulus, huc_part, huc_rsa, huc_ucode};
pub use version::{ManifestVersion, Version, css_version, huc_version, manifest_version};
