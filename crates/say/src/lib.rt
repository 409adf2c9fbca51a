// The words that programs print, most of them as `Display`: verdicts and reasons, names in quotes, descriptors with the
// ring's picture, and the versions and parts of firmware files. And the words that programs are given, with the files
// that they name. Nothing says what reaches the system or comes from it, so what prints or reads has no more to promise
// than that it ends and does nothing undefined; what prints answers whether the system took the text.
#![tactic(auto)]

mod answers;
mod filling;
mod given;
mod names;
mod numbers;
mod options;
mod parts;
mod picture;
mod system;

pub use answers::{Laid, Verdict};
pub use filling::{Filled, Stop, fill};
pub use given::{open, path, room, whole_word, word, word_count};
pub use names::Quoted;
pub use numbers::{Numbered, Status};
pub use options::{Choices, Usage, decimal, files, hexadecimal, once};
pub use parts::{
    ManifestVersion, Named, Part, Version, image, image_parts, inner_image, inner_parts,
};
pub use picture::{Descriptor, Picture};
pub use system::Reason;
