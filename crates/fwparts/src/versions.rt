// Versions as numbers, to compare: an image has three, a manifest four.
use firmware::{ManifestVersion, Version};
use refusal::Refusal;
use std::fmt;

// An image's; all 0 where it has none.
pub(crate) fn of_image(v: Result<Version, Refusal>) -> [u16; 3] {
    match v {
        Ok(v) => [u16::from(v.major), u16::from(v.minor), u16::from(v.patch)],
        Err(_) => [0; 3],
    }
}

// A manifest's, the same.
pub(crate) fn of_manifest(v: Result<ManifestVersion, Refusal>) -> [u16; 4] {
    match v {
        Ok(v) => [v.major, v.minor, v.hotfix, v.build],
        Err(_) => [0; 4],
    }
}

// A version that is expected: three numbers, or all four of a directory.
#[derive(Clone, Copy, Debug, PartialEq, Eq)]
pub(crate) enum Expected {
    Three([u16; 3]),
    Four([u16; 4]),
}

impl Expected {
    // The version that a word is: three or four numbers below 65,536 with a dot between.
    pub(crate) fn of_word(word: &[u8]) -> Option<Expected> {
        let mut numbers = str::from_utf8(word)
            .ok()?
            .split('.')
            .map(|n| say::decimal(n));
        let a = numbers.next()??;
        let b = numbers.next()??;
        let c = numbers.next()??;
        match (numbers.next(), numbers.next()) {
            (None, _) => Some(Expected::Three([a, b, c])),
            (Some(d), None) => Some(Expected::Four([a, b, c, d?])),
            _ => None,
        }
    }

    // Whether a version is this one, by as many numbers as are given.
    pub(crate) fn is_met_by(self, numbers: &[u16]) -> bool {
        match self {
            Expected::Three(wanted) => numbers.starts_with(&wanted),
            Expected::Four(wanted) => numbers.starts_with(&wanted),
        }
    }
}

impl fmt::Display for Expected {
    fn fmt<W: fmt::Write>(&self, f: &mut fmt::Formatter<W>) -> fmt::Result {
        match self {
            Expected::Three([a, b, c]) => write!(f, "{a}.{b}.{c}"),
            Expected::Four([a, b, c, d]) => write!(f, "{a}.{b}.{c}.{d}"),
        }
    }
}
