// Versions and parts of firmware files in words.
use crate::answers::Verdict;
use firmware::{Component, ImageAnswer, Located};
use refusal::Refusal;
use std::{fmt, io};

// An image's version: three numbers, or the number that refuses it.
#[derive(Clone, Copy, Debug, PartialEq, Eq)]
pub struct Version(pub Result<firmware::Version, Refusal>);

impl fmt::Display for Version {
    fn fmt<W: fmt::Write>(&self, f: &mut fmt::Formatter<W>) -> fmt::Result {
        match self.0 {
            Ok(v) => write!(f, "{}.{}.{}", v.major, v.minor, v.patch),
            Err(why) => write!(f, "no version, by {}", why.number()),
        }
    }
}

// A manifest's: four.
#[derive(Clone, Copy, Debug, PartialEq, Eq)]
pub struct ManifestVersion(pub Result<firmware::ManifestVersion, Refusal>);

impl fmt::Display for ManifestVersion {
    fn fmt<W: fmt::Write>(&self, f: &mut fmt::Formatter<W>) -> fmt::Result {
        match self.0 {
            Ok(v) => write!(f, "{}.{}.{}.{}", v.major, v.minor, v.hotfix, v.build),
            Err(why) => write!(f, "no version, by {}", why.number()),
        }
    }
}

// Where a part lies. It ends within the blob, so its end does not wrap.
#[derive(Clone, Copy, Debug, PartialEq, Eq)]
pub struct Part(pub Located);

impl fmt::Display for Part {
    fn fmt<W: fmt::Write>(&self, f: &mut fmt::Formatter<W>) -> fmt::Result {
        let Located { start, len, .. } = self.0;
        let end = start.wrapping_add(len);
        write!(f, "{start} to {end}, length {len}")
    }
}

// A component by its name.
#[derive(Clone, Copy)]
pub struct Named(pub Component);

impl fmt::Display for Named {
    fn fmt<W: fmt::Write>(&self, f: &mut fmt::Formatter<W>) -> fmt::Result {
        f.write_str(match self.0 {
            Component::Ucode => "uCode",
            Component::Rsa => "RSA",
            Component::Modulus => "modulus",
            Component::Exponent => "exponent",
        })
    }
}

const COMPONENTS: [Component; 4] = [
    Component::Ucode,
    Component::Rsa,
    Component::Modulus,
    Component::Exponent,
];

// A component of an image, in a line of its own. One that is not in the file is the empty part at byte 0.
fn component_line(
    rt: &impl Print,
    which: Component,
    l: Result<Located, Refusal>,
) -> io::Result<()> {
    let name = Named(which);
    match l {
        Ok(l) if l.start != 0 => println!(rt; "    {name} {}", Part(l)),
        _ => println!(rt; "    {name} not in the file"),
    }
}

// The components of an image, a line each.
pub fn image_parts(rt: &impl Print, blob: &[u8]) -> io::Result<()> {
    for which in COMPONENTS {
        component_line(rt, which, firmware::css_located(blob, which))?;
    }
    Ok(())
}

// Those of the image in a directory, where they lie in the directory.
pub fn inner_parts(rt: &impl Print, blob: &[u8]) -> io::Result<()> {
    for which in COMPONENTS {
        component_line(rt, which, firmware::huc_located(blob, which))?;
    }
    Ok(())
}

// What an image was answered, and its version where it is accepted; ends the line.
fn judged(
    rt: &impl Print,
    answer: Result<ImageAnswer, Refusal>,
    version: Version,
) -> io::Result<()> {
    let verdict = Verdict::of(&answer);
    match answer {
        Ok(a) => {
            let how = if a.truncated { "truncated" } else { "whole" };
            println!(rt; "{verdict}, {how}, version {version}")
        }
        Err(_) => println!(rt; "{verdict}"),
    }
}

// An image: what it is answered, its version, and where its parts lie.
pub fn image(rt: &impl Print, blob: &[u8]) -> io::Result<()> {
    let answer = firmware::css_answer(blob);
    judged(rt, answer, Version(firmware::css_version(blob)))?;
    if answer.is_ok() {
        image_parts(rt, blob)?;
    }
    Ok(())
}

// The image in a directory, the same.
pub fn inner_image(rt: &impl Print, blob: &[u8]) -> io::Result<()> {
    let answer = firmware::huc_answer(blob);
    judged(rt, answer, Version(firmware::huc_version(blob)))?;
    if answer.is_ok() {
        inner_parts(rt, blob)?;
    }
    Ok(())
}
