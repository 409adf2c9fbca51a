// CSS images: the verdict, and the figures behind it.
use crate::options::Asked;
use crate::verdicts::Class;
use crate::{kinds, verdicts, versions};
use firmware::{Figures, Sizes};
use refusal::Refusal;
use std::cmp::Ordering;
use std::{fmt, io};

// What a file's own name says that it is. The header does not say.
#[derive(Clone, Copy, Debug, PartialEq, Eq)]
pub(crate) enum Named {
    Guc,
    Huc,
    Neither,
}

impl Named {
    // By the last 'guc' or 'huc' behind the folders.
    pub(crate) fn by(path: &[u8]) -> Named {
        let name = match path.iter().rposition(|b| *b == b'/') {
            Some(slash) => &path[slash + 1..],
            None => path,
        };
        let mut named = Named::Neither;
        for letters in name.windows(3) {
            match letters {
                b"guc" => named = Named::Guc,
                b"huc" => named = Named::Huc,
                _ => (),
            }
        }
        named
    }
}

impl fmt::Display for Named {
    fn fmt<W: fmt::Write>(&self, f: &mut fmt::Formatter<W>) -> fmt::Result {
        f.write_str(match self {
            Named::Guc => "GuC",
            Named::Huc => "HuC",
            Named::Neither => "firmware",
        })
    }
}

// A file without the marker $CPD.
pub(crate) fn verdict(rt: &impl Print, blob: &[u8], named: Named, o: &Asked) -> io::Result<Class> {
    let Err(why) = firmware::css_answer(blob) else {
        return accepted(rt, blob, named, o);
    };
    match kinds::of_image(blob, why) {
        Some(kind) => kinds::not_judged(rt, kind),
        None => verdicts::refused(rt, why),
    }
}

// An image that is accepted, of the version that is expected or of another.
fn accepted(rt: &impl Print, blob: &[u8], named: Named, o: &Asked) -> io::Result<Class> {
    let v = firmware::css_version(blob);
    let version = say::Version(v);
    match o.expect {
        Some(expect) if !expect.is_met_by(&versions::of_image(v)) => {
            let class = Class::NotGood;
            println!(rt; "{class}: {named} {version}, expected {expect}")?;
            Ok(class)
        }
        _ => {
            let class = Class::Good;
            let there = what_is_there(firmware::css_figures(blob));
            println!(rt; "{class}: {named} {version} ({there})")?;
            Ok(class)
        }
    }
}

// What an accepted image has beside header, uCode and RSA.
pub(crate) fn what_is_there(f: Figures) -> &'static str {
    match f.there.cmp(&f.complete) {
        Ordering::Equal => "whole",
        Ordering::Greater => "whole, with bytes behind it that belong to no part",
        Ordering::Less if f.there == f.needed => "modulus and exponent left out, as shipped",
        Ordering::Less => "cut off within modulus and exponent",
    }
}

// The figures of a file that is judged; of another its length.
pub(crate) fn figures(rt: &impl Print, blob: &[u8], class: Class) -> io::Result<()> {
    let f = firmware::css_figures(blob);
    let Figures {
        needed,
        complete,
        there,
        ..
    } = f;
    if class == Class::NotJudged {
        return println!(rt; "  {there} bytes");
    }
    match f.answer {
        Ok(()) => {
            println!(rt;
                "  {there} bytes of a CSS image that has {complete} when it is whole, and at least {needed}"
            )?;
            say::image_parts(rt, blob)
        }
        Err(Refusal::CssSizes) => sizes(rt, firmware::css_sizes(blob)),
        Err(_) => verdicts::shortage(rt, f),
    }
}

// Sizes that disagree, and what they must be.
fn sizes(rt: &impl Print, z: Sizes) -> io::Result<()> {
    let Sizes { h, s, k, m, e } = z;
    println!(rt;
        "  in dwords: h {h}, s {s}, k {k}, m {m}, e {e}; h must be 32 + k + m + e, k at least 1, s above h"
    )
}
