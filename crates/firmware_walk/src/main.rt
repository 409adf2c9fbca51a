// Walks firmware blobs through what is accepted and what is refused, a few printed lines for each blob.
#![tactic(auto)]

mod directories;
mod images;
mod inside;
mod names;
mod wording;

use std::io;

// The scenes, each on blobs of its own.
fn main(rt: HostRuntime) -> io::Result<()> {
    foreword(&rt)?;
    images::by_length(&rt)?;
    images::smallest(&rt)?;
    images::sizes_disagree(&rt)?;
    directories::entries(&rt)?;
    directories::parts(&rt)?;
    names::found_or_not(&rt)?;
    names::alike_or_twice(&rt)?;
    names::refused(&rt)?;
    inside::manifests(&rt)?;
    inside::accepted_images(&rt)?;
    inside::refused_images(&rt)
}

// What a reader of the lines has to know.
fn foreword(rt: &impl Print) -> io::Result<()> {
    rt.print(
        "A firmware file is a CSS image, or a code partition directory (CPD) with named\n\
         parts. An image has a header of 128 bytes, then uCode, RSA, modulus and\n\
         exponent. Its header gives sizes in dwords, of 4 bytes: h all that is not\n\
         uCode, s all, k RSA, m modulus, e exponent.\n\
         A part runs from its start up to its end, which is excluded. Where there is no\n\
         part, the empty one at byte 0 is answered.\n",
    )
}
