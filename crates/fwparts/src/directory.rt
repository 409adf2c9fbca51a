// Code partition directories: the verdict, each entry with its part, and the image in huc_fw.
use crate::image::Named;
use crate::kinds::Kind;
use crate::options::Asked;
use crate::verdicts::Class;
use crate::{image, kinds, sharing, verdicts, versions};
use firmware::Figures;
use refusal::Refusal;
use say::{ManifestVersion, Numbered, Part, Quoted, Version};
use std::io;

// So many entries are named; of more it is said how many there are.
const NAMED_MOST: usize = 64;

// A file with the marker $CPD: the directory, its manifest, the image in huc_fw and all its entries, in this order. What
// is only not judged comes last, since what a rule refuses is not to be kept.
pub(crate) fn verdict(rt: &impl Print, blob: &[u8], named: Named, o: &Asked) -> io::Result<Class> {
    let d = match firmware::cpd_directory(blob) {
        Ok(d) => d,
        Err(why) => return verdicts::refused(rt, why),
    };
    if let Err(why) = firmware::manifest_figures(blob).answer {
        return verdicts::refused_part(rt, "HUCP.man: ", why);
    }
    let f = firmware::huc_figures(blob);
    let kind = kind_of(blob, f);
    match f.answer {
        Err(why) if kind.is_none() => return verdicts::refused_part(rt, "huc_fw: ", why),
        _ => (),
    }
    if (0..d.count).any(|i| is_refused(blob, i)) {
        return verdicts::refused(rt, Refusal::CpdBeyond);
    }
    match kind {
        Some(kind) => kinds::not_judged(rt, kind),
        None => accepted(rt, blob, named, o),
    }
}

// What the rules have no case for: no huc_fw, which only two-step loading wants, and an image in two parts.
fn kind_of(blob: &[u8], f: Figures) -> Option<Kind> {
    match f.answer.err()? {
        Refusal::NoEntry => Some(Kind::NoImage),
        Refusal::CssBeyond if signature_apart(blob, f) => Some(Kind::SignatureApart),
        Refusal::CssSizes if header_apart(blob) => Some(Kind::HeaderApart),
        _ => None,
    }
}

// Whether just RSA is missing of huc_fw, all of it, and guc_sig has as many bytes. Sizes are in dwords.
fn signature_apart(blob: &[u8], f: Figures) -> bool {
    let z = firmware::css_sizes(firmware::cpd_part(blob, b"huc_fw"));
    let missing = f.needed.checked_sub(f.there);
    match firmware::cpd_located(blob, b"guc_sig") {
        Ok(l) => missing == Some(l.len) && l.len % 4 == 0 && l.len / 4 == z.k,
        Err(_) => false,
    }
}

// Whether huc_fw does not start as an image, and HuC_CSS has the bytes of a header.
fn header_apart(blob: &[u8]) -> bool {
    let image = firmware::cpd_part(blob, b"huc_fw");
    match firmware::cpd_located(blob, b"HuC_CSS") {
        Ok(l) => l.len == 128 && !kinds::has_module_type(image),
        Err(_) => false,
    }
}

// Whether entry i is refused.
fn is_refused(blob: &[u8], i: usize) -> bool {
    firmware::cpd_entry(blob, i).is_err()
}

// A directory that no rule refuses, of the version that is expected and under a name that fits, or not.
fn accepted(rt: &impl Print, blob: &[u8], named: Named, o: &Asked) -> io::Result<Class> {
    let v = firmware::manifest_version(blob);
    let numbers = versions::of_manifest(v);
    let version = ManifestVersion(v);
    let bad = Class::NotGood;
    if named == Named::Guc {
        println!(rt; "{bad}: HuC {version}, but the file's name says GuC")?;
        return Ok(bad);
    }
    match o.expect {
        Some(expect) if !expect.is_met_by(&numbers) => {
            println!(rt; "{bad}: HuC {version}, expected {expect}")?;
            return Ok(bad);
        }
        _ => (),
    }
    let good = Class::Good;
    print!(rt; "{good}: HuC {version}")?;
    other_version(rt, &numbers, Version(firmware::huc_version(blob)))?;
    let there = image::what_is_there(firmware::huc_figures(blob));
    println!(rt; " ({there})")?;
    Ok(good)
}

// The image's own version, where the manifest says another.
fn other_version(rt: &impl Print, numbers: &[u16], image: Version) -> io::Result<()> {
    if !numbers.starts_with(&versions::of_image(image.0)) {
        print!(rt; ", its image {image}")?;
    }
    Ok(())
}

// The figures of a directory.
pub(crate) fn figures(rt: &impl Print, blob: &[u8]) -> io::Result<()> {
    let Ok(d) = firmware::cpd_directory(blob) else {
        return verdicts::shortage(rt, firmware::cpd_figures(blob));
    };
    let bytes = blob.len();
    let count = d.count;
    println!(rt; "  {bytes} bytes of a code partition directory, entries: {count}")?;
    entries(rt, blob, count)?;
    manifest(rt, blob, count)?;
    inner_image(rt, blob, count)
}

// The first entries, a line each; how many more there are, how many of those are refused, and the first of these.
fn entries(rt: &impl Print, blob: &[u8], count: usize) -> io::Result<()> {
    for i in 0..count.min(NAMED_MOST) {
        entry(rt, blob, i)?;
    }
    if NAMED_MOST < count {
        let more = count - NAMED_MOST;
        let refused = (NAMED_MOST..count).filter(|i| is_refused(blob, *i)).count();
        println!(rt; "  and {more} entries more, of them refused: {refused}")?;
        if let Some(i) = (NAMED_MOST..count).find(|i| is_refused(blob, *i)) {
            entry(rt, blob, i)?;
        }
    }
    Ok(())
}

// An entry's name, and its part or why it has none. Each line is that entry's own, also where a seek of its name is
// refused, for another entry has it too.
fn entry(rt: &impl Print, blob: &[u8], i: usize) -> io::Result<()> {
    let name = Quoted(trimmed(firmware::cpd_name(blob, i)));
    print!(rt; "  entry {i}, {name}: ")?;
    match firmware::cpd_entry(blob, i) {
        Ok(l) => println!(rt; "{}", Part(l)),
        Err(why) => refused(rt, why, firmware::cpd_entry_figures(blob, i)),
    }
}

// A reason to the end of the line, and its figures.
fn refused(rt: &impl Print, why: Refusal, f: Figures) -> io::Result<()> {
    println!(rt; "{}", Numbered(why))?;
    verdicts::shortage(rt, f)
}

// A name without its zero padding.
fn trimmed(name: &[u8]) -> &[u8] {
    match name.iter().rposition(|b| *b != 0) {
        Some(last) => &name[..=last],
        None => &[],
    }
}

// The manifest's firmware version, or why there is none.
fn manifest(rt: &impl Print, blob: &[u8], count: usize) -> io::Result<()> {
    print!(rt; "  manifest HUCP.man: ")?;
    let f = firmware::manifest_figures(blob);
    match f.answer {
        Ok(()) => {
            let v = firmware::manifest_version(blob);
            println!(rt; "version {}", ManifestVersion(v))
        }
        Err(why) => no_part(rt, why, f, blob, count, b"HUCP.man"),
    }
}

// The image in huc_fw, which is judged as a blob of its own, with where its parts lie in the file.
fn inner_image(rt: &impl Print, blob: &[u8], count: usize) -> io::Result<()> {
    print!(rt; "  image huc_fw: ")?;
    let f = firmware::huc_figures(blob);
    match f.answer {
        Ok(()) => {
            let version = Version(firmware::huc_version(blob));
            println!(rt; "version {version} ({})", image::what_is_there(f))?;
            say::inner_parts(rt, blob)
        }
        Err(why) => no_part(rt, why, f, blob, count, b"huc_fw"),
    }
}

// Why a name's part is refused, and the entries that share the name where it is that.
fn no_part(
    rt: &impl Print,
    why: Refusal,
    f: Figures,
    blob: &[u8],
    count: usize,
    name: &[u8],
) -> io::Result<()> {
    refused(rt, why, f)?;
    if why == Refusal::DuplicateEntry {
        sharing::shared(rt, blob, count, name)?;
    }
    Ok(())
}
