// A line for each message.
use crate::kinds::Meaning;
use crate::options::Filter;
use crate::run::{Messages, Recorded};
use record::Direction;
use std::alloc::Global;
use std::io;
use std::io::Write;

// So long a page is written before the next line: 4 KiB less the longest line, which has 89 columns behind its message's
// number, of at most 20 digits, and its end. So whole lines are written at once, in pieces that a pipe keeps together.
const FULL: usize = 3968;

// Writes the lines of a run, whose first message comes behind so many.
pub(crate) fn show_run(
    rt: &impl Print,
    alloc: Global,
    run: &[u32],
    before: u64,
    filter: Filter,
) -> io::Result<()> {
    let mut page: Vec<u8> = Vec::new(alloc);
    let mut fields = String::new(alloc);
    let mut number = before;
    for m in Messages(run) {
        number = number.wrapping_add(1);
        let meaning = Meaning::of(m.dwords);
        if filter.passes(meaning) {
            fields.clear();
            write!(fields, "{meaning}")?;
            put_line(&mut page, number, m, meaning, fields.as_str())?;
            if FULL <= page.len() {
                io::writer(rt).write_all(&page)?;
                page.clear();
            }
        }
    }
    io::writer(rt).write_all(&page)
}

// The line of a message: its number, direction, fence, type and fields, its L, its first payload dwords, and whether
// there are more.
fn put_line(
    page: &mut impl Write,
    number: u64,
    m: Recorded<'_>,
    meaning: Meaning,
    fields: &str,
) -> io::Result<()> {
    let direction = match m.direction {
        Direction::Sent => "sent",
        Direction::Received => "received",
    };
    let fence = meaning.fence;
    let kind = meaning.kind().name();
    let len = m.dwords.len();
    write!(
        page,
        "{number:>7}  {direction:<8}  fence 0x{fence:04x}  {kind:<9}  {fields:<25}"
    )?;
    match m.dwords {
        [_, _, first, second, _, ..] => writeln!(page, "L {len:<4} {first:08x} {second:08x} .."),
        [_, _, first, second] => writeln!(page, "L {len:<4} {first:08x} {second:08x}"),
        [_, _, first] => writeln!(page, "L {len:<4} {first:08x}"),
        _ => writeln!(page, "L {len}"),
    }
}
