// HuC code partition directories (CPD): an entry by its name or its index, and its part of the lent blob.
ghost use Rattle.std.specs.Prelude.{◌≡◌, ◌+◌, ◌*◌, ◌≤◌, ◌<◌, ◌^◌, length, MatchOption};
ghost use Rattle.refusal.specs.Numbers.{number_of};
ghost use Rattle.firmware.specs.Bytes.{PartOf, of_located, span};
ghost use Rattle.firmware.specs.Cpd;
ghost use Rattle.firmware.specs.Cpd.{of_directory};
ghost use Rattle.firmware.specs.Private.{entry_judged, of_table, part_judged, table_of, walked};

use crate::bytes::{Located, dword_at, part};
use crate::name::{FRONT_BYTES, NAME_BYTES, front, front_at, key_of};
use refusal::Refusal;

// 'CPD: at least 20 bytes'; nor may the header length be 'below 20'.
const HEADER_MIN: usize = 20;

// 'entry count n is the dword at 4; header length H is the byte at 10'
const COUNT_AT: usize = 4;

const HEADER_LENGTH_AT: usize = 10;

// 'An entry: name 12 bytes (zero padded), offset dword (bits 24:0 count), length dword, 4 reserved bytes.'
pub(crate) const ENTRY_BYTES: usize = 24;

const OFFSET_AT: usize = 12;

const OFFSET_LIMIT: usize = 0x200_0000;

const LENGTH_AT: usize = 16;

// How many entries a directory has.
#[derive(Clone, Copy, Debug, PartialEq, Eq)]
pub struct Directory {
    pub count: usize,
}

// A directory judged: where its entries start and how many they are, and the bytes up to the end of the last.
#[derive(Clone, Copy, Debug, PartialEq, Eq)]
pub(crate) struct Table {
    pub start: usize,
    pub count: usize,
    pub needed: usize,
}

// Why a blob is no directory, with the bytes that the reason asks for.
#[derive(Clone, Copy, Debug, PartialEq, Eq)]
pub(crate) struct NoTable {
    pub refusal: Refusal,
    pub needed: usize,
}

impl From<NoTable> for Refusal {
    ghost from_gives = { λ e r. r ≡ e.refusal };

    fn from(e: NoTable) -> Refusal {
        e.refusal
    }
}

// Where an entry says that its part starts, and how long it is.
#[derive(Clone, Copy, Debug, PartialEq, Eq)]
pub(crate) struct Extent {
    pub start: usize,
    pub len: usize,
}

// Whether the first four bytes are the marker $CPD.
pub(crate) fn has_marker(blob: &[u8]) -> bool
    ensures { result ≡ Cpd.has_marker blob.now }
{
    blob.starts_with(b"$CPD")
}

// Judges the directory itself: 15, 18 and 19.
pub(crate) fn read_table(blob: &[u8]) -> Result<Table, NoTable>
    ensures { of_table result ≡ table_of blob.now }
{
    if blob.len() < HEADER_MIN {
        return Err(NoTable {
            refusal: Refusal::ShortBlob,
            needed: HEADER_MIN,
        });
    }
    let start = usize::from(blob[HEADER_LENGTH_AT]);
    if !(has_marker(blob) & (HEADER_MIN <= start)) {
        return Err(NoTable {
            refusal: Refusal::CpdHeader,
            needed: 0,
        });
    }
    let count = dword_at(blob, COUNT_AT);
    let needed = start + ENTRY_BYTES * count;
    if blob.len() < needed {
        return Err(NoTable {
            refusal: Refusal::CpdEntries,
            needed,
        });
    }
    Ok(Table {
        start,
        count,
        needed,
    })
}

// Whether the twelve bytes of the entry that starts at byte `at` are the key's: the first eight as one number, which
// most entries fail, then the other four. Each is read once.
fn has_key(blob: &[u8], at: usize, key: [u8; NAME_BYTES]) -> bool
    requires { at + 12 ≤ length blob.now }
    ensures { result ≡ Cpd.agrees blob.now key at }
{
    front_at(blob, at) == front_at(&key, 0)
        && dword_at(blob, at + FRONT_BYTES) == dword_at(&key, FRONT_BYTES)
}

// Of `count` entries from byte `start`, the index of the first from entry `from` on whose twelve bytes are the key's;
// where there is none, an index not below `count`. Each byte of a name is read once: the first eight as one number,
// which most entries fail, then one after another.
fn walk(blob: &[u8], start: usize, count: usize, from: usize, key: [u8; NAME_BYTES]) -> usize
    requires { start + 24 * count ≤ length blob.now }
    ensures { result ≡ walked blob.now key start count from }
{
    let first = front(key);
    let mut i = from;
    'entries: loop {
        if count <= i {
            break 'entries i;
        }
        let at = start + ENTRY_BYTES * i;
        if front_at(blob, at) != first {
            i += 1;
            continue 'entries;
        }
        for j in FRONT_BYTES..NAME_BYTES {
            if blob[at + j] != key[j] {
                i += 1;
                continue 'entries;
            }
        }
        break 'entries i;
    }
}

// The index of the first entry of a judged directory from entry `from` on that has the key.
fn found(blob: &[u8], t: Table, from: usize, key: [u8; NAME_BYTES]) -> Option<usize>
    requires { t.start + 24 * t.count ≤ length blob.now }
    ensures { MatchOption result (t.count ≤ walked blob.now key t.start t.count from)
        (λ i. (i ≡ walked blob.now key t.start t.count from) × (i < t.count)) }
{
    let i = walk(blob, t.start, t.count, from, key);
    if i < t.count { Some(i) } else { None }
}

// A part of a blob of n bytes, where an entry says that it lies: 22 where another entry shares the name sought, tested
// before 21.
fn part_located(n: usize, x: Extent, shared: bool) -> Result<Located, Refusal>
    requires { x.start + x.len < 2 ^ 64 }
    ensures { of_located result ≡ part_judged n (span x.start (x.start + x.len)) shared }
{
    if shared {
        return Err(Refusal::DuplicateEntry);
    }
    if n < x.start + x.len {
        return Err(Refusal::CpdBeyond);
    }
    Ok(Located {
        truncated: false,
        start: x.start,
        len: x.len,
    })
}

// The offset and the length in the entry that starts at byte `at`, each read once.
pub(crate) fn extent_at(blob: &[u8], at: usize) -> Extent
    requires { at + 20 ≤ length blob.now }
    ensures { (result.start ≡ Cpd.offset blob.now at) × (result.len ≡ Cpd.size blob.now at)
        × (result.start < 2 ^ 25) × (result.len < 2 ^ 32) }
{
    let start = dword_at(blob, at + OFFSET_AT) % OFFSET_LIMIT;
    let len = dword_at(blob, at + LENGTH_AT);
    Extent { start, len }
}

// Entry i of a judged directory, told whether another entry has the name sought too. The offset and the length that are
// read are what is judged and handed out.
fn entry_located(blob: &[u8], t: Table, i: usize, shared: bool) -> Result<Located, Refusal>
    requires { (of_table (Ok t) ≡ table_of blob.now) × (i < t.count) }
    ensures { of_located result ≡ entry_judged blob.now i shared }
{
    let x = extent_at(blob, t.start + ENTRY_BYTES * i);
    part_located(blob.len(), x, shared)
}

// The one judgement of a name sought in a directory: its number, or where its part lies. The second walk goes on behind
// the entry found, so each entry's name is read at most once. Whether the first found one is asked behind both: asked
// between them, the compiler readies the refusal's zeros at each entry.
pub fn cpd_located(blob: &[u8], name: &[u8]) -> Result<Located, Refusal>
    ensures { of_located result ≡ Cpd.located blob.now name.now }
{
    let key = key_of(name)?;
    let t = read_table(blob)?;
    let i = walk(blob, t.start, t.count, 0, key);
    let behind = i + 1;
    let next = found(blob, t, behind, key);
    if t.count <= i {
        return Err(Refusal::NoEntry);
    }
    entry_located(blob, t, i, next.is_some())
}

// Entry i by its index, for a list of all entries: 20 where there is none. Entries that share a name are told apart by
// their index; a seek of it is refused.
pub fn cpd_entry(blob: &[u8], i: usize) -> Result<Located, Refusal>
    ensures { of_located result ≡ Cpd.entry_located blob.now i }
{
    let t = read_table(blob)?;
    if t.count <= i {
        return Err(Refusal::NoEntry);
    }
    entry_located(blob, t, i, false)
}

// Whether that name may be had, or the reason why not.
pub fn cpd_answer(blob: &[u8], name: &[u8]) -> Result<(), Refusal>
    ensures { number_of result ≡ Cpd.number blob.now name.now }
{
    cpd_located(blob, name)?;
    Ok(())
}

// The part of that name; the empty part at the start on a refusal.
pub fn cpd_part<'a, 'b>(blob: &'a [u8], name: &'b [u8]) -> &'a [u8]
    ensures { PartOf blob.entry (Cpd.part blob.now name.now) result }
{
    part(blob, cpd_located(blob, name))
}

// Whether the blob is a directory, and how many entries it has.
pub fn cpd_directory(blob: &[u8]) -> Result<Directory, Refusal>
    ensures { of_directory result ≡ Cpd.entries_of blob.now }
{
    let t = read_table(blob)?;
    Ok(Directory { count: t.count })
}

// The twelve name bytes of entry i; the empty part at the start where there is no such entry.
pub fn cpd_name(blob: &[u8], i: usize) -> &[u8]
    ensures { PartOf blob.entry (Cpd.name_span blob.now i) result }
{
    let Ok(t) = read_table(blob) else {
        return &blob[..0];
    };
    if t.count <= i {
        return &blob[..0];
    }
    let from = t.start + ENTRY_BYTES * i;
    &blob[from..from + NAME_BYTES]
}

// Whether there is an entry i and it has that name, for telling which entries share one.
pub fn cpd_has_name(blob: &[u8], i: usize, name: &[u8]) -> bool
    ensures { result ≡ Cpd.entry_has blob.now name.now i }
{
    let Ok(key) = key_of(name) else {
        return false;
    };
    let Ok(t) = read_table(blob) else {
        return false;
    };
    i < t.count && has_key(blob, t.start + ENTRY_BYTES * i, key)
}
