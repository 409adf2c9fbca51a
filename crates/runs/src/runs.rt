// Straight runs of dwords: a message goes into the ring, and out of it, in one or in two. The first two dwords of a
// message were judged, so they are given by value and never read here; what copies is lent just the places that it
// fills.
ghost use Rattle.std.specs.Prelude.{◌≡◌, ◌∷◌, ◌++◌, ◌+◌, ◌-◌, ◌≤◌, ◌<◌, length, drop};
ghost use Rattle.runs.specs.Buffer;
ghost use Rattle.runs.specs.Buffer.{window, stored_at, filled_from, laid, laid_from};
ghost use Rattle.runs.specs.TwoRuns.{run_of, with_run, stored_runs, read_runs};

use crate::offset::{N_MAX, past};

// Where a second run starts: at the buffer's first dword.
const FRONT: usize = 0;

// Stores a straight run of dwords from place `at` on.
fn store_run(buf: &mut [u32], at: usize, src: &[u32])
    requires { at + length src.now ≤ length buf.old }
    ensures { buf.new ≡ with_run buf.old at src.now }
{
    let end = at + src.len();
    slices::copy(&mut buf[at..end], src);
}

// Stores a run that a dword given by value opens.
fn store_opened(buf: &mut [u32], at: usize, word: u32, rest: &[u32])
    requires { at + (1 + length rest.now) ≤ length buf.old }
    ensures { buf.new ≡ with_run buf.old at (word ∷ rest.now) }
{
    buf[at] = word;
    store_run(buf, at + 1, rest);
}

// Stores a run that the two judged dwords of a message open.
fn store_judged(buf: &mut [u32], at: usize, header: u32, word: u32, rest: &[u32])
    requires { at + (2 + length rest.now) ≤ length buf.old }
    ensures { buf.new ≡ with_run buf.old at (header ∷ word ∷ rest.now) }
{
    buf[at] = header;
    store_opened(buf, at + 1, word, rest);
}

// Lays a message of these two dwords and the others at the front of dst, or nothing where it does not fit.
pub fn lay(dst: &mut [u32], header: u32, word: u32, rest: &[u32])
    ensures { dst.new ≡ laid (header ∷ word ∷ rest.now) dst.old }
{
    if dst.len() < 2 {
        return;
    }
    if dst.len() - 2 < rest.len() {
        return;
    }
    store_judged(dst, 0, header, word, rest);
}

// Lays a receiver's own copy of a message at the front of the output, and returns the head to publish. It is lent
// neither ring nor descriptor.
pub fn lay_copy(
    out: &mut [u32],
    header: u32,
    word: u32,
    rest: &[u32],
    own: usize,
    n: usize,
) -> usize
    ensures { (out.new ≡ laid (header ∷ word ∷ rest.now) out.old)
        × (result ≡ Buffer.past n own (2 + length rest.now)) × (result < 16384) }
{
    lay(out, header, word, rest);
    past(own, 2 + rest.len(), n)
}

// Stores a message from place `at` on in its runs: one up to the end of the buffer at most, and one from the front with
// what is left. Where the end falls between the first two dwords, the second opens the second run.
fn store_runs(buf: &mut [u32], at: usize, header: u32, word: u32, rest: &[u32])
    requires { (at < length buf.old) × (2 + length rest.now ≤ length buf.old) }
    ensures { buf.new ≡ stored_runs buf.old at (header ∷ word ∷ rest.now) }
{
    let len = 2 + rest.len();
    let room = buf.len() - at;
    if len <= room {
        store_judged(buf, at, header, word, rest);
        return;
    }
    if room == 1 {
        buf[at] = header;
        store_opened(buf, FRONT, word, rest);
        return;
    }
    let taken = room - 2;
    // The second run goes on where the first stopped.
    let next = taken;
    store_judged(buf, at, header, word, &rest[0..taken]);
    store_run(buf, FRONT, &rest[next..]);
}

// Stores a message of these two dwords and the others in the ring from place `at` on, or nothing where it does not fit,
// and returns the tail to publish. It is lent no descriptor, so that what it stores is stored before TAIL can be
// published.
pub fn store_message(buf: &mut [u32], at: usize, header: u32, word: u32, rest: &[u32]) -> usize
    ensures { (buf.new ≡ stored_at buf.old at (header ∷ word ∷ rest.now))
        × (result ≡ Buffer.past (length buf.old) at (2 + length rest.now)) × (result < 16384) }
{
    let n = buf.len();
    let tail = past(at, 2 + rest.len(), n);
    if n <= at {
        return tail;
    }
    if n < 2 + rest.len() {
        return tail;
    }
    store_runs(buf, at, header, word, rest);
    tail
}

// Stores dwords in the ring from place `at` on in their runs, or nothing where they do not fit.
pub fn store_dwords(buf: &mut [u32], at: usize, src: &[u32])
    ensures { buf.new ≡ stored_at buf.old at src.now }
{
    if buf.len() <= at {
        return;
    }
    if buf.len() < src.len() {
        return;
    }
    let room = buf.len() - at;
    if src.len() <= room {
        store_run(buf, at, src);
        return;
    }
    // The second run goes on where the first stopped.
    let next = room;
    store_run(buf, at, &src[0..room]);
    store_run(buf, FRONT, &src[next..]);
}

// Fills dst with a straight run of dwords of the ring, from place `at` on.
fn load_run(dst: &mut [u32], buf: &[u32], at: usize)
    requires { at + length dst.old ≤ length buf.now }
    ensures { dst.new ≡ run_of buf.now at (length dst.old) }
{
    let end = at + dst.len();
    slices::copy(dst, &buf[at..end]);
}

// Fills dst with the dwords of the ring from place `at` on, read in their runs.
fn load_runs(dst: &mut [u32], buf: &[u32], at: usize)
    requires { (at < length buf.now) × (length dst.old ≤ length buf.now) }
    ensures { dst.new ≡ read_runs buf.now at (length dst.old) }
{
    let room = buf.len() - at;
    if dst.len() <= room {
        load_run(dst, buf, at);
    } else {
        load_run(&mut dst[0..room], buf, at);
        load_run(&mut dst[room..], buf, FRONT);
    }
}

// Fills dst with the dwords of the ring from place `at` on, read in their runs, or leaves it where the ring has not so
// many or no such place.
pub fn load_dwords(dst: &mut [u32], buf: &[u32], at: usize)
    ensures { dst.new ≡ filled_from buf.now at dst.old }
{
    if buf.len() <= at {
        return;
    }
    if buf.len() < dst.len() {
        return;
    }
    load_runs(dst, buf, at);
}

// A message that starts at place `own`: its first two dwords as they were read before, and those behind them, read
// to where they belong in the output.
fn lay_read(out: &mut [u32], header: u32, second: u32, len: usize, buf: &[u32], own: usize)
    requires { (2 ≤ len) × (len ≤ length out.old) × (len ≤ length buf.now) × (own < length buf.now)
        × (length buf.now ≤ 16384) }
    ensures { out.new
        ≡ header ∷ second ∷ window buf.now (length buf.now) (own + 2) (len - 2)
        ++ drop len out.old }
{
    out[0] = header;
    out[1] = second;
    let at = past(own, 2, buf.len());
    load_runs(&mut out[2..len], buf, at);
}

// Lays a message of which the first two dwords were read, and the others are read now, at the front of the output, or
// nothing where there is no such message or no room, and returns the head to publish. It is lent no descriptor, so that
// what it reads is read before HEAD can be published.
pub fn lay_message(
    out: &mut [u32],
    header: u32,
    second: u32,
    len: usize,
    buf: &[u32],
    own: usize,
) -> usize
    ensures { (out.new ≡ laid_from buf.now own header second len out.old)
        × (result ≡ Buffer.past (length buf.now) own len) × (result < 16384) }
{
    let n = buf.len();
    let head = past(own, len, n);
    let there = (own < n) & (2 <= len) & (len <= n) & (n <= N_MAX);
    if there & (len <= out.len()) {
        lay_read(out, header, second, len, buf, own);
    }
    head
}
