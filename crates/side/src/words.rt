// A state in words: its numbers, taken once by value, and the changes that a call makes of it.
ghost use Rattle.std.specs.Prelude.{◌≡◌, ◌∷◌, ◌++◌, ◌+◌, ◌-◌, ◌≤◌, length, get_or, take, drop, replicate};
ghost use Rattle.channel.specs.State.{zeros, idle_at, idle, counts_of};
ghost use Rattle.channel.specs.Send;
ghost use Rattle.side.specs.Words.{state_of};

use channel::Counts;
use ring::wide;

// The words of a state: n, own, len, moved, and the copy of the message, of which the first two dwords are judged.
pub const STATE_WORDS: usize = 260;

pub(crate) const N: usize = 0;

pub(crate) const OWN: usize = 1;

pub(crate) const LEN: usize = 2;

pub(crate) const MOVED: usize = 3;

pub(crate) const COPY: usize = 4;

pub(crate) const HEADER: usize = COPY;

pub(crate) const SECOND: usize = COPY + 1;

// The numbers of the state. They are judged and used from here: no word of them is read again.
pub(crate) fn counts_of(w: &[u32]) -> Counts
    requires { length w.now ≡ 260 }
    ensures { result ≡ counts_of (state_of w.now) }
{
    Counts {
        n: wide(w[N]),
        own: wide(w[OWN]),
        len: wide(w[LEN]),
        moved: wide(w[MOVED]),
    }
}

// Whether the words, of which these are the numbers, are an idle state that fits a buffer of n dwords.
pub(crate) fn is_idle(w: &[u32], s: Counts, n: usize) -> bool
    requires { (length w.now ≡ 260) × (s ≡ counts_of (state_of w.now)) }
    ensures { result ≡ idle n (state_of w.now) }
{
    s.fits_idle(n, &w[COPY..])
}

// Makes the copy all zeros.
fn clear_copy(w: &mut [u32])
    requires { 4 ≤ length w.old }
    ensures { w.new ≡ take 4 w.old ++ replicate (length w.old - 4) 0 }
{
    w[COPY..].fill(0);
}

// Makes the words idle at an own offset.
pub(crate) fn idle_at(w: &mut [u32], own: u32)
    requires { length w.old ≡ 260 }
    ensures { state_of w.new ≡ idle_at (get_or w.old 0 0) own }
{
    clear_copy(w);
    w[OWN] = own;
    w[LEN] = 0;
    w[MOVED] = 0;
}

// Makes the words idle at offset 0, made for n dwords.
pub(crate) fn make(w: &mut [u32], n: u32)
    requires { length w.old ≡ 260 }
    ensures { state_of w.new ≡ idle_at n 0 }
{
    idle_at(w, 0);
    w[N] = n;
}

// Puts a message of these two dwords and the others at the front of the copy.
fn fill_copy(w: &mut [u32], header: u32, word: u32, rest: &[u32])
    requires { 4 + (2 + length rest.now) ≤ length w.old }
    ensures { w.new
        ≡ take 4 w.old ++ ((header ∷ word ∷ rest.now)
        ++ drop (length (header ∷ word ∷ rest.now)) (drop 4 w.old)) }
{
    runs::lay(&mut w[COPY..], header, word, rest);
}

// Makes the words of an idle state active with a message.
pub(crate) fn load(w: &mut [u32], header: u32, word: u32, rest: &[u32])
    requires { (length w.old ≡ 260) × (2 + length rest.now ≤ 256) × ((state_of w.old).moved ≡ 0)
        × ((state_of w.old).copy ≡ zeros) }
    ensures { state_of w.new ≡ Send.loaded (state_of w.old) (header ∷ word ∷ rest.now) }
{
    fill_copy(w, header, word, rest);
    w[LEN] = (2 + rest.len()) as u32;
}

// Dword k of the copy, of which the first two were judged: those are given by value.
pub(crate) fn dword_of_copy(w: &[u32], header: u32, word: u32, k: usize) -> u32
    requires { (header ≡ get_or w.now 4 0) × (word ≡ get_or w.now 5 0) × (k ≤ 256) }
    ensures { result ≡ get_or (state_of w.now).copy k 0 }
{
    if k == 0 {
        return header;
    }
    if k == 1 {
        return word;
    }
    message::dword_at(w, COPY + k)
}
