// Single words of lent memory: stores that ask nothing of their caller, and those of the descriptor's words.
ghost use Rattle.std.specs.Prelude.{◌≡◌, set};
ghost use Rattle.ring.specs.Ring.{HEAD, TAIL};
ghost use Rattle.ring.specs.Numbers.{marked};

use crate::descriptor::{HEAD, STATUS, STATUS_MISMATCH, STATUS_OVERFLOW, STATUS_UNDERFLOW, TAIL};
use refusal::Refusal;

pub fn wide(x: u32) -> usize
    ensures { result ≡ x }
{
    x as usize
}

// Stores v at i, or nothing where there is no such place.
pub fn put(s: &mut [u32], i: usize, v: u32)
    ensures { s.new ≡ set s.old i v }
{
    if i < s.len() {
        s[i] = v;
    }
}

// The reasons that set STATUS, by their numbers: what is marked is any number, of which these three say something.
const OVERFLOW: u32 = Refusal::Overflow as u32;

const MISMATCH: u32 = Refusal::Mismatch as u32;

const UNDERFLOW: u32 = Refusal::Underflow as u32;

// Sets STATUS after 7, 8 and 9: overflow, mismatch and underflow; any other number leaves it.
pub fn mark(desc: &mut [u32], code: u32)
    ensures { desc.new ≡ marked code desc.old }
{
    if code == OVERFLOW {
        put(desc, STATUS, STATUS_OVERFLOW);
    } else if code == MISMATCH {
        put(desc, STATUS, STATUS_MISMATCH);
    } else if code == UNDERFLOW {
        put(desc, STATUS, STATUS_UNDERFLOW);
    }
}

// Publishes a tail. It is lent no ring: who publishes has stored.
pub fn publish_tail(desc: &mut [u32], tail: u32)
    ensures { desc.new ≡ set desc.old TAIL tail }
{
    put(desc, TAIL, tail);
}

// Publishes a head. It is lent neither ring nor output: who publishes has read, or passes over a message that was
// refused.
pub fn publish_head(desc: &mut [u32], head: u32)
    ensures { desc.new ≡ set desc.old HEAD head }
{
    put(desc, HEAD, head);
}
