// The decisions that the calls share, as functions of plain numbers.
ghost use Rattle.std.specs.Prelude.{◌≡◌, ◌<◌};
ghost use Rattle.std.specs.Result.{IfOk};
ghost use Rattle.refusal.specs.Numbers.{number_of};
ghost use Rattle.ring.specs.Ring.{allowed, used};
ghost use Rattle.ring.specs.Numbers.{first_needs, look_needs, send_look_needs};
ghost use Rattle.ring.specs.Private.{pending_number};

use crate::descriptor::{DESCRIPTOR_DWORDS, STATUS_GOOD};
use refusal::Refusal;
use runs::N_MAX;

// 'N a multiple of 1,024 from 1,024'
const N_UNIT: usize = 1024;

// Whether a buffer may have n dwords.
pub fn allowed(n: usize) -> bool
    ensures { result ≡ allowed n }
{
    (n % N_UNIT == 0) & (N_UNIT <= n) & (n <= N_MAX)
}

// 1, 2 and 3, which every step judges first, with the lengths of the descriptor and the buffer. Each is a branch, so
// that what follows it knows that it passed: the compiler then leaves out what it would only test again.
pub fn first_needs(descriptor: usize, n: usize, fits: bool) -> Result<(), Refusal>
    ensures { number_of result ≡ first_needs descriptor n fits 0 }
{
    if descriptor != DESCRIPTOR_DWORDS {
        return Err(Refusal::BadDescriptor);
    }
    if !allowed(n) {
        return Err(Refusal::BadBuffer);
    }
    if !fits {
        return Err(Refusal::BadState);
    }
    Ok(())
}

// The dwords in use.
fn used(n: usize, head: usize, tail: usize) -> usize
    requires { (head < n) × (tail < n) }
    ensures { result ≡ used n head tail }
{
    if head <= tail {
        tail - head
    } else {
        n - (head - tail)
    }
}

// What every look needs of the descriptor: 6, 7 and 8. `word` is the descriptor's word that is to be the own offset.
fn look_needs(
    n: usize,
    own: usize,
    word: usize,
    status: usize,
    head: usize,
    tail: usize,
) -> Result<(), Refusal>
    ensures { number_of result ≡ look_needs n own word status head tail 0 }
{
    if status != STATUS_GOOD {
        return Err(Refusal::Broken);
    }
    if n <= head {
        return Err(Refusal::Overflow);
    }
    if n <= tail {
        return Err(Refusal::Overflow);
    }
    if own != word {
        return Err(Refusal::Mismatch);
    }
    Ok(())
}

// What a send's look needs of it: these, and 10.
pub(crate) fn send_look_needs(
    n: usize,
    own: usize,
    len: usize,
    status: usize,
    head: usize,
    tail: usize,
) -> Result<(), Refusal>
    ensures { number_of result ≡ send_look_needs n own len status head tail }
{
    look_needs(n, own, tail, status, head, tail)?;
    if n - 1 - used(n, head, tail) < len {
        return Err(Refusal::Full);
    }
    Ok(())
}

// What the descriptor says to a receive's look: 6, 7 and 8, or 11; else the dwords in use.
pub(crate) fn pending(
    n: usize,
    own: usize,
    status: usize,
    head: usize,
    tail: usize,
) -> Result<usize, Refusal>
    ensures says { number_of result ≡ pending_number n own status head tail }
    ensures in_use { IfOk result (λ u. u ≡ used n head tail) }
{
    look_needs(n, own, head, status, head, tail)?;
    let used = used(n, head, tail);
    if used == 0 {
        return Err(Refusal::Empty);
    }
    Ok(used)
}
