// A name to seek: copied once, zero padded, and judged on the copy. The lent name is not read again.
ghost use Rattle.std.specs.Prelude.{◌≡◌, ◌≢◌, ◌+◌, ◌≤◌, ◌↔◌, true, false, length, slice_index, EachIndex, IsTrue, MatchResult};
ghost use Rattle.refusal.specs.declared.Refusal.TheVariants.{BadField};
ghost use Rattle.firmware.specs.Cpd;
ghost use Rattle.firmware.specs.Private.{Keyed, front_at};

use crate::bytes::{byte_at, dword_at};
use refusal::Refusal;
use std::array;

// 'name 12 bytes (zero padded)'
pub(crate) const NAME_BYTES: usize = 12;

// As many of them, the front, are compared as one number.
pub(crate) const FRONT_BYTES: usize = 8;

// Whether none of the bytes is zero.
fn has_no_zero(s: &[u8]) -> bool
    ensures { IsTrue result ↔ EachIndex s.now (λ k. slice_index s.now k ≢ 0) }
{
    s.iter().all(|b| *b != 0)
}

// The first twelve bytes of a name, zero padded.
fn padded(name: &[u8]) -> [u8; NAME_BYTES]
    ensures { Keyed name.now result }
{
    array::from_fn(|j| byte_at(name, j))
}

// The twelve bytes of a name that may be sought, zero padded: it has 1 to 12 bytes without a zero.
pub(crate) fn key_of(name: &[u8]) -> Result<[u8; NAME_BYTES], Refusal>
    ensures { MatchResult result (λ key. (Cpd.is_name name.now ≡ true) × Keyed name.now key)
        (λ r. (Cpd.is_name name.now ≡ false) × (r ≡ BadField)) }
{
    let n = name.len();
    if n < 1 || NAME_BYTES < n {
        return Err(Refusal::BadField);
    }
    let key = padded(name);
    if !has_no_zero(&key[..n]) {
        return Err(Refusal::BadField);
    }
    Ok(key)
}

// The front of a key as one number.
pub(crate) fn front(key: [u8; NAME_BYTES]) -> usize
    ensures { result ≡ front_at key 0 }
{
    front_at(&key, 0)
}

// The front of a name that starts at byte `at`, as one number.
pub(crate) fn front_at(s: &[u8], at: usize) -> usize
    requires { at + 8 ≤ length s.now }
    ensures { result ≡ front_at s.now at }
{
    dword_at(s, at) + 0x1_0000_0000 * dword_at(s, at + 4)
}
