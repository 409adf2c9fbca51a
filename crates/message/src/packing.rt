// Packing: a decoded message as its header and its HXG dword 0.
ghost use Rattle.std.specs.Prelude.{◌≡◌, ◌&&◌, cond, ◌+◌, ◌*◌, ltb};
ghost use Rattle.message.specs.Fields.{fit, dword};
ghost use Rattle.message.specs.Types.{body_fields, type_number};
ghost use Rattle.message.specs.Packing.{pack_answer, of_packed};

use crate::{Body, Message, Type};
use refusal::Refusal;

// A type with one field in bits 27:0; none where it is too wide.
fn one_field(t: Type, all: u32) -> Option<u32>
    ensures { result ≡ cond (ltb all 0x1000_0000) (Some (type_number t * 0x1000_0000 + all)) None }
{
    if all < 0x1000_0000 {
        Some(u32::from(t) * 0x1000_0000 + all)
    } else {
        None
    }
}

// A type with a field in bits 27:16 and one in bits 15:0; none where one is too wide.
fn two_fields(t: Type, upper: u32, lower: u32) -> Option<u32>
    ensures { result ≡ cond (ltb upper 0x1000 && ltb lower 0x1_0000)
        (Some (type_number t * 0x1000_0000 + upper * 0x1_0000 + lower)) None }
{
    if upper < 0x1000 && lower < 0x1_0000 {
        Some(u32::from(t) * 0x1000_0000 + upper * 0x1_0000 + lower)
    } else {
        None
    }
}

// The type and the fields of a body; none where one is too wide for its place.
fn body_bits(b: Body) -> Option<u32>
    ensures { result ≡ cond (fit (body_fields b)) (Some (dword (body_fields b))) None }
{
    match b {
        Body::Request { data, action } => two_fields(Type::Request, data, action),
        Body::Event { data, action } => two_fields(Type::Event, data, action),
        Body::FastRequest { data, action } => two_fields(Type::FastRequest, data, action),
        Body::Busy { counter } => one_field(Type::Busy, counter),
        Body::Retry { reason } => one_field(Type::Retry, reason),
        Body::Failure { hint, error } => two_fields(Type::Failure, hint, error),
        Body::Success { data } => one_field(Type::Success, data),
    }
}

// Packs a message as its header and its HXG dword 0; a field too wide for its place and NUM_DWORDS 0 are refused.
pub fn pack(m: Message) -> Result<(u32, u32), Refusal>
    ensures { of_packed result ≡ pack_answer m }
{
    let fence = m.fence;
    let n = m.num_dwords;
    let bits = body_bits(m.body).ok_or(Refusal::BadField)?;
    if (1 <= n) & (n < 0x100) & (fence < 0x1_0000) {
        Ok((
            fence * 0x1_0000 + n,
            u32::from(m.origin) * 0x8000_0000 + bits,
        ))
    } else {
        Err(Refusal::BadField)
    }
}
