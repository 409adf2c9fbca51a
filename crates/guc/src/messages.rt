// Packing and unpacking for C: a message as six numbers.
ghost use Rattle.std.specs.Prelude.{◌≡◌};
ghost use Rattle.std.proofs.Math.Option.{some};
ghost use Rattle.message.specs.Types.{carried, type_number, type_of};
ghost use Rattle.message.specs.Packing.{unpack_answer, origin_of, pack_answer};
ghost use Rattle.guc.specs.Messages.{body_for, spare, not_packed, packing, packed_by, nth, said_by, unpacked_by};

use crate::numbers::NO_SUCH;
use message::{Body, Message, Origin, Type};
use refusal::Refusal;

// 0 and the two dwords, or the number that refuses it.
#[repr(C)]
#[derive(Clone, Copy)]
pub struct Packed {
    pub code: u32,
    pub header: u32,
    pub word: u32,
}

// 0 and what a message says, or the number that refuses it.
#[repr(C)]
#[derive(Clone, Copy)]
pub struct Unpacked {
    pub code: u32,
    pub origin: u32,
    pub fence: u32,
    pub num_dwords: u32,
    pub hxg_type: u32,
    pub first: u32,
    pub second: u32,
}

// The body that a type and two fields make.
fn of_type(t: Type, first: u32, second: u32) -> Body
    ensures { body_for (type_number t) first second ≡ some result }
{
    match t {
        Type::Request => Body::Request {
            data: first,
            action: second,
        },
        Type::Event => Body::Event {
            data: first,
            action: second,
        },
        Type::FastRequest => Body::FastRequest {
            data: first,
            action: second,
        },
        Type::Busy => Body::Busy { counter: first },
        Type::Retry => Body::Retry { reason: first },
        Type::Failure => Body::Failure {
            hint: first,
            error: second,
        },
        Type::Success => Body::Success { data: first },
    }
}

// Whether the second field is 0 where the body has only one.
fn spare(b: Body, second: u32) -> bool
    ensures { result ≡ spare b second }
{
    match b {
        Body::Request { .. } => true,
        Body::Event { .. } => true,
        Body::FastRequest { .. } => true,
        Body::Busy { .. } => second == 0,
        Body::Retry { .. } => second == 0,
        Body::Failure { .. } => true,
        Body::Success { .. } => second == 0,
    }
}

fn not_packed(code: u32) -> Packed
    ensures { result ≡ not_packed code }
{
    Packed {
        code,
        header: 0,
        word: 0,
    }
}

fn pack_message(m: Message) -> Packed
    ensures { result ≡ packed_by (pack_answer m) }
{
    match message::pack(m) {
        Err(r) => not_packed(r.number()),
        Ok((header, word)) => Packed {
            code: 0,
            header,
            word,
        },
    }
}

// Packs a message of a known type.
fn packed_as(origin: u32, fence: u32, num_dwords: u32, body: Body) -> Packed
    ensures { result ≡ packed_by
        (pack_answer (record { origin = origin_of origin; fence = fence; num_dwords = num_dwords; body = body })) }
{
    pack_message(Message {
        origin: Origin::of(origin),
        fence,
        num_dwords,
        body,
    })
}

#[unsafe(no_mangle)]
pub extern "C" fn guc_pack(
    origin: u32,
    fence: u32,
    num_dwords: u32,
    hxg_type: u32,
    first: u32,
    second: u32,
) -> Packed
    ensures { result ≡ packing origin fence num_dwords hxg_type first second }
{
    let Ok(t) = Type::try_from(hxg_type) else {
        return not_packed(NO_SUCH);
    };
    let body = of_type(t, first, second);
    if (origin <= 1) & spare(body, second) {
        packed_as(origin, fence, num_dwords, body)
    } else {
        not_packed(Refusal::BadField.number())
    }
}

// The type of a body and its fields, as numbers; 0 for a second field that its type does not have.
#[tactic(auto, unfolding(crate::specs::Messages::nth, message::specs::Types::carried, message::specs::Types::type_of))]
fn numbers(b: Body) -> (u32, u32, u32)
    ensures { result ≡ (type_of b, nth 0 (carried b), nth 1 (carried b)) }
{
    match b {
        Body::Request { data, action } => (Type::Request as u32, data, action),
        Body::Event { data, action } => (Type::Event as u32, data, action),
        Body::FastRequest { data, action } => (Type::FastRequest as u32, data, action),
        Body::Busy { counter } => (Type::Busy as u32, counter, 0),
        Body::Retry { reason } => (Type::Retry as u32, reason, 0),
        Body::Failure { hint, error } => (Type::Failure as u32, hint, error),
        Body::Success { data } => (Type::Success as u32, data, 0),
    }
}

// What a decoded message says, in numbers.
#[tactic(auto, unfolding(crate::specs::Messages::said_by))]
fn decoded(m: Message) -> Unpacked
    ensures { result ≡ said_by m }
{
    let (hxg_type, first, second) = numbers(m.body);
    Unpacked {
        code: 0,
        origin: u32::from(m.origin),
        fence: m.fence,
        num_dwords: m.num_dwords,
        hxg_type,
        first,
        second,
    }
}

#[unsafe(no_mangle)]
pub extern "C" fn guc_unpack(msg: &[u32]) -> Unpacked
    ensures { result ≡ unpacked_by (unpack_answer msg.now) }
{
    match message::unpack(msg) {
        Err(r) => Unpacked {
            code: r.number(),
            origin: 0,
            fence: 0,
            num_dwords: 0,
            hxg_type: 0,
            first: 0,
            second: 0,
        },
        Ok(m) => decoded(m),
    }
}
