// Unpacking: the first two dwords of a message as a decoded message.
ghost use Rattle.std.specs.Prelude.{◌≡◌};
ghost use Rattle.std.proofs.Math.Option.{some};
ghost use Rattle.message.specs.Fields.{field_of, type};
ghost use Rattle.message.specs.Types.{body_of, type_number};
ghost use Rattle.message.specs.Packing.{unpack_answer, of_unpacked};

use crate::header::{dword_at, hxg_type, num_dwords, starts_message};
use crate::{Body, Message, Origin, Type};
use refusal::Refusal;

// The body of an HXG dword 0 of this type.
fn body(t: Type, word: u32) -> Body
    requires { type_number t ≡ field_of type word }
    ensures { some result ≡ body_of word }
{
    let upper = word / 0x1_0000 % 0x1000;
    let lower = word % 0x1_0000;
    let all = word % 0x1000_0000;
    match t {
        Type::Request => Body::Request {
            data: upper,
            action: lower,
        },
        Type::Event => Body::Event {
            data: upper,
            action: lower,
        },
        Type::FastRequest => Body::FastRequest {
            data: upper,
            action: lower,
        },
        Type::Busy => Body::Busy { counter: all },
        Type::Retry => Body::Retry { reason: all },
        Type::Failure => Body::Failure {
            hint: upper,
            error: lower,
        },
        Type::Success => Body::Success { data: all },
    }
}

// Unpacks a message; a malformed one is refused. Each dword is read once, so that what is decoded is what was judged.
pub fn unpack(dwords: &[u32]) -> Result<Message, Refusal>
    ensures { of_unpacked result ≡ unpack_answer dwords.now }
{
    let header = dword_at(dwords, 0);
    let word = dword_at(dwords, 1);
    if !starts_message(dwords.len(), header, word) {
        return Err(Refusal::BadMessage);
    }
    let t = Type::try_from(hxg_type(word))?;
    Ok(Message {
        origin: Origin::of(word / 0x8000_0000 % 2),
        fence: header / 0x1_0000 % 0x1_0000,
        num_dwords: num_dwords(header),
        body: body(t, word),
    })
}
