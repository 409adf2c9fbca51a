// CTB headers and HXG words: packing, unpacking, and what is well formed.
#![tactic(auto)]

ghost use Rattle.std.specs.Prelude.{◌≡◌};
ghost use Rattle.message.specs.Types.{type_number, type_of};
ghost use Rattle.message.specs.Packing.{origin_number, origin_of};

mod header;
mod packing;
mod unpacking;

pub use header::{
    MESSAGE_MAX, Type, UnknownType, action_of, dword_at, hxg_type, starts_message, total_length,
    well_formed, with_fence,
};
pub use packing::pack;
pub use unpacking::unpack;

// Who sent a message: bit 31 of HXG dword 0.
#[derive(Clone, Copy, Debug, PartialEq, Eq)]
pub enum Origin {
    Host = 0,
    Guc = 1,
}

impl Origin {
    // The origin that a bit stands for.
    #[tactic(auto, unfolding(crate::specs::Packing::origin_of))]
    pub fn of(bit: u32) -> Origin
        ensures { result ≡ origin_of bit }
    {
        if bit == 0 { Origin::Host } else { Origin::Guc }
    }
}

impl From<Origin> for u32 {
    ghost from_gives = { λ o bit. bit ≡ origin_number o };

    #[tactic(auto, unfolding(crate::specs::Packing::origin_number))]
    fn from(o: Origin) -> u32 {
        o as u32
    }
}

// What HXG dword 0 carries beside origin and type, by its type.
#[derive(Clone, Copy, Debug, PartialEq, Eq)]
pub enum Body {
    Request { data: u32, action: u32 },
    Event { data: u32, action: u32 },
    FastRequest { data: u32, action: u32 },
    Busy { counter: u32 },
    Retry { reason: u32 },
    Failure { hint: u32, error: u32 },
    Success { data: u32 },
}

impl Body {
    // The type of the messages that have such a body.
    #[tactic(auto, unfolding(crate::specs::Types::type_of))]
    pub fn kind(self) -> Type
        ensures { type_number result ≡ type_of self }
    {
        match self {
            Body::Request { .. } => Type::Request,
            Body::Event { .. } => Type::Event,
            Body::FastRequest { .. } => Type::FastRequest,
            Body::Busy { .. } => Type::Busy,
            Body::Retry { .. } => Type::Retry,
            Body::Failure { .. } => Type::Failure,
            Body::Success { .. } => Type::Success,
        }
    }
}

// A decoded message: what its first two dwords say. Every number is a u32, so that each can be too wide
// for its place and be refused.
#[derive(Clone, Copy, Debug, PartialEq, Eq)]
pub struct Message {
    pub origin: Origin,
    pub fence: u32,
    pub num_dwords: u32,
    pub body: Body,
}
