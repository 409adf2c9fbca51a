// The length of a message, its type, and what is well formed: the one place where a type is taken as known.
ghost use Rattle.std.specs.Prelude.{◌≡◌, get_or};
ghost use Rattle.message.specs.Fields.{field_of, num_dwords, type};
ghost use Rattle.message.specs.Types.{known, type_number, IsTypeOf};
ghost use Rattle.message.specs.Header.{total_length, well_formed, starts_message, header_with, action_of};
ghost use Rattle.refusal.specs.declared.Refusal.TheVariants.{BadMessage};

use refusal::Refusal;

// 'NUM_DWORDS 1 to 255'
const NUM_DWORDS_MAX: u32 = 255;

// L of the longest message, 'up to 256 dwords'; an output has room for one.
pub const MESSAGE_MAX: usize = 256;

// The dword at i, or 0 where there is none.
pub fn dword_at(s: &[u32], i: usize) -> u32
    ensures { result ≡ get_or s.now i 0 }
{
    s.get(i).copied().unwrap_or(0)
}

// NUM_DWORDS of a header: how many dwords follow it.
pub fn num_dwords(header: u32) -> u32
    ensures { result ≡ field_of num_dwords header }
{
    header % 0x100
}

// The length L of the message that a header starts: all its dwords, the header among them.
pub fn total_length(header: u32) -> usize
    ensures { result ≡ total_length header }
{
    1 + num_dwords(header) as usize
}

// The columns 'Type' and 'Meaning' of the table of HXG types, with document 02's fast request: 'only type 4 stays
// unknown'.
#[derive(Clone, Copy, Debug, PartialEq, Eq)]
pub enum Type {
    Request = 0,
    Event = 1,
    FastRequest = 2,
    Busy = 3,
    Retry = 5,
    Failure = 6,
    Success = 7,
}

// A number that no type has.
#[derive(Clone, Copy, Debug, PartialEq, Eq)]
pub struct UnknownType(pub u32);

impl TryFrom<u32> for Type {
    type Error = UnknownType;

    ghost try_from_gives = { IsTypeOf };

    fn try_from(n: u32) -> Result<Self, UnknownType> {
        match n {
            0 => Ok(Type::Request),
            1 => Ok(Type::Event),
            2 => Ok(Type::FastRequest),
            3 => Ok(Type::Busy),
            5 => Ok(Type::Retry),
            6 => Ok(Type::Failure),
            7 => Ok(Type::Success),
            _ => Err(UnknownType(n)),
        }
    }
}

// A message whose type is unknown is malformed.
impl From<UnknownType> for Refusal {
    ghost from_gives = { λ _ r. r ≡ BadMessage };

    fn from(_unknown: UnknownType) -> Refusal {
        Refusal::BadMessage
    }
}

impl From<Type> for u32 {
    ghost from_gives = { λ t n. n ≡ type_number t };

    fn from(t: Type) -> u32 {
        t as u32
    }
}

// The type in an HXG dword 0.
pub fn hxg_type(word: u32) -> u32
    ensures { result ≡ field_of type word }
{
    word / 0x1000_0000 % 8
}

// Whether the type in an HXG dword 0 is known.
fn known_type(word: u32) -> bool
    ensures { result ≡ known word }
{
    Type::try_from(hxg_type(word)).is_ok()
}

// Whether a header and an HXG dword 0 start a well-formed message.
#[tactic(auto, unfolding(crate::specs::Header::well_formed))]
pub fn well_formed(header: u32, word: u32) -> bool
    ensures { result ≡ well_formed header word }
{
    let format = header / 0x1000 % 0x10;
    let reserved = header / 0x100 % 0x10;
    let n = num_dwords(header);
    (format == 0) & (reserved == 0) & (1 <= n) & (n <= NUM_DWORDS_MAX) & known_type(word)
}

// Whether that many dwords, of which these are the first two, are one well-formed message, exactly L of them. It is
// lent no message: who asks has read the two dwords, and goes on with what was judged.
pub fn starts_message(len: usize, header: u32, word: u32) -> bool
    ensures { result ≡ starts_message len header word }
{
    (len == total_length(header)) & well_formed(header, word)
}

// The action of a request, in its HXG dword 0.
pub fn action_of(word: u32) -> u16
    ensures { result ≡ action_of word }
{
    (word % 0x1_0000) as u16
}

// A header with this fence in the place of its own.
#[tactic(auto, unfolding(crate::specs::Header::header_with))]
pub fn with_fence(fence: u16, header: u32) -> u32
    ensures { result ≡ header_with fence header }
{
    u32::from(fence) * 0x1_0000 + header % 0x1_0000
}
