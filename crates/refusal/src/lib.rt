// Why a call says no. One enum for all of them, as the paper has one table: each number is one reason, whichever call
// gives it.
#![tactic(auto)]

ghost use Rattle.std.specs.Prelude.{◌≡◌};
ghost use Rattle.refusal.specs.Numbers.{number, number_of};

use std::fmt;

// A reason, by its number in the paper; the names are those of include/guc.h. Beside each stands when it is given, in the
// words of document 01, or of the request that adds it.
#[derive(Clone, Copy, Debug, PartialEq, Eq)]
pub enum Refusal {
    // 'descriptor is not 16 dwords'
    BadDescriptor = 1,
    // 'N not allowed'
    BadBuffer = 2,
    // 'state doesn't fit'
    BadState = 3,
    // 'message to send or unpack is malformed'
    BadMessage = 4,
    // 'output shorter than 256 (whole receive, receive's publish)'
    ShortOutput = 5,
    // 'look finds STATUS not 0'
    Broken = 6,
    // 'look finds HEAD or TAIL at least N'
    Overflow = 7,
    // 'sender's own tail is not TAIL, or receiver's own head is not HEAD'
    Mismatch = 8,
    // 'ring not empty and L exceeds used, at a receive's look'
    Underflow = 9,
    // 'L exceeds free, at a send's look'
    Full = 10,
    // 'nothing pending'
    Empty = 11,
    // 'publish before L dwords moved, or a move after L'
    OutOfTurn = 12,
    // 'received message whole but malformed'
    Malformed = 13,
    // 'field too wide, NUM_DWORDS 0, or name to seek not 1 to 12 bytes without a zero'; of an opening, 'with more' than 256
    // reply dwords set aside (T-08)
    BadField = 14,
    // 'blob or part too short for its header'
    ShortBlob = 15,
    // 'CSS sizes disagree'
    CssSizes = 16,
    // 'CSS part lies beyond the blob'
    CssBeyond = 17,
    // 'CPD marker wrong or header length below 20'
    CpdHeader = 18,
    // 'CPD entries lie beyond the blob'
    CpdEntries = 19,
    // 'no entry of that name'
    NoEntry = 20,
    // 'entry's part lies beyond the blob'
    CpdBeyond = 21,
    // T-03: 'when more than one entry has it', the name sought; tested before 21
    DuplicateEntry = 22,
    // T-06: 'full'
    TableFull = 26,
    // T-06: 'A reply with no open fence, or a message of another type'; of an opening, 'malformed or another type'
    NoRequest = 27,
    // T-08: 'exactly when the dwords set aside by all open requests plus its own exceed that buffer's N - 1'
    NoReplyRoom = 28,
    // T-10: 'Reading back refuses with 29 ..', 'Writing refuses a bad direction, L or header, or a run that ends early, with
    // 29'
    BadRecord = 29,
    // T-10: 'if what is to be laid doesn't fit, it is 30'; of a write 'a short output'
    ShortRoom = 30,
    // T-06: 'Another table length, or two open records with one fence'
    BadTable = 35,
}

impl Refusal {
    // The reason's number.
    pub fn number(self) -> u32
        ensures { result ≡ number self }
    {
        self as u32
    }
}

// The reason in a sentence: the C header's own (GUC_NUMBERS). The gate compares the two.
impl fmt::Display for Refusal {
    fn fmt<W: fmt::Write>(&self, f: &mut fmt::Formatter<W>) -> fmt::Result {
        f.write_str(match self {
            Refusal::BadDescriptor => "the descriptor is not 16 dwords",
            Refusal::BadBuffer => "a ring has a multiple of 1024 dwords, from 1024 to 16384",
            Refusal::BadState => "the state does not fit this call and this ring",
            Refusal::BadMessage => "the message is malformed",
            Refusal::ShortOutput => "the output is shorter than 256 dwords",
            Refusal::Broken => "STATUS is not 0",
            Refusal::Overflow => "HEAD or TAIL is outside the ring",
            Refusal::Mismatch => "TAIL is not the sender's own, or HEAD not the receiver's own",
            Refusal::Underflow => "the message is longer than what is used",
            Refusal::Full => "the message is longer than what is free",
            Refusal::Empty => "nothing pending",
            Refusal::OutOfTurn => "publish before the last dword moved, or a move after it",
            Refusal::Malformed => "the message is whole but malformed",
            Refusal::BadField =>
                "a field too wide, NUM_DWORDS 0, room above 256, or a name not 1 to 12 bytes without a zero",
            Refusal::ShortBlob => "too short for its header",
            Refusal::CssSizes => "the sizes in its header disagree",
            Refusal::CssBeyond => "a part of the image lies beyond its end",
            Refusal::CpdHeader =>
                "the directory's marker is wrong or its header length is below 20",
            Refusal::CpdEntries => "the directory's entries lie beyond its end",
            Refusal::NoEntry => "no entry has that name",
            Refusal::CpdBeyond => "the entry's part lies beyond the directory's end",
            Refusal::DuplicateEntry => "more than one entry has that name",
            Refusal::TableFull => "every record of the table is open",
            Refusal::NoRequest => "the message is no request to send, or no reply to an open one",
            Refusal::NoReplyRoom => "the reply buffer would have too little room for the answer",
            Refusal::BadRecord => "the record has a bad number, or a message that is not whole",
            Refusal::ShortRoom => "the output has too little room for the record",
            Refusal::BadTable => "a table has 1 to 256 records, no two open with one fence",
        })
    }
}

// An answer's number: 0, or that of the reason that refuses.
pub fn number_of<T>(answer: &Result<T, Refusal>) -> u32
    ensures { result ≡ number_of answer.now }
{
    match answer {
        Ok(_) => 0,
        Err(r) => r.number(),
    }
}
