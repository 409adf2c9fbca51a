// The numbers that say no, of a wall's calls, each by its reason: what a wall answers is C's struct, which has a number. With
// document 02's words for when it is given (T-06, T-08).
use refusal::Refusal;

// an opening 'with more' than 256 reply dwords set aside
pub(crate) const BAD_FIELD: u32 = Refusal::BadField as u32;

// 'full'
pub(crate) const TABLE_FULL: u32 = Refusal::TableFull as u32;

// 'A reply with no open fence, or a message of another type'; of an opening, 'malformed or another type'
pub(crate) const NO_REQUEST: u32 = Refusal::NoRequest as u32;

// 'exactly when the dwords set aside by all open requests plus its own exceed that buffer's N - 1'
pub(crate) const NO_REPLY_ROOM: u32 = Refusal::NoReplyRoom as u32;

// 'Another table length, or two open records with one fence'
pub(crate) const BAD_TABLE: u32 = Refusal::BadTable as u32;

// 'the N made for is not allowed', of the reply buffer
pub(crate) const BAD_BUFFER: u32 = Refusal::BadBuffer as u32;
