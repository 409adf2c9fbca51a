// The descriptor's words and the values of STATUS, by document 01's names.

// 'The descriptor is 16 dwords: 0 HEAD, 1 TAIL, 2 STATUS, 3 to 15 reserved.'
pub const DESCRIPTOR_DWORDS: usize = 16;

pub const HEAD: usize = 0;

pub const TAIL: usize = 1;

pub const STATUS: usize = 2;

// 'STATUS: 0 good': compared as it is read, widened; the others are stored.
pub(crate) const STATUS_GOOD: usize = 0;

// '1 overflow (offset too large), 2 underflow (truncated), 4 mismatch (offset modified)'
pub(crate) const STATUS_OVERFLOW: u32 = 1;

pub(crate) const STATUS_UNDERFLOW: u32 = 2;

pub(crate) const STATUS_MISMATCH: u32 = 4;
