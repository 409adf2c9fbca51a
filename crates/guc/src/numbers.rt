// The interface's own numbers that say no, beside document 01's.

// The destination is too short.
pub(crate) const NO_ROOM: u32 = 100;

// No such HXG type, or component of an image.
pub(crate) const NO_SUCH: u32 = 101;
