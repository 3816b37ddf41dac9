// The numbers of document 01's table 'Answers' that this layer gives.

// Not refused.
pub(crate) const ACCEPTED: u32 = 0;

// A hash argument that is not 32 bytes.
pub(crate) const LENGTH: u32 = 5;

// A size or a place out of range, or a first size above the second.
pub(crate) const RANGE: u32 = 6;

// A path that does not have the definition's count of nodes.
pub(crate) const COUNT: u32 = 7;

// A root that disagrees.
pub(crate) const ROOT: u32 = 8;

// An output shorter than the answer.
pub(crate) const ROOM: u32 = 9;

// Joined hashes that are not a multiple of 32, or too many.
pub(crate) const JOINED: u32 = 10;
