// The limits of documents 01 and 02. The builders, the growing tree and the path buffer of the auditor's dispute go by them; all other arithmetic holds for
// every size.

// The largest size of a tree: no number of 64 bits is above it, so a size is not held against it, but a count that grows is.
pub const LARGEST_SIZE: u64 = u64::MAX;

// The most nodes of an inclusion path at that size; a consistency path has at most one more.
pub const MOST_NODES: usize = 64;

// The most leaf hashes that one lent buffer may join.
pub(crate) const MOST_LEAVES: u64 = 4294967296;
