// The longest item, in bytes (document 01, 'Limits'): what the reader of items takes, and what a leaf hash is made of.
pub const MOST_ITEM: usize = 33_554_432;
