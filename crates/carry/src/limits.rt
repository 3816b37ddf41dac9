// The limits of carrying and comparing.

// The bytes of the two strings of a collision, 65 each: what a pair buffer must hold.
pub const PAIR: usize = 130;
