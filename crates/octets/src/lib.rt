// Byte strings: whether two are the same, copying and writing over a lent buffer, and big-endian numbers of 1 to 8 bytes. Every function takes any bytes and
// any numbers: what does not fit is not written, and what is not there is not read.
//
// equality: whether two are the same    writing: over a buffer    number: big-endian numbers    limits: the longest item
#![tactic(auto)]

mod equality;
pub mod limits;
mod number;
pub mod refusal;
mod writing;

ghost use Rattle.octets.specs.Claims.{SameIsEqual, JoinedIs, PutKeeps, NumberReadsBack, BytesWriteBack, NumbersAreBytes, RefusalsTellApart};

pub use equality::same;
pub use number::{Width, be8, number_at, put_number, width_of};
pub use writing::{copy, put};

// What is proved of them beside their own promises. It does nothing.
pub fn claims()
    ensures same_is_equal { SameIsEqual }
    ensures joined_is { JoinedIs }
    ensures put_keeps { PutKeeps }
    ensures number_reads_back { NumberReadsBack }
    ensures bytes_write_back { BytesWriteBack }
    ensures numbers_are_bytes { NumbersAreBytes }
    ensures refusals_tell_apart { RefusalsTellApart }
{}
