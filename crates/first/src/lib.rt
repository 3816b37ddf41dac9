// The first edition: three structures of RFC 6962 (sections 3.2 to 3.5), which members still hold. A table over the crate of fields, a reader that answers
// where each field lies, and a writer into a lent buffer. Extensions and signatures are opaque here: nothing is judged but versions, types and lengths. A leaf
// is hashed whole, from its version on, by `hash::leaf`.
//
// table: which structures there are, and their fields    reader: a whole structure    writer: the same, the other way
#![tactic(auto)]

mod reader;
mod table;
mod writer;

ghost use Rattle.first.specs.Claims.{ReadThenWritten, WrittenThenRead, WriterKeeps, RefusedWithin, FieldsWithin};
ghost use Rattle.first.specs.Claims.{ReadIsEncoded, ReadSays, WrittenIsEncoded, ByHand, CutThere, OverThere};
ghost use Rattle.first.specs.Claims.{LongFirst, NameNext, RoomLast, FourThere, FiveThere, FiveRead, NoFifteen};

pub use reader::{First, read};
pub use table::{MERKLE_TREE_LEAF, RFC_6962, SIGNED_CERTIFICATE_TIMESTAMP, TREE_HEAD};
pub use writer::{Numbers, Vectors, write};

// What is proved of reader and writer beside their own promises, as the second demand asks. It does nothing.
pub fn claims()
    ensures read_then_written { ReadThenWritten }
    ensures written_then_read { WrittenThenRead }
    ensures writer_keeps { WriterKeeps }
    ensures refused_within { RefusedWithin }
    ensures fields_within { FieldsWithin }
    ensures read_is_encoded { ReadIsEncoded }
    ensures read_says { ReadSays }
    ensures written_is_encoded { WrittenIsEncoded }
    ensures by_hand { ByHand }
    ensures cut_there { CutThere }
    ensures over_there { OverThere }
    ensures long_first { LongFirst }
    ensures name_next { NameNext }
    ensures room_last { RoomLast }
    ensures four_there { FourThere }
    ensures five_there { FiveThere }
    ensures five_read { FiveRead }
    ensures no_fifteen { NoFifteen }
{}
