// Log items (RFC 9162, sections 4.4 to 4.12, and our page item): a table over the crate of fields, a reader that answers where each field lies, a writer
// into a lent buffer, and the newer of two signed heads. Nothing is copied by the reader, and nothing judged but lengths and the order of extensions. A path
// that was read is joined as the verdicts take it by `fields::path::path_into`.
//
// table: which fields each type has    reader: a whole item    writer: the same, the other way    heads: the newer of two
#![tactic(auto)]

mod heads;
mod reader;
mod table;
mod writer;

ghost use Rattle.item.specs.Claims.{ReadThenWritten, ReadGives, WrittenThenRead, WriterKeeps, RefusedWithin, FieldsWithin, EmptyIsNeither};
ghost use Rattle.item.specs.Claims.{NamesItsField, PathIsSaid, TakenThenWritten, WrittenThenTaken};
ghost use Rattle.item.specs.Claims.{StillRead, RefusedByOrder, FifteenInList, ReadByOrder, OrderFirst, RefusedAsRead, RefusedIsNeither};

pub use heads::newer;
pub use reader::{Item, ItemRefused, read};
pub use table::{Met, Name};
pub use writer::{Numbers, Vectors, write};

// What is proved of reader, writer and choice beside their own promises, as the second demand asks. It does nothing.
pub fn claims()
    ensures read_then_written { ReadThenWritten }
    ensures read_gives { ReadGives }
    ensures written_then_read { WrittenThenRead }
    ensures writer_keeps { WriterKeeps }
    ensures refused_within { RefusedWithin }
    ensures fields_within { FieldsWithin }
    ensures names_its_field { NamesItsField }
    ensures empty_is_neither { EmptyIsNeither }
    ensures path_is_said { PathIsSaid }
    ensures taken_then_written { TakenThenWritten }
    ensures written_then_taken { WrittenThenTaken }
    ensures still_read { StillRead }
    ensures refused_by_order { RefusedByOrder }
    ensures fifteen_in_list { FifteenInList }
    ensures read_by_order { ReadByOrder }
    ensures order_first { OrderFirst }
    ensures refused_as_read { RefusedAsRead }
    ensures refused_is_neither { RefusedIsNeither }
{}
