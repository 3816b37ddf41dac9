// Fields, the pieces that every format here is made of (RFC 9162, section 1.2; RFC 8446, section 3): big-endian numbers, and vectors with their length in
// front and a range for it. A layout is a list of fields. A format is a table of layouts over this crate: reading and writing over any layout, the places
// of refusals and both round trips are defined and proved here, once. Every function takes any bytes, any place and any range.
//
// layout: the kinds of field, and reading one    reading: all fields of a layout    writing, laying: the same, the other way
// path: a vector of node hashes, joined
#![tactic(auto)]

pub mod laying;
pub mod layout;
pub mod path;
pub mod reading;
pub mod writing;

ghost use Rattle.fields.specs.Claims.{ReadThenFilled, FilledThenRead, VectorByElements, LayoutAgain, LayoutBack, FieldsWithin, RefusedWithin};
ghost use Rattle.fields.specs.Claims.{OneOfJudged, FixedAsIs, CutFirst, ReadInARow, LeftToRight, CutThere, OverThere, RoomLast};
ghost use Rattle.fields.specs.Claims.{FoundBefore, CopiedIsJoined, JoinedIsCopied, CopyKeeps, AnswersLoseNothing};
ghost use Rattle.fields.specs.Extensions.{FineIsExtended, OneList, FifteenIsOutOfOrder, StillRead, RefusedByOrder, FifteenInList};
ghost use Rattle.fields.specs.Extensions.{ReadByOrder, OrderFirst, RefusedAsRead, LayoutRefusedAsRead};

// What is proved of fields and layouts beside the functions' own promises. It does nothing.
pub fn claims()
    ensures read_then_filled { ReadThenFilled }
    ensures filled_then_read { FilledThenRead }
    ensures vector_by_elements { VectorByElements }
    ensures one_of_judged { OneOfJudged }
    ensures fixed_as_is { FixedAsIs }
    ensures cut_first { CutFirst }
    ensures layout_again { LayoutAgain }
    ensures layout_back { LayoutBack }
    ensures read_in_a_row { ReadInARow }
    ensures left_to_right { LeftToRight }
    ensures cut_there { CutThere }
    ensures over_there { OverThere }
    ensures room_last { RoomLast }
    ensures fields_within { FieldsWithin }
    ensures refused_within { RefusedWithin }
    ensures found_before { FoundBefore }
    ensures copied_is_joined { CopiedIsJoined }
    ensures joined_is_copied { JoinedIsCopied }
    ensures copy_keeps { CopyKeeps }
    ensures fine_is_extended { FineIsExtended }
    ensures one_list { OneList }
    ensures fifteen_is_out_of_order { FifteenIsOutOfOrder }
    ensures still_read { StillRead }
    ensures refused_by_order { RefusedByOrder }
    ensures fifteen_in_list { FifteenInList }
    ensures read_by_order { ReadByOrder }
    ensures order_first { OrderFirst }
    ensures refused_as_read { RefusedAsRead }
    ensures layout_refused_as_read { LayoutRefusedAsRead }
    ensures answers_lose_nothing { AnswersLoseNothing }
{}
