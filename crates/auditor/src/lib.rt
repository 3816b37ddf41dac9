// The auditor of one log: a record that is handed in and handed back by value, offers of heads and calls for pages over it, and the dispute about
// two pages that were accepted at one place. No function empties a record, and the dispute takes none.
//
// head: an offer    page: a call for a page    dispute: two pages at one place    heads: heads joined in a buffer    journal: one head more
// bytes: a record's bytes    second: its second place
#![tactic(auto)]

mod bytes;
pub mod dispute;
pub mod head;
mod heads;
pub mod journal;
pub mod page;
mod second;

ghost use Rattle.std.specs.Prelude.{◌≡◌};
ghost use Rattle.octets.specs.Answer.{Faithful};
ghost use Rattle.auditor.specs.Dispute.{settling};
ghost use Rattle.auditor.specs.Journal.{appending};
ghost use Rattle.auditor.specs.Held.{empty_record, stayed, choice};
ghost use Rattle.auditor.specs.Demand.{Demand3, WhateverGiven, TwoAuditors};
ghost use Rattle.auditor.specs.Keeping.{JournalJoins, AppendedReadsBack, LongEnough, AsKept};
ghost use Rattle.auditor.specs.Examples.{Disputed};
ghost use Rattle.auditor.specs.Timestamps.{OneTimestamp, HeldAgain, OnlyStricter};
ghost use Rattle.auditor.specs.Rows.{RowsHold};
ghost use Rattle.auditor.specs.Evidence.{NothingDepends, OneException, LatestRefused, KeptIsEvidence, HonestLeavesNone};
ghost use Rattle.auditor.specs.Claims.{HeldIsAccepted, RefusedAddNothing, SixteenFirst, NeverBack, HonestLog, GrownHeads};

use bytes::{no_id, no_root};
use hash::{Named, algorithm_held, algorithm_of};
use second::no_evidence;

// A head that was refused, with the number of its refusal; nothing, where that number is 0. Its log id is the first `idlen` bytes of `id`.
#[derive(Clone, Copy)]
pub struct Evidence {
    pub number: u32,
    pub id: [u8; 127],
    pub idlen: usize,
    pub timestamp: u64,
    pub size: u64,
    pub root: [u8; 32],
}

// Nothing, where `held` is false; else the head that was accepted last, and the number of the hash that every accepted call went by. Its log id is the
// first `idlen` bytes of `id`. And a second place, on which nothing depends: the latest refused head that is evidence against the log.
#[derive(Clone, Copy)]
pub struct Record {
    pub held: bool,
    pub algorithm: u64,
    pub id: [u8; 127],
    pub idlen: usize,
    pub timestamp: u64,
    pub size: u64,
    pub root: [u8; 32],
    pub evidence: Evidence,
}

// What a call answers: 0 or the number of its refusal, and the record after it.
#[derive(Clone, Copy)]
pub struct Answered {
    pub number: u32,
    pub after: Record,
}

// The record that holds nothing, in both places.
pub fn empty() -> Record
    ensures { result ≡ empty_record }
{
    Record {
        held: false,
        algorithm: 0,
        id: no_id(),
        idlen: 0,
        timestamp: 0,
        size: 0,
        root: no_root(),
        evidence: no_evidence(),
    }
}

// The hash that a call by this number goes by: none where no hash has it, or the record holds another.
pub(crate) fn chosen(r: Record, algorithm: u64) -> Named
    ensures { result ≡ choice r algorithm }
{
    if r.held {
        return algorithm_held(algorithm, r.algorithm);
    }
    algorithm_of(algorithm)
}

// The answer of a call that leaves the record as it was: a refusal that is no evidence, or a page.
pub(crate) fn unchanged(n: u32, r: Record) -> Answered
    ensures { result ≡ stayed n r }
{
    Answered {
        number: n,
        after: r,
    }
}

// What is proved of every list of calls, as the third demand asks. It does nothing.
pub fn claims()
    ensures demand3 { Demand3 }
    ensures as_kept { AsKept }
    ensures journal_joins { JournalJoins }
    ensures appended_reads_back { AppendedReadsBack }
    ensures long_enough { LongEnough }
    ensures whatever_given { WhateverGiven }
    ensures two_auditors { TwoAuditors }
    ensures held_is_accepted { HeldIsAccepted }
    ensures refused_add_nothing { RefusedAddNothing }
    ensures sixteen_first { SixteenFirst }
    ensures never_back { NeverBack }
    ensures one_timestamp { OneTimestamp }
    ensures held_again { HeldAgain }
    ensures only_stricter { OnlyStricter }
    ensures nothing_depends { NothingDepends }
    ensures one_exception { OneException }
    ensures latest_refused { LatestRefused }
    ensures kept_is_evidence { KeptIsEvidence }
    ensures honest_leaves_none { HonestLeavesNone }
    ensures rows_hold { RowsHold }
    ensures disputed { Disputed }
    ensures honest_log { HonestLog }
    ensures grown_heads { GrownHeads }
    ensures settling_loses_nothing { Faithful settling }
    ensures appending_loses_nothing { Faithful appending }
{}
