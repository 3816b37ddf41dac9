// The newer of two signed heads of one log.
ghost use Rattle.std.specs.Prelude.{◌≡◌};
ghost use Rattle.item.specs.Item.{read_item};
ghost use Rattle.item.specs.Newer.{head_of, which, Returns};
ghost use Rattle.item.specs.Steps.{LogWithin};

use crate::reader::{Item, read};
use fields::layout::Part;
use octets::same;

// What a signed head is compared by: where its log id lies, its timestamp and its size.
#[derive(Clone, Copy)]
pub struct Head {
    pub log: Part,
    pub timestamp: u64,
    pub size: u64,
}

#[derive(Clone, Copy)]
pub enum Choice {
    First,
    Second,
    Neither,
}

fn head_of(s: &[u8]) -> Option<Head>
    ensures { (result ≡ head_of (read_item s.now)) × LogWithin s.now result }
{
    match read(s) {
        Ok(
            Item::SignedHead {
                kind: _,
                log_id,
                timestamp,
                size,
                root_hash: _,
                extensions: _,
                signature: _,
            },
        ) => Some(Head {
            log: log_id,
            timestamp: timestamp.value,
            size: size.value,
        }),
        _ => None,
    }
}

// Larger size, then later timestamp, then the first.
fn choose<'a>(first: &'a [u8], second: &'a [u8]) -> Choice
    ensures { result ≡ which first.now second.now }
{
    let Some(a) = head_of(first) else {
        return Choice::Neither;
    };
    let Some(b) = head_of(second) else {
        return Choice::Neither;
    };
    let one = same(
        &first[a.log.start..a.log.start + a.log.len],
        &second[b.log.start..b.log.start + b.log.len],
    );
    if !one {
        return Choice::Neither;
    }
    if a.size < b.size {
        return Choice::Second;
    }
    if b.size < a.size {
        return Choice::First;
    }
    if a.timestamp < b.timestamp {
        return Choice::Second;
    }
    Choice::First
}

// The newer of two signed heads, that very part of the caller's bytes; the empty part at the start of the first
// where either is not a readable head, or their log ids differ.
pub fn newer<'a>(first: &'a [u8], second: &'a [u8]) -> &'a [u8]
    ensures { Returns (which first.now second.now) first.entry second.entry result }
{
    match choose(first, second) {
        Choice::First => first,
        Choice::Second => second,
        Choice::Neither => &first[..0],
    }
}
