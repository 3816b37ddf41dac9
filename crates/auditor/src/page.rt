// Asking for a page.
ghost use Rattle.std.specs.Prelude.{◌≡◌};
ghost use Rattle.hash.specs.Digest.{hash_of};
ghost use Rattle.auditor.specs.Held.{view};
ghost use Rattle.auditor.specs.Page.{page_number, asked};

use crate::{Answered, Record, chosen, unchanged};
use hash::by_number::UNKNOWN;
use hash::{Algorithm, Named};
use tree::verdict::inclusion_verdict;

fn number(alg: Algorithm, r: Record, place: u64, page: &[u8], path: &[u8]) -> u32
    ensures { result ≡ page_number (hash_of alg) (view r) place page.now path.now }
{
    if r.held {
        let leaf = hash::leaf(alg, page);
        if leaf.number != 0 {
            return leaf.number;
        }
        let h = leaf.digest.bytes;
        let root = r.root;
        return inclusion_verdict(alg, &h, place, r.size, &root, path);
    }
    14
}

// Whether a page is at a place of the log, under the head held. 16, before all else: no hash has the number, or the record holds another. Then 14, 1, the
// inclusion verdict. The record is returned as it was.
pub fn ask(algorithm: u64, r: Record, place: u64, page: &[u8], path: &[u8]) -> Answered
    ensures { result ≡ asked algorithm r place page.now path.now }
{
    let named = chosen(r, algorithm);
    match named {
        Named::By(alg) => unchanged(number(alg, r, place, page, path), r),
        Named::Unknown => unchanged(UNKNOWN, r),
    }
}
