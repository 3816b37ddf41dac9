// The journal: heads joined in a lent buffer, in the order in which they were accepted.
ghost use Rattle.std.specs.Prelude.{◌≡◌, ◌+◌, ◌*◌, ◌%◌, ◌≤◌, length};
ghost use Rattle.octets.specs.Bytes.{put as put_bytes};
ghost use Rattle.auditor.specs.Heads.{end, then, joined_heads};
ghost use Rattle.auditor.specs.Journal.{most_count, append_report, journal_after, appending};
ghost use Rattle.auditor.specs.Journal as paper;

use octets::{Width, put, put_number};

// The most nodes that the two bytes of a count hold.
const MOST_COUNT: usize = 65535;

// What a journal answers: how many of its bytes are used after it, or the number of a refusal.
#[derive(Clone, Copy)]
pub enum Appended {
    Used(usize),
    Refused(u32),
}

// Writes a head behind what is used: its size, its root, its count of nodes and the nodes.
fn join(journal: &mut [u8], used: usize, size: u64, root: &[u8], path: &[u8])
    requires { (length root.now ≡ 32)
        × (length path.now ≤ 32 * most_count)
        × (length path.now % 32 ≡ 0)
        × (used + (42 + length path.now) ≤ length journal.old) }
    ensures { journal.new ≡ put_bytes journal.old used (joined_heads (then size root.now path.now end)) }
{
    let n = path.len();
    put_number(journal, used, Width::Eight, size);
    put(journal, used + 8, root);
    put_number(journal, used + 40, Width::Two, (n / 32) as u64);
    put(journal, used + 42, path);
}

// Joins an accepted head on, by the arguments of its offer, in a buffer of which so many bytes are used. Order: 5 for a root not of 32 bytes or a path of
// more nodes than its count can say, 10, and 9 where the head does not fit behind what is used. What `dispute` takes as the heads is the used part.
pub fn append(journal: &mut [u8], used: usize, size: u64, root: &[u8], path: &[u8]) -> Appended
    ensures { let o = paper.append (length journal.old) used size root.now path.now in
        (appending result ≡ append_report used o) × (journal.new ≡ journal_after used o journal.old) }
{
    if root.len() != 32 {
        return Appended::Refused(5);
    }
    if 32 * MOST_COUNT < path.len() {
        return Appended::Refused(5);
    }
    if path.len() % 32 != 0 {
        return Appended::Refused(10);
    }
    let more = 42 + path.len();
    if journal.len() < used {
        return Appended::Refused(9);
    }
    if journal.len() - used < more {
        return Appended::Refused(9);
    }
    join(journal, used, size, root, path);
    Appended::Used(used + more)
}
