// Words, numbers and hashes on standard output, and what a call answered in words.
use std::io;

pub(crate) fn words(rt: &impl Print, text: &[u8]) -> io::Result<()> {
    rt.write_all(text)
}

// Words, and a number.
pub(crate) fn count(rt: &impl Print, text: &[u8], n: u64) -> io::Result<()> {
    rt.write_all(text)?;
    print!(rt; "{n}")
}

// Words, and the first 8 bytes of a hash.
pub(crate) fn short(rt: &impl Print, text: &[u8], hash: &[u8]) -> io::Result<()> {
    rt.write_all(text)?;
    let n = octets::number_at(hash, 0, octets::Width::Eight);
    print!(rt; "{n:016x}")
}

// What the number of a refusal means. An auditor's answers are here; README.md has all.
fn meaning(rt: &impl Print, n: u32) -> io::Result<()> {
    match n {
        6 => words(rt, b" (a size or place out of range, or a smaller tree)"),
        7 => words(rt, b" (wrong count of nodes)"),
        8 => words(rt, b" (a root disagrees)"),
        11 => words(rt, b" (other log)"),
        12 => words(rt, b" (no later timestamp)"),
        13 => words(rt, b" (same size, other root)"),
        14 => words(rt, b" (no head yet)"),
        _ => words(rt, b" (see README.md)"),
    }
}

// Words, and 0 or the number of a refusal.
pub(crate) fn verdict(rt: &impl Print, text: &[u8], n: u32) -> io::Result<()> {
    words(rt, text)?;
    if n == 0 {
        return words(rt, b"accepted");
    }
    count(rt, b"refused, ", n as u64)?;
    meaning(rt, n)
}

// Ends a line with what a call answered, and says whether that was expected.
pub(crate) fn answer(rt: &impl Print, n: u32, expected: u32) -> io::Result<bool> {
    verdict(rt, b": ", n)?;
    words(rt, b"\n")?;
    if n == expected {
        return Ok(true);
    }
    verdict(rt, b"  UNEXPECTED: the answer should be: ", expected)?;
    words(rt, b"\n")?;
    Ok(false)
}

// Whether what the archive made was not refused.
pub(crate) fn made(rt: &impl Print, n: u32) -> io::Result<bool> {
    if n == 0 {
        return Ok(true);
    }
    verdict(rt, b"  UNEXPECTED: what the archive hands over was ", n)?;
    words(rt, b"\n")?;
    Ok(false)
}
