// The lines of standard input, each as soon as it is there.
use crate::cut::{left, part, seek};
use std::io;
use std::io::Read;

// Room for a line, and for what was read behind it.
pub(crate) const TEXT: usize = 262144;

pub(crate) type Text = [u8; TEXT];

// What was read and is not answered yet lies in the text from `from` up to `have`. Where `whole` is true it starts with a line, whose line feed is at
// `to`; else there is no line feed before `to`. A line is `lost` where it is too long for the text, or where the input `ended` in it.
#[derive(Clone, Copy)]
pub(crate) struct Input {
    pub(crate) from: usize,
    pub(crate) to: usize,
    pub(crate) have: usize,
    pub(crate) whole: bool,
    pub(crate) lost: bool,
    pub(crate) ended: bool,
}

// Before the first line.
pub(crate) fn start() -> Input {
    Input {
        from: 0,
        to: 0,
        have: 0,
        whole: false,
        lost: false,
        ended: false,
    }
}

// The bytes of a whole line, without its line feed; none where it is lost.
pub(crate) fn line(text: &[u8], p: Input) -> &[u8] {
    if p.lost {
        return &text[..0];
    }
    part(text, p.from, p.to)
}

// Without the line that was answered.
fn rest(p: Input) -> Input {
    let mut r = p;
    if r.whole {
        if r.to < r.have {
            r.to += 1;
        }
        r.from = r.to;
        r.whole = false;
        r.lost = false;
    }
    r
}

// Moves the bytes from `from` up to `to` to the start.
fn shift(text: &mut [u8], from: usize, to: usize) {
    if to > text.len() {
        return;
    }
    let mut i = from;
    while i < to {
        text[i - from] = text[i];
        i += 1;
    }
}

// The same with room for more: what was answered goes; where that is nothing, the line itself is lost.
fn room(text: &mut Text, p: Input) -> Input {
    let mut r = p;
    if r.have < TEXT {
        return r;
    }
    if r.from == 0 {
        r.lost = true;
        r.have = 0;
        return r;
    }
    shift(text, r.from, r.have);
    r.have = left(r.from, r.have);
    r.from = 0;
    r
}

// Reads once into the text after its first `have` bytes, and answers how many it has then.
fn fill(stdin: &mut impl Read, text: &mut [u8], have: usize) -> io::Result<usize> {
    if have > text.len() {
        return Ok(have);
    }
    let got = stdin.read(&mut text[have..])?;
    Ok(have + got)
}

// At the end of the input: what is left of it is a line that was cut off.
fn end(p: Input) -> Input {
    let mut r = p;
    if r.from < r.have {
        r.lost = true;
    }
    r.whole = r.lost;
    r.ended = true;
    r
}

// The line after a line, the first after `start()`, where the text has it whole; else the text gets more of it.
pub(crate) fn next(stdin: &mut impl Read, text: &mut Text, p: Input) -> io::Result<Input> {
    let mut r = rest(p);
    r.to = seek(text, r.to, r.have, b'\n');
    if r.to < r.have {
        r.whole = true;
        return Ok(r);
    }
    r = room(text, r);
    r.to = r.have;
    r.have = fill(stdin, text, r.have)?;
    if r.have == r.to {
        return Ok(end(r));
    }
    Ok(r)
}
