// The entries: what each is called, takes and answers, and who answers it.
use crate::answers::{Answer, one};
use crate::cut::{part, seek, word};
use crate::request::{Numbers, Request, field, numbers_of};
use crate::{auditing, carrying, growth, hashing, items, trees};

// A line for each entry: its name; a letter for its crate and one for the entry; a letter for each argument (request.rt); a letter for each word of its
// answer (answers.rt).
pub(crate) fn rows() -> [u8; 733] {
    *b"digest ha nb nm\n\
leaf hb nb nm\n\
node hc nhh nm\n\
digest_into hd nbl nl\n\
leaf_into he nbl nl\n\
step hf hbw nmp\n\
sm3_step hg hbw nmp\n\
root ta nbl nnl\n\
path tb nbnl nnl\n\
consistency_path tc nbnl nnl\n\
inclusion td nbnnbb n\n\
consistency te nnnbbb n\n\
inclusion_count tf nn n\n\
subproof_count tg nnf n\n\
grow_page ga nngnb nnmn\n\
grow_leaves gb nngnb nnmn\n\
grow_root gc nngn nm\n\
grow_root_into gd nngnl nnl\n\
grow ge nb nmnpn\n\
grow_new gf n nnmn\n\
carry ca nbnnbbnbbbb nnnmp\n\
compare cb nnnbbbbbl nnl\n\
read ia b nnnnnnnnnnnn\n\
write ib snbbbbbnnnbbnsbl nnnl\n\
newer ic bb m\n\
path_into id bnnl nnnl\n\
first_read ie ssb nnnnnnnnnnnn\n\
first_write if sssnnsbbbbbbl nnnl\n\
offer aa nfninnnhebnnbb nnnmnnnpq\n\
page ab nfninnnhenbb nnnmnnnpq\n\
dispute ac nbnbnbbbbl nnl\n\
append ad lnnbb nnl\n"
}

// The line of the entry that has a name; empty where none has.
pub(crate) fn row<'a>(rows: &'a [u8], name: &[u8]) -> &'a [u8] {
    let mut from = 0;
    let mut left = rows.len();
    while 0 < left {
        let to = seek(rows, from, rows.len(), b'\n');
        let row = part(rows, from, to);
        if word(row, 0) == name {
            return row;
        }
        if to >= rows.len() {
            return &rows[..0];
        }
        from = to + 1;
        left -= 1;
    }
    &rows[..0]
}

// What an entry answers, by its two letters. Each crate's part is given the request's numbers and as many of its strings as its entries take: a, b, c and
// so on, in the order of the words.
pub(crate) fn answer(code: &[u8], r: Request, mem: &[u8], lent: &mut [u8]) -> Answer {
    if code.len() != 2 {
        return one(0);
    }
    let n = numbers_of(r);
    let a = field(r, 0, mem);
    let b = field(r, 1, mem);
    let c = field(r, 2, mem);
    let layer = code[0];
    let entry = code[1];
    match layer {
        b'h' => hashing::answer(entry, n, a, b, c, lent),
        b't' => trees::answer(entry, n, a, b, c, lent),
        b'g' => growth::answer(entry, n, a, b, lent),
        _ => upper(layer, entry, n, a, b, c, r, mem, lent),
    }
}

// The same for the crates whose entries take more than three strings.
fn upper<'a>(
    layer: u8,
    entry: u8,
    n: Numbers,
    a: &'a [u8],
    b: &'a [u8],
    c: &'a [u8],
    r: Request,
    mem: &'a [u8],
    lent: &mut [u8],
) -> Answer {
    let d = field(r, 3, mem);
    let e = field(r, 4, mem);
    let f = field(r, 5, mem);
    let g = field(r, 6, mem);
    match layer {
        b'c' => carrying::answer(entry, n, a, b, c, d, e, f, g, lent),
        b'i' => items::answer(entry, n, a, b, c, d, e, f, g, field(r, 7, mem), lent),
        _ => auditing::answer(entry, n, a, b, c, d, e, f, lent),
    }
}
