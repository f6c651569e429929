// Makes and stores the row of an operand, and copies its words.
#![tactic(auto)]

ghost use Rattle.std.specs.Prelude.{◌≡◌, true, [], ◌∷◌, ◌++◌, ◌+◌, ◌-◌, ◌<◌, ◌≤◌, ◌^◌, length, get_or, drop, take};
ghost use Rattle.format.specs.Dwords.{dwords_of};
ghost use Rattle.format.specs.Operands as op;
ghost use Rattle.format.specs.Rows as rows;
ghost use Rattle.operand_rows.specs.Writes as w;

// The rows and words that were written, and the dwords that were taken.
#[derive(Clone, Copy, Drop)]
pub struct Sums {
    pub rows: usize,
    pub words: usize,
    pub dwords: usize,
}

#[derive(Drop)]
pub struct Row {
    kind: u32,
    form: u32,
    selection: u32,
    modifiers: u32,
    imm: u32,
    imms: u32,
    dimension: u32,
    reprs: u32,
    w0: u32,
    w1: u32,
    w2: u32,
    c0: u32,
    c1: u32,
    c2: u32,
    rows: u32,
    dwords: u32,
}

impl Row {
    // The sixteen numbers of the row.
    pub fn numbers(self) -> [u32; 16]
        ensures { result ≡ w.listed self }
    {
        [
            self.kind,
            self.form,
            self.selection,
            self.modifiers,
            self.imm,
            self.imms,
            self.dimension,
            self.reprs,
            self.w0,
            self.w1,
            self.w2,
            self.c0,
            self.c1,
            self.c2,
            self.rows,
            self.dwords,
        ]
    }
}

// Stores a row at the front of a pool.
pub fn put_row(pool: &mut [u32], row: [u32; 16])
    requires { 16 ≤ length pool.old }
    ensures { pool.new ≡ row ++ drop 16 pool.old }
{
    for (i, x) in row.iter().enumerate() {
        pool[i] = *x;
    }
}

// Copies n dwords of a part, from a place on, to the front of a pool.
pub fn copy(part: &[u8], at: usize, n: usize, words: &mut [u32])
    requires { (at + n ≤ length (dwords_of part.now)) × (n ≤ length words.old) }
    ensures { words.new ≡ take n (drop at (dwords_of part.now)) ++ drop n words.old }
{
    for (i, word) in words[..n].iter_mut().enumerate() {
        *word = tokens::dword(part, at + i);
    }
}

// A place, if it is used.
fn placed(used: bool, p: usize) -> u32
    requires { used ≡ true → p < 2 ^ 32 }
    ensures { result ≡ rows.placed used p }
{
    if used { p as u32 } else { 0 }
}

// The row of an operand with indices; a, b and c are the sums after each of them.
pub fn make_row(
    token: u32,
    modifiers: u32,
    row: usize,
    word: usize,
    a: Sums,
    b: Sums,
    c: Sums,
) -> Row
    requires { w.Fits row word a b c }
    ensures { w.listed result ≡ w.row_for token modifiers word (word + a.words) (word + b.words) (row + 1) (row + a.rows) (row + b.rows) c.rows c.dwords }
{
    let r0 = tokens::repr(0, token);
    let r1 = tokens::repr(1, token);
    let r2 = tokens::repr(2, token);
    Row {
        kind: tokens::type_of(token),
        form: tokens::form(token),
        selection: tokens::selection(token),
        modifiers,
        imm: 0,
        imms: 0,
        dimension: tokens::dimension(token),
        reprs: tokens::reprs(token),
        w0: placed(0 < tokens::own(r0), word),
        w1: placed(0 < tokens::own(r1), word + a.words),
        w2: placed(0 < tokens::own(r2), word + b.words),
        c0: placed(tokens::nests(r0), row + 1),
        c1: placed(tokens::nests(r1), row + a.rows),
        c2: placed(tokens::nests(r2), row + b.rows),
        rows: c.rows as u32,
        dwords: c.dwords as u32,
    }
}

// The row of an operand with no operand in it, and without the numbers of its immediates or indices.
fn lone_row(token: u32, modifiers: u32, dwords: u32) -> Row
    ensures { result ≡ w.lone token modifiers dwords }
{
    Row {
        kind: tokens::type_of(token),
        form: tokens::form(token),
        selection: tokens::selection(token),
        modifiers,
        imm: 0,
        imms: 0,
        dimension: 0,
        reprs: 0,
        w0: 0,
        w1: 0,
        w2: 0,
        c0: 0,
        c1: 0,
        c2: 0,
        rows: 1,
        dwords,
    }
}

// The front of an operand that stands at a place of its part: its dword, the place behind its extensions, and the modifiers that they hold.
#[derive(Drop)]
pub struct Front<'a> {
    pub part: &'a [u8],
    pub at: usize,
    pub token: u32,
    pub body: usize,
    pub modifiers: u32,
}

impl<'a> Front<'a> {
    // Writes an operand of immediates.
    pub fn leaf(&self, ops: &mut [u32], words: &mut [u32], word: usize) -> Sums
        requires { w.Lone (length (dwords_of self.now.part.now)) self.now.at self.now.body (op.immediates self.now.token) (length ops.old) (length words.old) word }
        ensures { w.Stored (dwords_of self.now.part.now) self.now.at self.now.body (op.immediates self.now.token) (w.leaf_row self.now.token self.now.modifiers word (self.now.body - self.now.at + op.immediates self.now.token)) ops.old words.old result ops.new words.new }
    {
        let n = tokens::immediates(self.token);
        let dwords = self.body - self.at + n;
        copy(self.part, self.body, n, words);
        let row = Row {
            imm: placed(0 < n, word),
            imms: n as u32,
            ..lone_row(self.token, self.modifiers, dwords as u32)
        };
        put_row(ops, row.numbers());
        Sums {
            rows: 1,
            words: n,
            dwords,
        }
    }

    // Writes an operand whose indices are one dword each.
    pub fn flat(&self, ops: &mut [u32], words: &mut [u32], word: usize) -> Sums
        requires { w.Lone (length (dwords_of self.now.part.now)) self.now.at self.now.body (op.dimension self.now.token) (length ops.old) (length words.old) word }
        ensures { w.Stored (dwords_of self.now.part.now) self.now.at self.now.body (op.dimension self.now.token) (w.flat_row self.now.token self.now.modifiers word (self.now.body - self.now.at + op.dimension self.now.token)) ops.old words.old result ops.new words.new }
    {
        let dimension = tokens::dimension(self.token);
        let n = dimension as usize;
        let dwords = self.body - self.at + n;
        copy(self.part, self.body, n, words);
        let row = Row {
            dimension,
            w0: placed(0 < n, word),
            w1: placed(1 < n, word + 1),
            w2: placed(2 < n, word + 2),
            ..lone_row(self.token, self.modifiers, dwords as u32)
        };
        put_row(ops, row.numbers());
        Sums {
            rows: 1,
            words: n,
            dwords,
        }
    }
}

// Writes an operand whose dword is exact, with one index of one dword and no extensions.
pub fn single(
    part: &[u8],
    at: usize,
    token: u32,
    ops: &mut [u32],
    words: &mut [u32],
    word: usize,
) -> Sums
    requires { (op.dimension token ≡ 1) × (op.exact_dword token ≡ true) × w.Lone (length (dwords_of part.now)) at (at + 1) (op.dimension token) (length ops.old) (length words.old) word }
    ensures { w.Stored (dwords_of part.now) at (at + 1) (op.dimension token) (w.flat_row token 0 word (at + 1 - at + op.dimension token)) ops.old words.old result ops.new words.new }
{
    words[0] = tokens::dword(part, at + 1);
    let row = Row {
        selection: token / 16 % 256,
        dimension: 1,
        w0: word as u32,
        ..lone_row(token, 0, 2)
    };
    put_row(ops, row.numbers());
    Sums {
        rows: 1,
        words: 1,
        dwords: 2,
    }
}

// Writes the dwords of its own that an index has, behind what is counted.
#[tactic(auto, using(format::proofs::Dwords::length_dwords))]
pub fn own_words(part: &[u8], at: usize, r: u32, words: &mut [u32], before: Sums) -> Sums
    requires { w.OwnRoom (length (dwords_of part.now)) at (op.own r) (length words.old) before }
    ensures { w.Owned (dwords_of part.now) at (op.own r) before words.old result words.new }
{
    let own = tokens::own(r);
    copy(part, at + before.dwords, own, &mut words[before.words..]);
    Sums {
        words: before.words + own,
        dwords: before.dwords + own,
        ..before
    }
}
