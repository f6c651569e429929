// Writes an instruction that was accepted: its row, the rows of its operands and its words.
#![tactic(auto)]

ghost use Rattle.std.specs.Prelude.{◌≡◌, true, false, cond, ◌++◌, ◌^◌, ◌<◌, ◌≤◌, length, get_or, drop, ltb};
ghost use Rattle.std.proofs.Math.Seq.{slice};
ghost use Rattle.format.specs.Dwords.{got, dwords_of};
ghost use Rattle.std.proofs.Math.Option.{none, some};
ghost use Rattle.format.specs.Counts as ct;
ghost use Rattle.format.specs.Counts.{operand_count};
ghost use Rattle.format.specs.Framing.{code};
ghost use Rattle.format.specs.Declarations.{layout};
ghost use Rattle.format.specs.Instructions as ins;
ghost use Rattle.layouts.specs.Shapes.{Laid, kind_number, meant, items_of};
ghost use Rattle.instruction_write.specs.Writes as w;

use framing::long;
use instruction_fields::{fields_of, head, plain};
use layouts::{
    Kind, Shape, counted_layout, declaration, declared, field_of, operand_count, uncounted_layout,
};
use operand_rows::{Sums, copy, put_row};
use tokens::{chain, dword, dwords, follows};

// Where an instruction begins in its chunk, in bytes, and where the rows of its operands and its words begin in their pools.
#[derive(Clone, Copy, Drop)]
pub struct Place {
    pub offset: u32,
    pub row: u32,
    pub word: u32,
}

// The rows of operands and the words that were written.
#[derive(Drop)]
pub struct Sizes {
    pub rows: usize,
    pub words: usize,
}

// The sixteen numbers of an instruction's row.
#[derive(Drop)]
struct Row {
    offset: u32,
    dwords: u32,
    code: u32,
    kind: u32,
    saturate: u32,
    test: u32,
    precise: u32,
    field: u32,
    extensions: u32,
    offsets: u32,
    second: u32,
    third: u32,
    row: u32,
    operands: u32,
    word: u32,
    words: u32,
}

impl Row {
    fn numbers(self) -> [u32; 16]
        ensures { result ≡ w.listed self }
    {
        [
            self.offset,
            self.dwords,
            self.code,
            self.kind,
            self.saturate,
            self.test,
            self.precise,
            self.field,
            self.extensions,
            self.offsets,
            self.second,
            self.third,
            self.row,
            self.operands,
            self.word,
            self.words,
        ]
    }
}

// The extension of a type, between two places; 0 if there is none.
fn of_type(part: &[u8], from: usize, to: usize, k: u32) -> u32
    requires { (from ≤ to) × (to ≤ length (dwords_of part.now)) }
    ensures { result ≡ ct.of_type k (slice from to (dwords_of part.now)) }
{
    for at in from..to {
        let e = dword(part, at);
        if e % 64 == k {
            return e;
        }
    }
    0
}

// The bit of a type: 1, 2, 4 for types 1, 2, 3.
fn type_bit(k: u32) -> u32
    requires { (0 < k) × (k < 4) }
    ensures { result ≡ w.type_bit k }
{
    1 << (k - 1)
}

// The bits of the types of extensions that rise, between two places.
fn type_bits(part: &[u8], from: usize, to: usize) -> u32
    requires { (from ≤ to) × (to ≤ length (dwords_of part.now)) × (ct.rising 0 (slice from to (dwords_of part.now)) ≡ true) }
    ensures { (result ≡ ct.type_bits (slice from to (dwords_of part.now))) × (result < 8) }
{
    let mut bits = 0;
    for at in from..to {
        bits += type_bit(dword(part, at) % 64);
    }
    bits
}

// Where the extensions end, which counted and opaque instructions alone have.
fn chain_end(kind: Kind, end: usize) -> usize
    ensures { result ≡ cond (ltb (kind_number kind) 3) end 1 }
{
    if kind.has_chain() { end } else { 1 }
}

// 8 for the long form.
fn long_bit(t: u32) -> u32
    ensures { result ≡ w.long_bit t }
{
    if long(t) { 8 } else { 0 }
}

// Writes so many operands from a place on, each into what the ones before it left of each pool.
#[inline(always)]
fn write_operands(
    part: &[u8],
    from: usize,
    count: u32,
    operands: &mut [u32],
    words: &mut [u32],
    row: usize,
    word: usize,
) -> Sums
    requires { w.Room (w.operands_of count (drop from (dwords_of part.now))) (length (dwords_of part.now)) from (length operands.old) (length words.old) row word }
    ensures { w.WroteRun (w.operands_of count (drop from (dwords_of part.now))) row word operands.old words.old result operands.new words.new }
{
    let mut done = Sums {
        rows: 0,
        words: 0,
        dwords: 0,
    };
    for _ in 0..count {
        let x = operand_write::write(
            part,
            from + done.dwords,
            64,
            &mut operands[done.rows * 16..],
            &mut words[done.words..],
            row + done.rows,
            word + done.words,
        );
        done.rows += x.rows;
        done.words += x.words;
        done.dwords += x.dwords;
    }
    done
}

// Writes the parts of an instruction, from a place on to its end: dwords, operands, and all dwords behind them.
#[inline(always)]
fn write_parts(
    part: &[u8],
    at: usize,
    s: Shape,
    model51: bool,
    operands: &mut [u32],
    words: &mut [u32],
    row: usize,
    word: usize,
) -> Sizes
    requires { w.BodyRoom (ins.read_items model51 (items_of s) (drop at (dwords_of part.now))) (length (dwords_of part.now)) at (length operands.old) (length words.old) row word }
    ensures { w.WroteBody (ins.read_items model51 (items_of s) (drop at (dwords_of part.now))) row word operands.old words.old result operands.new words.new }
{
    let before = s.before as usize;
    copy(part, at, before, words);
    let x = write_operands(
        part,
        at + before,
        s.operands,
        operands,
        &mut words[before..],
        row,
        word + before,
    );
    let end = at + before + x.dwords;
    let first = before + x.words;
    let left = dwords(part) - end;
    copy(part, end, left, &mut words[first..]);
    Sizes {
        rows: x.rows,
        words: first + left,
    }
}

// An instruction that is to be written: its dwords, the first of them, and its place.
#[derive(Clone, Copy, Drop)]
struct Source<'a> {
    part: &'a [u8],
    token: u32,
    place: Place,
}

impl<'a> Source<'a> {
    // Its row, with so many operands and words, and without what its token and its extensions tell.
    fn row(self, kind: u32, operands: u32, words: usize) -> Row
        requires { (length (dwords_of self.part.now) < 2 ^ 32) × (words < 2 ^ 32) }
        ensures { result ≡ w.bare self.entry.place (length (dwords_of self.entry.part.now)) (code self.entry.token) kind operands words }
    {
        Row {
            offset: self.place.offset,
            dwords: dwords(self.part) as u32,
            code: self.token % 2048,
            kind,
            saturate: 0,
            test: 0,
            precise: 0,
            field: 0,
            extensions: 0,
            offsets: 0,
            second: 0,
            third: 0,
            row: self.place.row,
            operands,
            word: self.place.word,
            words: words as u32,
        }
    }

    // The row of an instruction of so many operands, whose code is known, and whose chain or length dword ends at a place.
    fn known_row(self, s: Shape, operands: u32, end: usize, words: usize) -> Row
        requires { w.RowReady s (dwords_of self.part.now) end words }
        ensures { w.listed result ≡ w.row_for (meant s) self.entry.token (slice 1 end (dwords_of self.entry.part.now)) self.entry.place.offset (length (dwords_of self.entry.part.now)) self.entry.place.row operands self.entry.place.word words }
    {
        let t = self.token;
        let to = chain_end(s.kind, end);
        let f = fields_of(s, t);
        Row {
            saturate: f.saturate,
            test: f.test,
            precise: f.precise,
            field: f.field,
            extensions: type_bits(self.part, 1, to) + long_bit(t),
            offsets: of_type(self.part, 1, to, 1) / 0x200 % 0x1000,
            second: of_type(self.part, 1, to, 2) % 0x8000_0000,
            third: of_type(self.part, 1, to, 3) % 0x8000_0000,
            ..self.row(s.kind.number(), operands, words)
        }
    }

    // Stores the row of an instruction of n operands by its layout. It stays a function of its own, so that nothing is made ready for it where
    // the token is plain.
    #[cold]
    #[inline(never)]
    fn put_laid(self, n: u32, end: usize, words: usize, instructions: &mut [u32])
        requires { (operand_count (code self.token) ≡ some n) × (16 ≤ length instructions.old) × w.RowReady (w.counted_shape (code self.token) n) (dwords_of self.part.now) end words }
        ensures { instructions.new ≡ w.row_for (meant (w.counted_shape (code self.entry.token) n)) self.entry.token (slice 1 end (dwords_of self.entry.part.now)) self.entry.place.offset (length (dwords_of self.entry.part.now)) self.entry.place.row n self.entry.place.word words ++ drop 16 instructions.old }
    {
        let s = counted_layout(self.token % 2048, n);
        put_row(instructions, self.known_row(s, n, end, words).numbers());
    }

    // Stores the row of an instruction of n operands. Most have a plain token, and their row is soon made. But a plain token of code 190 may
    // have a field.
    #[inline(always)]
    fn put_counted(self, n: u32, end: usize, words: usize, instructions: &mut [u32])
        requires { (operand_count (code self.token) ≡ some n) × (16 ≤ length instructions.old) × w.RowReady (w.counted_shape (code self.token) n) (dwords_of self.part.now) end words × (ins.read_head (meant (w.counted_shape (code self.token) n)) self.token (drop 1 (dwords_of self.part.now)) ≡ got (slice 1 end (dwords_of self.part.now)) (drop end (dwords_of self.part.now))) }
        ensures { instructions.new ≡ w.row_for (meant (w.counted_shape (code self.entry.token) n)) self.entry.token (slice 1 end (dwords_of self.entry.part.now)) self.entry.place.offset (length (dwords_of self.entry.part.now)) self.entry.place.row n self.entry.place.word words ++ drop 16 instructions.old }
    {
        let t = self.token;
        if !plain(t) || t % 2048 == 190 {
            self.put_laid(n, end, words, instructions);
            return;
        }
        let row = Row {
            saturate: t / 0x2000 % 2,
            test: t / 0x4_0000 % 2,
            precise: t / 0x8_0000 % 16,
            ..self.row(1, n, words)
        };
        put_row(instructions, row.numbers());
    }

    // The row of an instruction without a count. Most declare and are not in the long form: their row is soon made.
    fn uncounted_row(self, s: Shape, end: usize, words: usize) -> Row
        requires { Laid (code self.token) s × w.RowReady s (dwords_of self.part.now) end words }
        ensures { w.listed result ≡ w.row_for (meant s) self.entry.token (slice 1 end (dwords_of self.entry.part.now)) self.entry.place.offset (length (dwords_of self.entry.part.now)) self.entry.place.row s.operands self.entry.place.word words }
    {
        let t = self.token;
        match s.kind {
            Kind::Declaration if !long(t) => Row {
                field: field_of(s, t),
                ..self.row(4, s.operands, words)
            },
            _ => self.known_row(s, s.operands, end, words),
        }
    }

    // Writes an instruction that is not read: a row, and all its dwords as words. It stays a function of its own, as few go this way.
    #[cold]
    #[inline(never)]
    fn write_unread(self, instructions: &mut [u32], words: &mut [u32]) -> Sizes
        requires { w.UnreadRoom (length (dwords_of self.part.now)) (length instructions.old) (length words.old) }
        ensures { w.Unread (dwords_of self.entry.part.now) (code self.entry.token) self.entry.place.offset self.entry.place.row self.entry.place.word instructions.old words.old result instructions.new words.new }
    {
        let n = dwords(self.part);
        copy(self.part, 0, n, words);
        put_row(instructions, self.row(0, 0, n).numbers());
        Sizes { rows: 0, words: n }
    }

    // Writes the operands of an instruction of n operands, from a place on, and all dwords behind them.
    #[inline(always)]
    fn write_counted_parts(
        self,
        at: usize,
        n: u32,
        operands: &mut [u32],
        words: &mut [u32],
    ) -> Sizes
        requires { w.BodyRoom (ins.read_items false (items_of (w.counted_shape (code self.token) n)) (drop at (dwords_of self.part.now))) (length (dwords_of self.part.now)) at (length operands.old) (length words.old) self.place.row self.place.word }
        ensures { w.WroteBody (ins.read_items false (items_of (w.counted_shape (code self.entry.token) n)) (drop at (dwords_of self.entry.part.now))) self.entry.place.row self.entry.place.word operands.old words.old result operands.new words.new }
    {
        let Place { row, word, .. } = self.place;
        let x = write_operands(
            self.part,
            at,
            n,
            operands,
            &mut words[0..],
            row as usize,
            word as usize,
        );
        let end = at + x.dwords;
        let left = dwords(self.part) - end;
        copy(self.part, end, left, &mut words[x.words..]);
        Sizes {
            rows: x.rows,
            words: x.words + left,
        }
    }

    // Writes an instruction whose code has n operands; in either model it is the same. Most instructions are counted and have a plain token,
    // so their layout is made only where the token is not plain.
    fn write_counted(
        self,
        n: u32,
        instructions: &mut [u32],
        operands: &mut [u32],
        words: &mut [u32],
    ) -> Sizes
        requires { (self.token ≡ get_or (dwords_of self.part.now) 0 0) × (operand_count (code self.token) ≡ some n) × w.Ready (ins.judged (layout (code self.token)) (ins.split false (layout (code self.token)) (dwords_of self.part.now))) (dwords_of self.part.now) (length instructions.old) (length operands.old) (length words.old) self.place.offset self.place.row self.place.word }
        ensures { w.Written (ins.judged (layout (code self.entry.token)) (ins.split false (layout (code self.entry.token)) (dwords_of self.entry.part.now))) self.entry.place.offset self.entry.place.row self.entry.place.word instructions.old operands.old words.old result instructions.new operands.new words.new }
    {
        let end = chain(self.part, 1, follows(self.token)).unwrap();
        let x = self.write_counted_parts(end, n, operands, words);
        self.put_counted(n, end, x.words, instructions);
        x
    }

    // Writes an instruction whose code has no count, by its layout.
    #[inline(always)]
    fn write_laid(
        self,
        s: Shape,
        model51: bool,
        instructions: &mut [u32],
        operands: &mut [u32],
        words: &mut [u32],
    ) -> Sizes
        requires { (self.token ≡ get_or (dwords_of self.part.now) 0 0) × Laid (code self.token) s × w.Ready (ins.judged (layout (code self.token)) (ins.split model51 (layout (code self.token)) (dwords_of self.part.now))) (dwords_of self.part.now) (length instructions.old) (length operands.old) (length words.old) self.place.offset self.place.row self.place.word }
        ensures { w.Written (ins.judged (layout (code self.entry.token)) (ins.split model51 (layout (code self.entry.token)) (dwords_of self.entry.part.now))) self.entry.place.offset self.entry.place.row self.entry.place.word instructions.old operands.old words.old result instructions.new operands.new words.new }
    {
        let end = head(self.part, s, self.token).unwrap();
        let Place { row, word, .. } = self.place;
        let x = write_parts(
            self.part,
            end,
            s,
            model51,
            operands,
            words,
            row as usize,
            word as usize,
        );
        put_row(instructions, self.uncounted_row(s, end, x.words).numbers());
        x
    }

    // Writes an instruction without a count that is no declaration, or one in the long form. It stays a function of its own, as few go this way.
    #[cold]
    #[inline(never)]
    fn write_other(
        self,
        model51: bool,
        instructions: &mut [u32],
        operands: &mut [u32],
        words: &mut [u32],
    ) -> Sizes
        requires { (self.token ≡ get_or (dwords_of self.part.now) 0 0) × (operand_count (code self.token) ≡ none) × w.Ready (ins.judged (layout (code self.token)) (ins.split model51 (layout (code self.token)) (dwords_of self.part.now))) (dwords_of self.part.now) (length instructions.old) (length operands.old) (length words.old) self.place.offset self.place.row self.place.word }
        ensures { w.Written (ins.judged (layout (code self.entry.token)) (ins.split model51 (layout (code self.entry.token)) (dwords_of self.entry.part.now))) self.entry.place.offset self.entry.place.row self.entry.place.word instructions.old operands.old words.old result instructions.new operands.new words.new }
    {
        let s = uncounted_layout(self.token % 2048);
        self.write_laid(s, model51, instructions, operands, words)
    }

    // Writes an instruction whose code has no count. Most declare and are not in the long form: what their layout leaves out is left out here
    // too. It stays a function of its own, so that their layout takes no registers of the counted way.
    #[inline(never)]
    fn write_uncounted(
        self,
        model51: bool,
        instructions: &mut [u32],
        operands: &mut [u32],
        words: &mut [u32],
    ) -> Sizes
        requires { (self.token ≡ get_or (dwords_of self.part.now) 0 0) × (operand_count (code self.token) ≡ none) × w.Ready (ins.judged (layout (code self.token)) (ins.split model51 (layout (code self.token)) (dwords_of self.part.now))) (dwords_of self.part.now) (length instructions.old) (length operands.old) (length words.old) self.place.offset self.place.row self.place.word }
        ensures { w.Written (ins.judged (layout (code self.entry.token)) (ins.split model51 (layout (code self.entry.token)) (dwords_of self.entry.part.now))) self.entry.place.offset self.entry.place.row self.entry.place.word instructions.old operands.old words.old result instructions.new operands.new words.new }
    {
        match declaration(self.token % 2048) {
            Some(d) if !long(self.token) => {
                self.write_laid(declared(d), model51, instructions, operands, words)
            }
            _ => self.write_other(model51, instructions, operands, words),
        }
    }
}

// Writes an instruction that was accepted, to the front of each pool: its own dwords, under a ceiling, in model 5.1 or not.
pub fn write(
    part: &[u8],
    ceiling: u32,
    model51: bool,
    place: Place,
    instructions: &mut [u32],
    operands: &mut [u32],
    words: &mut [u32],
) -> Sizes
    requires { w.Ready (ins.read ceiling model51 (dwords_of part.now)) (dwords_of part.now) (length instructions.old) (length operands.old) (length words.old) place.offset place.row place.word }
    ensures { w.Written (ins.read ceiling model51 (dwords_of part.now)) place.offset place.row place.word instructions.old operands.old words.old result instructions.new operands.new words.new }
{
    let token = dword(part, 0);
    let source = Source { part, token, place };
    let code = token % 2048;
    if ceiling <= code {
        return source.write_unread(instructions, words);
    }
    match operand_count(code) {
        Some(n) => source.write_counted(n, instructions, operands, words),
        None => source.write_uncounted(model51, instructions, operands, words),
    }
}
