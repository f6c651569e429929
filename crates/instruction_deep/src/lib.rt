// Walks the row of an instruction, the rows of its operands and its words, which anybody may have written: the general way.
#![tactic(auto)]

ghost use Rattle.std.specs.Prelude.{◌≡◌, [], suc, ◌+◌, ◌-◌, ◌*◌, ◌^◌, ◌<◌, ◌≤◌, cond, ◌&&◌, ◌||◌, length, get_or, drop, eqb, ltb, Decides};
ghost use Rattle.format.specs.Framing as fr;
ghost use Rattle.format.specs.Counts as ct;
ghost use Rattle.format.specs.Declarations as dc;
ghost use Rattle.format.specs.Encoder as e;
ghost use Rattle.layouts.specs.Shapes.{Sound, Laid, kind_number, items_of};
ghost use Rattle.instruction_fields.specs.Fields.{rest, fields_in};
ghost use Rattle.instruction_deep.specs.Confirm as c;
ghost use Rattle.instruction_deep.specs.Walks.{rows_in, words_in, walked_instruction, Takes, PassesIn, Runs, Counts, Unchained, Chained, Headed, Fielded, Sized, Pieces, Placed, Bare};

mod standing;

use framing::{long, sized};
use instruction_fields::{Fields, exact_class, exact_token, fields_of, past_dwords};
use layouts::{Kind, Shape, counted_layout, in_bounds, operand_count, uncounted_layout};
pub use standing::Pools;

// The operand rows and the dwords of an instruction.
#[derive(Clone, Copy, Drop)]
pub struct Walked {
    pub rows: usize,
    pub dwords: usize,
}

// The row and the word behind some items, and their dwords.
#[derive(Clone, Copy, Drop)]
pub struct Parts {
    pub row: usize,
    pub word: usize,
    pub dwords: usize,
}

// Walks so many operands, one after the other.
pub fn operands_of(pools: &Pools, count: u32) -> Option<Parts>
    ensures { Runs count pools.now.operands.now pools.now.words.now pools.now.row pools.now.word result }
{
    let mut past = Parts {
        row: pools.row,
        word: pools.word,
        dwords: 0,
    };
    for _ in 0..count {
        let walked = operand_walk::walk(pools.operands, pools.words, past.row, past.word, 64)?;
        past.row += walked.rows;
        past.word += walked.words;
        past.dwords += walked.dwords;
    }
    Some(past)
}

// Past the items behind the operands.
#[tactic(auto, using(crate::proofs::Passing::rest_passes))]
pub fn past_rest(words: &[u32], at: usize, s: Shape, model51: bool) -> Option<usize>
    requires { (at ≤ length words.now) × Sound s }
    ensures { PassesIn model51 (rest s) words.now at result }
{
    instruction_fields::past_rest(words, at, s, model51)
}

// Walks the items of a shape.
fn parts_of(pools: &Pools, s: Shape, model51: bool) -> Option<Parts>
    requires { Sound s }
    ensures { Takes model51 (items_of s) s.operands pools.now.operands.now pools.now.words.now pools.now.row pools.now.word result }
{
    let a = past_dwords(pools.words, pools.word, s.before)?;
    let behind = Pools {
        operands: pools.operands,
        row: pools.row,
        words: pools.words,
        word: a,
    };
    let past = operands_of(&behind, s.operands)?;
    let end = past_rest(pools.words, past.word, s, model51)?;
    Some(Parts {
        row: past.row,
        word: end,
        dwords: a - pools.word + past.dwords + (end - past.word),
    })
}

// The layout of a code.
fn shape_of(code: u32) -> Shape
    ensures { Laid code result }
{
    match operand_count(code) {
        Some(n) => counted_layout(code, n),
        None => uncounted_layout(code),
    }
}

// Whether a row's length is in the dword after the token.
fn sized_row(code: u32, bits: u32) -> bool
    ensures { result ≡ (eqb code 53 || (eqb code 145 || eqb code 146) && ltb 0 bits) }
{
    code == 53 || (code == 145 || code == 146) && 0 < bits
}

// The length in the token of a row of n dwords.
fn own_length(sized: bool, n: u32) -> u32
    ensures { result ≡ cond sized 0 n }
{
    if sized { 0 } else { n }
}

// Makes a token from its code and its fields. It is no dword where the numbers are too large.
fn pack(code: u32, f: Fields) -> u64
    ensures { result ≡ ct.token_with code (fields_in f) }
{
    let low = u64::from(code) + u64::from(f.field) * 0x800 + u64::from(f.saturate) * 0x2000;
    let mid = low + u64::from(f.test) * 0x4_0000 + u64::from(f.precise) * 0x8_0000;
    mid + u64::from(f.length) * 0x100_0000 + u64::from(f.extended) * 0x8000_0000
}

// Makes the token that a row tells.
#[tactic(auto, using(crate::proofs::Tokens::token_at))]
fn token_of(instruction: &[u32; 16]) -> u64
    ensures { result ≡ e.token_of_row instruction.now }
{
    let code = instruction[2];
    let bits = instruction[8];
    pack(
        code,
        Fields {
            field: instruction[7],
            saturate: instruction[4],
            test: instruction[5],
            precise: instruction[6],
            length: own_length(sized_row(code, bits), instruction[1]),
            extended: u32::from(0 < bits),
        },
    )
}

// Whether a chain's first word is told by its row: 12 bits, or 0 where it is not there.
fn first_fits(there: u32, x: u32) -> bool
    ensures { result ≡ ltb x (cond (eqb there 0) 1 4096) }
{
    x < if there == 0 { 1 } else { 4096 }
}

// Whether a chain's word of another type is told by its row: 31 bits of that type, or 0 where it is not there.
fn other_fits(there: u32, kind: u32, x: u32) -> bool
    ensures { result ≡ cond (eqb there 0) (eqb x 0) (ltb x 2147483648 && eqb (ct.extension_type x) kind) }
{
    if there == 0 {
        x == 0
    } else {
        x < 0x8000_0000 && x % 64 == kind
    }
}

// How many dwords the chain has that words 8 to 11 of a row tell, after a token that says whether there is one.
#[tactic(auto, using(crate::proofs::Chains::other_bit, crate::proofs::Chains::too_many, crate::proofs::Chains::not_first, crate::proofs::Chains::not_second, crate::proofs::Chains::not_third, crate::proofs::Chains::all_fit))]
#[cold]
pub fn chained(there: bool, n: u32, u: u32, a: u32, b: u32) -> Option<usize>
    ensures { Counts (Chained there n u a b) (length (e.chain_of n u a b)) result }
{
    if there != (0 < n) {
        return None;
    }
    if 8 <= n {
        return None;
    }
    if !first_fits(n % 2, u) {
        return None;
    }
    if !other_fits(n / 2 % 2, 2, a) {
        return None;
    }
    if !other_fits(n / 4, 3, b) {
        return None;
    }
    Some((n % 2 + n / 2 % 2 + n / 4) as usize)
}

// Whether a row tells of no chain, with these extension bits.
fn unchained(instruction: &[u32; 16], bits: u32) -> bool
    ensures { Decides result (Unchained instruction.now bits) }
{
    instruction[8] == bits && instruction[9] == 0 && instruction[10] == 0 && instruction[11] == 0
}

// The extension bits of a token whose length is in the next dword.
fn long_bits(t: u32) -> u32
    ensures { result ≡ cond (fr.long t) 8 0 }
{
    if long(t) { 8 } else { 0 }
}

// How many dwords stand after the token t, as words 8 to 11 of its row say.
fn head(instruction: &[u32; 16], kind: Kind, t: u32) -> Option<usize>
    requires { (e.at 2 instruction.now ≡ fr.code t) × (kind_number kind ≡ (dc.layout (fr.code t)).kind) }
    ensures { Counts (Headed instruction.now (dc.layout (fr.code t)) t (e.head_of_row instruction.now)) (length (e.head_of_row instruction.now)) result }
{
    if sized(t) {
        return unchained(instruction, long_bits(t)).then_some(1);
    }
    if kind.has_chain() {
        return chained(
            t / 0x8000_0000 % 2 == 1,
            instruction[8],
            instruction[9],
            instruction[10],
            instruction[11],
        );
    }
    unchained(instruction, 0).then_some(0)
}

// Whether words 4 to 7 of a row are these fields.
fn same_fields(instruction: &[u32; 16], f: Fields) -> bool
    ensures { Decides result (Fielded instruction.now (fields_in f)) }
{
    instruction[4] == f.saturate
        && instruction[5] == f.test
        && instruction[6] == f.precise
        && instruction[7] == f.field
}

// Whether a row's length is that of its dwords, and the token's, where it is not in the next dword.
fn same_length(n: u32, t: u32, dwords: usize) -> bool
    ensures { Decides result (Sized n t dwords) }
{
    n as usize == dwords && (sized(t) || (t / 0x100_0000 % 128) as usize == dwords)
}

// Whether a row of a shape tells a token, and what stands after it, that are exact before so many dwords of parts.
fn pieces(instruction: &[u32; 16], s: Shape, dwords: usize) -> bool
    requires { Laid (e.at 2 instruction.now) s × (dwords < 2 ^ 63) }
    ensures { Decides result (Pieces instruction.now dwords) }
{
    let Ok(t) = u32::try_from(token_of(instruction)) else {
        return false;
    };
    if t % 2048 != instruction[2] {
        return false;
    }
    let f = fields_of(s, t);
    if !exact_token(t, f) {
        return false;
    }
    if !in_bounds(s, t) {
        return false;
    }
    if !exact_class(s.kind, t, dwords) {
        return false;
    }
    if !same_fields(instruction, f) {
        return false;
    }
    let Some(k) = head(instruction, s.kind, t) else {
        return false;
    };
    same_length(instruction[1], t, 1 + k + dwords)
}

// Whether a row tells this place, kind, first operand row, number of operands, first word and number of words.
pub fn placed(
    instruction: &[u32; 16],
    place: usize,
    kind: u32,
    row: usize,
    operands: u32,
    word: usize,
    words: usize,
) -> bool
    ensures { Decides result (Placed instruction.now place kind row operands word words) }
{
    instruction[0] as usize == place
        && instruction[3] == kind
        && instruction[12] as usize == row
        && instruction[13] == operands
        && instruction[14] as usize == word
        && instruction[15] as usize == words
}

// Walks an instruction of a known code.
pub fn known(instruction: &[u32; 16], place: usize, model51: bool, pools: &Pools) -> Option<Walked>
    ensures { result ≡ walked_instruction (c.confirm_known model51 instruction.now place (rows_in pools.now) (words_in pools.now) pools.now.row pools.now.word) }
{
    let s = shape_of(instruction[2]);
    let past = parts_of(pools, s, model51)?;
    let kind = s.kind.number();
    let n = past.word - pools.word;
    if !placed(
        instruction,
        place,
        kind,
        pools.row,
        s.operands,
        pools.word,
        n,
    ) {
        return None;
    }
    if !pieces(instruction, s, past.dwords) {
        return None;
    }
    Some(Walked {
        rows: past.row - pools.row,
        dwords: instruction[1] as usize,
    })
}

// The length of the instruction whose dwords are the words from a word on, as they tell it.
fn own_size(words: &[u32], word: usize) -> usize
    requires { word < length words.now }
    ensures { result ≡ fr.length_of (get_or words.now word 0) (drop (suc word) words.now) }
{
    let t = words[word];
    if !sized(t) {
        return (t / 0x100_0000 % 128) as usize;
    }
    if words.len() <= word + 1 {
        return 0;
    }
    words[word + 1] as usize
}

// Whether a row tells this number of dwords and this code, and no field or extension.
fn bare(instruction: &[u32; 16], dwords: usize, code: u32) -> bool
    ensures { Decides result (Bare instruction.now dwords code) }
{
    let none = Fields {
        field: 0,
        saturate: 0,
        test: 0,
        precise: 0,
        length: 0,
        extended: 0,
    };
    instruction[1] as usize == dwords
        && instruction[2] == code
        && same_fields(instruction, none)
        && unchained(instruction, 0)
}

// Walks an instruction that is unread: its words are its dwords.
#[tactic(auto, using(crate::proofs::Ways::no_words, crate::proofs::Ways::other_length, crate::proofs::Ways::not_bare, crate::proofs::Ways::misplaced_unread, crate::proofs::Ways::walks_unread))]
pub fn unread(instruction: &[u32; 16], place: usize, pools: &Pools) -> Option<Walked>
    ensures { result ≡ walked_instruction (c.confirm_unread instruction.now place [] (words_in pools.now) pools.now.row pools.now.word) }
{
    let n = pools.words.len() - pools.word;
    if n == 0 {
        return None;
    }
    if own_size(pools.words, pools.word) != n {
        return None;
    }
    let code = pools.words[pools.word] % 2048;
    if !bare(instruction, n, code) {
        return None;
    }
    if !placed(instruction, place, 0, pools.row, 0, pools.word, n) {
        return None;
    }
    Some(Walked { rows: 0, dwords: n })
}
