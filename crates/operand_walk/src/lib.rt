// Walks operand rows and words that anybody may have written, most of them a short way: whether they are those of an operand.
// Where a short way answers None, nothing is said: the rows may be an operand's all the same. Only `walk` answers for all.
#![tactic(auto)]

ghost use Rattle.std.specs.Prelude.{◌≡◌, ◌+◌, ◌-◌, ◌*◌, ◌/◌, ◌^◌, ◌<◌, ◌≤◌, true, [], ◌∷◌, length, drop, ◌≢◌, slice_index, IfSome};
ghost use Rattle.format.specs.Encoder as e;
ghost use Rattle.operand_deep.specs.Confirm as c;
ghost use Rattle.operand_deep.specs.Walks as d;
ghost use Rattle.operand_walk.specs.Walks as w;

use operand_deep::{Walked, deep, pair};

// What some operands have beside a row and a dword each and their words: rows, and dwords.
#[derive(Clone, Copy)]
pub struct Ran {
    pub rows: usize,
    pub dwords: usize,
}

// How many operands are passed, and the word behind theirs.
#[derive(Clone, Copy)]
struct Passed {
    count: usize,
    word: usize,
}

// Counts the selections that a form has: none if it is no form. Each form has a line of its own, which makes a table of them.
fn selections(form: u32) -> u64
    ensures { result ≡ slice_index (1 ∷ 1 ∷ 16 ∷ 256 ∷ 4 ∷ []) form }
{
    match form {
        0 => 1,
        1 => 1,
        2 => 16,
        3 => 256,
        4 => 4,
        _ => 0,
    }
}

// Counts the immediates of a form that has some.
fn immediates(form: u32) -> u32
    requires { (0 < form) × (form < 5) }
    ensures value { result ≡ slice_index (0 ∷ 1 ∷ 4 ∷ 4 ∷ 4 ∷ []) form }
    ensures small { result < 5 }
{
    if form == 1 { 1 } else { 4 }
}

// Counts the extension of some modifiers.
#[tactic(auto, using(crate::proofs::Alone::no_signs, crate::proofs::Alone::some_signs))]
fn extended(m: u32) -> u32
    ensures value { result ≡ length (e.extension_of m) }
    ensures small { result < 2 }
{
    u32::from(m != 0)
}

// Tells whether a row is its operand's only one, with no row for a second or third index.
fn common(row: &[u32; 16]) -> bool
    ensures { result ≡ true → w.Common row.now }
{
    row[14] == 1 && pair(row[12], row[13]) == 0
}

// Tells whether a type is a dword's, and not one of immediates, 4 and 5. That is one comparison: with bit 2 turned those two
// become 0 and 1.
fn indexed(t: u32) -> bool
    ensures { result ≡ true → (t < 2 ^ 8) × (t / 2 ≢ 2) }
{
    (t ^ 4).wrapping_sub(2) < 254
}

// Tells the same of a type as `indexed`, of the first ones at once: most are among them.
fn typed(t: u32) -> bool
    ensures { result ≡ true → (t < 2 ^ 8) × (t / 2 ≢ 2) }
{
    t < 4 || indexed(t)
}

// Tells whether a row has an index of one dword at a word, and no immediates. A word that is no dword could be made by two
// neighbours, so nothing is told of it.
fn one_index(row: &[u32; 16], word: usize) -> bool
    ensures { result ≡ true → word < 2 ^ 32 → w.OneIndex row.now word }
{
    pair(row[6], row[7]) == 1
        && pair(row[10], row[11]) == 0
        && pair(row[4], row[5]) == 0
        && pair(row[8], row[9]) == word as u64
}

// Tells whether a row has an index of one dword at a word, no modifiers and no immediates.
#[tactic(auto, using(crate::proofs::Alone::bare_row))]
fn bare(row: &[u32; 16], word: usize) -> bool
    requires { w.Common row.now }
    ensures { result ≡ true → word < 2 ^ 32 → w.Stands row.now word 1 0 }
{
    row[15] == 2
        && one_index(row, word)
        && pair(row[2], row[3]) < selections(row[1])
        && typed(row[0])
}

// Tells whether a row has an index of one dword at a word, modifiers and no immediates.
fn signed(row: &[u32; 16], word: usize) -> bool
    requires { w.Common row.now }
    ensures { result ≡ true → word < 2 ^ 32 → w.Stands row.now word 1 1 }
{
    row[15] == 3
        && one_index(row, word)
        && row[3] != 0
        && row[3] < 4
        && u64::from(row[2]) < selections(row[1])
        && typed(row[0])
}

// Tells whether a row of d indices, two or three, has no operand in the first and a dword at a word in the third, if there is
// one.
fn third_index(row: &[u32; 16], word: usize, d: u32) -> bool
    requires { w.TwoOrThree d }
    ensures { result ≡ true → w.ThirdIndex row.now word d }
{
    if d == 2 {
        pair(row[10], row[11]) == 0
    } else {
        row[11] == 0 && row[10] as usize == word
    }
}

// Tells whether a row has d indices of one dword each from a word on, two or three, no modifiers and no immediates.
fn several(row: &[u32; 16], word: usize, d: u32) -> bool
    requires { w.Common row.now × w.TwoOrThree d × (word < 2 ^ 34) }
    ensures { result ≡ true → w.Stands row.now word d 0 }
{
    row[15] == 1 + d
        && third_index(row, word + 2, d)
        && pair(row[6], row[7]) == u64::from(d)
        && pair(row[4], row[5]) == 0
        && row[8] as usize == word
        && row[9] as usize == word + 1
        && pair(row[2], row[3]) < selections(row[1])
        && indexed(row[0])
}

// Tells whether a row has no indices, and no words for them.
fn no_indices(row: &[u32; 16]) -> bool
    ensures { result ≡ true → w.NoIndices row.now }
{
    pair(row[6], row[7]) == 0 && pair(row[8], row[9]) == 0 && pair(row[10], row[11]) == 0
}

// Tells whether a row has m immediates at a word, 1 or 4, of the type and form that most have, and no modifiers.
fn constant(row: &[u32; 16], word: usize, m: u32) -> bool
    requires { w.Common row.now × w.OneOrFour m }
    ensures { result ≡ true → w.Stands row.now word m 0 }
{
    no_indices(row)
        && pair(row[2], row[3]) == 0
        && row[5] == m
        && row[4] as usize == word
        && row[1] == m / 4 + 1
        && row[0] == 4
        && row[15] == 1 + m
}

// Counts the words of an operand as most are: in a row of its own, with one to three indices of a dword each from a word on or
// with immediates there, and no modifiers.
fn usual(row: &[u32; 16], word: usize) -> Option<usize>
    requires { word < 2 ^ 34 }
    ensures stands { IfSome result (λ n. word < 2 ^ 32 → w.Stands row.now word n 0) }
    ensures few { IfSome result (λ n. n ≤ 4) }
{
    if !common(row) {
        return None;
    }
    if bare(row, word) {
        return Some(1);
    }
    if several(row, word, 2) {
        return Some(2);
    }
    if several(row, word, 3) {
        return Some(3);
    }
    if constant(row, word, 1) {
        return Some(1);
    }
    if constant(row, word, 4) {
        return Some(4);
    }
    None
}

// Counts the words of an operand with immediates at a word.
#[tactic(auto, using(crate::proofs::Alone::leaf_row))]
fn leaf_words(row: &[u32; 16], word: usize) -> Option<usize>
    requires { w.Plain row.now × (e.at 0 row.now / 2 ≡ 2) }
    ensures { IfSome result (λ n. w.Lone row.now word n) }
{
    if !no_indices(row) || row[4] as usize != word || row[1] == 0 {
        return None;
    }
    let m = immediates(row[1]);
    if row[5] != m || row[15] != 1 + m + extended(row[3]) {
        return None;
    }
    Some(m as usize)
}

// Counts the words of an operand with two or three indices of a dword each, the first of which is at a word. Those with one
// have gone another way.
#[tactic(auto, using(crate::proofs::Alone::several_lone))]
fn index_words(row: &[u32; 16], word: usize) -> Option<usize>
    requires { w.Plain row.now × w.Starts row.now word }
    ensures { IfSome result (λ n. w.Lone row.now word n) }
{
    let d = row[6];
    if d / 2 != 1 {
        return None;
    }
    if row[7] != 0 || row[9] as usize != word + 1 || !third_index(row, word + 2, d) {
        return None;
    }
    if row[15] != 1 + d + extended(row[3]) {
        return None;
    }
    Some(d as usize)
}

// Tells that an operand has no words: it has no indices and no immediates.
fn no_words(row: &[u32; 16], word: usize) -> Option<usize>
    requires { w.Plain row.now × w.Kind row.now }
    ensures { IfSome result (λ n. w.Lone row.now word n) }
{
    if no_indices(row) && row[15] == 1 + extended(row[3]) {
        return Some(0);
    }
    None
}

// Counts the words of an operand that stands alone: with immediates, or with none, two or three indices of a dword each, from a
// word on.
fn lone(row: &[u32; 16], word: usize) -> Option<usize>
    requires { w.Common row.now }
    ensures { IfSome result (λ n. w.Lone row.now word n) }
{
    if selections(row[1]) <= u64::from(row[2]) || 3 < row[3] {
        return None;
    }
    if row[0] / 2 == 2 {
        return leaf_words(row, word);
    }
    if pair(row[4], row[5]) != 0 || 256 <= row[0] {
        return None;
    }
    if row[6] == 0 {
        return no_words(row, word);
    }
    if row[8] as usize != word {
        return None;
    }
    index_words(row, word)
}

// Counts the dwords before the operand of an index, 0 or 1, by the representation, which is so many times a unit, and the word
// that a row tells for it.
fn before_operand(reprs: u32, unit: u32, x: u32, place: usize) -> Option<u32>
    requires { unit ≤ 64 }
    ensures few { IfSome result (λ o. o < 2) }
    ensures before { IfSome result (λ o. w.Before reprs unit x place o) }
{
    if reprs == 3 * unit && x as usize == place {
        return Some(1);
    }
    if reprs == 2 * unit && x == 0 {
        return Some(0);
    }
    None
}

// Counts the dwords before the operand in the only index of row r, which is at a word, if that operand stands in the next row.
#[tactic(auto, using(crate::specs::Walks::first))]
fn in_first(row: &[u32; 16], r: usize, word: usize) -> Option<u32>
    requires { (r < 2 ^ 62) × (e.at 6 row.now ≡ 1) }
    ensures few { IfSome result (λ o. o < 2) }
    ensures places { IfSome result (λ o. w.Places row.now r word o 1) }
{
    if pair(row[9], row[10]) != 0 || pair(row[12], row[13]) != 0 || row[11] as usize != r + 1 {
        return None;
    }
    before_operand(row[7], 1, row[8], word)
}

// The same of the second of two, if the first is a dword.
#[tactic(auto, using(crate::specs::Walks::second))]
fn in_second(row: &[u32; 16], r: usize, word: usize) -> Option<u32>
    requires { (r < 2 ^ 62) × (e.at 6 row.now ≡ 2) }
    ensures few { IfSome result (λ o. o < 2) }
    ensures places { IfSome result (λ o. w.Places row.now r word o 2) }
{
    if pair(row[10], row[11]) != 0 || row[13] != 0 || row[12] as usize != r + 1 {
        return None;
    }
    if row[8] as usize != word {
        return None;
    }
    before_operand(row[7], 8, row[9], word + 1)
}

// The same of the third of three, if the others are dwords.
#[tactic(auto, using(crate::specs::Walks::third))]
fn in_third(row: &[u32; 16], r: usize, word: usize) -> Option<u32>
    requires { (r < 2 ^ 62) × (e.at 6 row.now ≡ 3) }
    ensures few { IfSome result (λ o. o < 2) }
    ensures places { IfSome result (λ o. w.Places row.now r word o 3) }
{
    if pair(row[11], row[12]) != 0 || row[13] as usize != r + 1 {
        return None;
    }
    if row[8] as usize != word || row[9] as usize != word + 1 {
        return None;
    }
    before_operand(row[7], 64, row[10], word + 2)
}

// The same of the last of a row's indices.
fn in_last(row: &[u32; 16], r: usize, word: usize) -> Option<u32>
    requires { r < 2 ^ 62 }
    ensures few { IfSome result (λ o. o < 2) }
    ensures places { IfSome result (λ o. w.Places row.now r word o (e.at 6 row.now)) }
{
    match row[6] {
        1 => in_first(row, r, word),
        2 => in_second(row, r, word),
        3 => in_third(row, r, word),
        _ => None,
    }
}

// Tells whether a row with indices is the first of two, and has so many dwords beside its extension.
fn leading(row: &[u32; 16], dwords: u32) -> bool
    requires { dwords < 16 }
    ensures { result ≡ true → w.Leading row.now dwords }
{
    row[14] == 2
        && u64::from(row[2]) < selections(row[1])
        && row[3] < 4
        && pair(row[4], row[5]) == 0
        && row[15] == dwords + extended(row[3])
        && indexed(row[0])
}

// Counts the words of an operand of two rows, the first of which is row r. Its last index is the operand of the second row, which
// has one word and no extension, or a dword and that; the others are dwords.
fn pointed(row: &[u32; 16], child: &[u32; 16], r: usize, word: usize) -> Option<usize>
    requires { (r < 2 ^ 62) × (word < 2 ^ 34) }
    ensures pointed { IfSome result (λ n. word + n ≤ 2 ^ 32 → w.Pointed row.now child.now r word n) }
    ensures few { IfSome result (λ n. n ≤ 4) }
{
    let n = row[6] + in_last(row, r, word)?;
    if !leading(row, n + 2) || !common(child) {
        return None;
    }
    let n = n as usize;
    if !bare(child, word + n - 1) {
        return None;
    }
    Some(n)
}

// Counts the words of an operand in a row of its own. What most have that come here is asked first.
fn single(row: &[u32; 16], word: usize) -> Option<usize>
    requires { w.Common row.now }
    ensures lone { IfSome result (λ n. word < 2 ^ 32 → w.Lone row.now word n) }
    ensures few { IfSome result (λ n. n ≤ 4) }
{
    if signed(row, word) || bare(row, word) {
        return Some(1);
    }
    lone(row, word)
}

// Walks operands of one row or two each, one after the other, whose words are before an end.
fn mixed(operands: &[u32], row: usize, word: usize, count: usize, end: usize) -> Option<Ran>
    requires { (count ≤ 16) × (end < 2 ^ 32) × (word < 2 ^ 33) }
    ensures { IfSome result (λ x. w.IsRun operands.now row word count end x) }
{
    let rows = operands.as_chunks::<16>().0;
    let mut r = row;
    let mut w = word;
    let mut ran = Ran { rows: 0, dwords: 0 };
    for _ in 0..count {
        let q = rows.get(r)?;
        if common(q) {
            w += single(q, w)?;
        } else {
            w += pointed(q, rows.get(r + 1)?, r, w)?;
            ran.rows += 1;
            ran.dwords += 1;
            r += 1;
        }
        ran.dwords += extended(q[3]) as usize;
        r += 1;
    }
    if end < w {
        return None;
    }
    Some(ran)
}

// Walks so many operands, one after the other, up to the first that is not as most are.
fn pass_usual(operands: &[u32], row: usize, word: usize, count: usize) -> Passed
    requires { (count ≤ length operands.now / 16 - row) × (count ≤ 16) × (word < 2 ^ 32) }
    ensures { w.IsPassed operands.now row word count result }
{
    let rows = operands.as_chunks::<16>().0;
    let mut w = word;
    for i in 0..count {
        let Some(n) = usual(&rows[row + i], w) else {
            return Passed { count: i, word: w };
        };
        w += n;
    }
    Passed { count, word: w }
}

// Walks so many operands, one after the other, whose words are before an end. The words only grow, so that all of them are
// dwords where the last is. This is inlined, so that its answer is not passed through memory.
#[inline(always)]
pub fn run(operands: &[u32], row: usize, word: usize, count: usize, end: usize) -> Option<Ran>
    requires { (count ≤ length operands.now / 16 - row) × (count ≤ 16) × (end < 2 ^ 32) × (word ≤ end) }
    ensures { IfSome result (λ x. w.IsRun operands.now row word count end x) }
{
    let passed = pass_usual(operands, row, word, count);
    if passed.count < count {
        return mixed(
            operands,
            row + passed.count,
            passed.word,
            count - passed.count,
            end,
        );
    }
    if end < passed.word {
        return None;
    }
    Some(Ran { rows: 0, dwords: 0 })
}

// Walks the operand at a row, with its words from a word on and so many depths left: 64 at depth 0. Most stand alone, or
// have one child that does, and go a short way.
pub fn walk(operands: &[u32], words: &[u32], row: usize, word: usize, left: usize) -> Option<Walked>
    ensures { result ≡ d.walked (c.confirm left (drop (16 * row) operands.now) (drop word words.now) row word) }
{
    let end = words.len();
    if 2 <= left && row < operands.len() / 16 && end < 0x1_0000_0000 && word <= end {
        if let Some(ran) = run(operands, row, word, 1, end) {
            let dwords = operands[16 * row + 15] as usize;
            return Some(Walked {
                rows: 1 + ran.rows,
                words: dwords - 1 - ran.dwords,
                dwords,
            });
        }
    }
    deep(operands, words, row, word, left)
}
