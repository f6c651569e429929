// What a caller asks of a row: its words, what it shows, its texture offsets. Any numbers may stand in the pools.
#![tactic(auto)]

ghost use Rattle.std.specs.Prelude.{◌≡◌, ◌+◌, ◌*◌, ◌%◌, true, false, length, take, drop, MatchOption};
ghost use Rattle.std.specs.Float.{binary32};
ghost use Rattle.std.specs.Float.Ieee.{of_bits};
ghost use Rattle.format.specs.Counts.{within};
ghost use Rattle.format.specs.Declarations.{one_dword};
ghost use Rattle.format.specs.Calls as calls;
ghost use Rattle.rows.specs.Span.{span, span_start};

use format::{Offsets, Shown};
use std::ops::Range;

// The row of this number; none for a number at or past the count, or a row that isn't inside the pool.
#[tactic(auto, unfolding(format::specs::Calls::reached))]
fn row_of(pool: &[u32], row: u32, count: u32) -> Option<&[u32; 16]>
    ensures { MatchOption result (calls.reached row count pool.now ≡ false) (λ r. (calls.reached row count pool.now ≡ true) × (r.now ≡ take 16 (drop (16 * row) pool.now))) }
{
    if row < count {
        return pool.get(16 * row as usize..)?.first_chunk();
    }
    None
}

// Where the n words from a on are in the word pool, or 0..0 where they aren't all in it.
#[tactic(auto, unfolding(crate::specs::Span::span, crate::specs::Span::span_start))]
fn span_of(words: &[u32], a: u32, n: u32) -> Range<usize>
    ensures start { result.start ≡ span_start a n words.now }
    ensures end { result.end ≡ span_start a n words.now + length (span a n words.now) }
{
    let start = a as usize;
    let end = start + n as usize;
    if end <= words.len() {
        return start..end;
    }
    0..0
}

// Where a row's words are in the word pool; 0..0 for a row number at or past the count, a row outside its pool or a span outside the word
// pool.
#[tactic(auto, using(crate::proofs::Parts::cell_of), unfolding(format::specs::Calls::part_of, format::specs::Calls::part_start, format::specs::Calls::spanned, crate::specs::Span::span, crate::specs::Span::span_start))]
pub fn places_of(instructions: &[u32], words: &[u32], row: u32, count: u32) -> Range<usize>
    ensures start { result.start ≡ calls.part_start row count instructions.now words.now }
    ensures end { result.end ≡ calls.part_start row count instructions.now words.now + length (calls.part_of row count instructions.now words.now) }
{
    match row_of(instructions, row, count) {
        Some(r) => span_of(words, r[14], r[15]),
        None => 0..0,
    }
}

// The part of the word pool that holds a row's words; an empty part where there is none.
#[tactic(auto, using(crate::proofs::Parts::part_inside))]
pub fn words_of<'a>(instructions: &[u32], words: &'a [u32], row: u32, count: u32) -> &'a [u32]
    ensures result_value { result.now ≡ calls.part_of row count instructions.now words.now }
    ensures ref_ptr_value { result.ref_ptr ≡ (words.entry.ref_ptr.0, calls.part_start row count instructions.now words.now * 4 + words.entry.ref_ptr.1) }
{
    let places = places_of(instructions, words, row, count);
    &words[places.start..places.end]
}

// Whether a code's declaration is one dword and no operand.
#[tactic(auto, unfolding(format::specs::Counts::within))]
fn one_dword(code: u32) -> bool
    ensures { result ≡ within code one_dword }
{
    matches!(code, 94 | 104 | 144 | 152 | 153 | 154 | 206)
}

// The bits of infinity: those above them, the sign left out, are a NaN's.
const INFINITY: u32 = 0x7F80_0000;

// The float with the dword's bits; at a NaN's bits some NaN, whose own bits aren't said.
#[tactic(auto, using(crate::proofs::Nans::nan_of, crate::proofs::Nans::no_nan))]
fn factor(x: u32) -> f32
    ensures { result ≡ of_bits binary32 x }
{
    if INFINITY < x % 0x8000_0000 {
        return f32::NAN;
    }
    f32::from_bits(x)
}

// The kind of a declaration.
const DECLARATION: u32 = 4;

// The code of the declaration whose dword is a factor.
const FACTOR_CODE: u32 = 152;

// What an instruction of one word shows.
#[tactic(auto, unfolding(format::specs::Calls::shown_for))]
fn shown_for(kind: u32, code: u32, x: u32) -> Shown
    ensures { result ≡ calls.shown_for kind code x }
{
    if kind != DECLARATION || !one_dword(code) {
        return Shown::Nothing;
    }
    if code == FACTOR_CODE {
        return Shown::Factor(factor(x));
    }
    Shown::Count(x)
}

// What a row shows: a factor, a count, or nothing where its part isn't one dword.
#[tactic(auto, using(crate::proofs::Parts::cell_of), unfolding(format::specs::Calls::shows, format::specs::Calls::shown_in, format::specs::Calls::part_of, format::specs::Calls::spanned))]
pub fn shows(instructions: &[u32], words: &[u32], row: u32, count: u32) -> Shown
    ensures { result ≡ calls.shows row count instructions.now words.now }
{
    match (
        row_of(instructions, row, count),
        words_of(instructions, words, row, count),
    ) {
        (Some(r), [x]) => shown_for(r[3], r[2], *x),
        _ => Shown::Nothing,
    }
}

// The least four bits that stand for a negative number.
const NEGATIVE: u32 = 8;

// The low four bits of n, as a number from -8 to 7.
#[tactic(auto, unfolding(format::specs::Calls::signed))]
fn nibble(n: u32) -> i8
    ensures { result ≡ calls.signed (n % 16) }
{
    let x = n % 16;
    if x < NEGATIVE {
        return x as i8;
    }
    (x as i8) - 16
}

// u, v and w of a row; 0 without extension bit 1, for a row number at or past the count or a row outside its pool.
#[tactic(auto, using(crate::proofs::Parts::cell_of, crate::proofs::Parts::stored), unfolding(format::specs::Calls::offsets, format::specs::Calls::offset))]
pub fn offsets(instructions: &[u32], row: u32, count: u32) -> Offsets
    ensures { result ≡ calls.offsets row count instructions.now }
{
    match row_of(instructions, row, count) {
        Some(r) if r[8] % 2 == 1 => Offsets {
            u: nibble(r[9]),
            v: nibble(r[9] / 16),
            w: nibble(r[9] / 256),
        },
        _ => Offsets { u: 0, v: 0, w: 0 },
    }
}
