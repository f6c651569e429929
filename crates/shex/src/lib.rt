// What a program in another language calls: the reader, the encoder and what it may ask of a row, their answers in numbers.
#![tactic(auto)]

ghost use Rattle.std.specs.Prelude.{◌≡◌};
ghost use Rattle.shex.specs.Numbers.{Read, Wrote, lies, showing, sides};

use format::{Offsets, Shown};

// A reading in numbers: 0 and the version token with the three counts; or a refusal's number and place, and counts of 0.
#[repr(C)]
#[derive(Drop)]
pub struct Reading {
    pub number: u32,
    pub place: u32,
    pub version: u32,
    pub instructions: u32,
    pub operands: u32,
    pub words: u32,
}

// Reads a chunk of a FourCC at an edition, into three lent pools.
pub fn shex_decode(
    chunk: &[u8],
    four: u32,
    edition: u32,
    instructions: &mut [u32],
    operands: &mut [u32],
    words: &mut [u32],
) -> Reading
    ensures { Read edition four chunk.now instructions.old operands.old words.old result instructions.new operands.new words.new }
{
    match decode::decode(chunk, four, edition, instructions, operands, words) {
        Ok(told) => Reading {
            number: 0,
            place: 0,
            version: told.version,
            instructions: told.instructions,
            operands: told.operands,
            words: told.words,
        },
        Err(r) => Reading {
            number: answers::number(r),
            place: answers::place(r),
            version: 0,
            instructions: 0,
            operands: 0,
            words: 0,
        },
    }
}

// A writing in numbers: 0 and the chunk's size in bytes; or a refusal's number and a size of 0.
#[repr(C)]
#[derive(Drop)]
pub struct Writing {
    pub number: u32,
    pub size: u32,
}

// Encodes a version token, so many rows and words at an edition into the output.
pub fn shex_encode(
    edition: u32,
    version: u32,
    instructions: &[u32],
    instruction_count: u32,
    operands: &[u32],
    operand_count: u32,
    words: &[u32],
    word_count: u32,
    output: &mut [u8],
) -> Writing
    ensures { Wrote edition version instruction_count operand_count word_count instructions.now operands.now words.now output.old result output.new }
{
    match encode::encode(
        edition,
        version,
        instructions,
        instruction_count,
        operands,
        operand_count,
        words,
        word_count,
        output,
    ) {
        Ok(size) => Writing { number: 0, size },
        Err(r) => Writing {
            number: answers::number(r),
            size: 0,
        },
    }
}

// Where a row's words are in the word pool: the place of the first, and how many they are.
#[repr(C)]
#[derive(Drop)]
pub struct Span {
    pub start: usize,
    pub length: usize,
}

// Tells where a row's words are; an export can't return the part itself. The span is empty and at 0 for a row number at or past the count,
// a row outside its pool or a span outside the word pool.
pub fn shex_words(instructions: &[u32], words: &[u32], row: u32, count: u32) -> Span
    ensures { result ≡ lies row count instructions.now words.now }
{
    let places = rows::places_of(instructions, words, row, count);
    Span {
        start: places.start,
        length: places.end - places.start,
    }
}

// What a row shows, in numbers: 0 for nothing, 1 for a count and 2 for a factor; and the dword that is shown, a factor by its own bits.
#[repr(C)]
#[derive(Drop)]
pub struct Showing {
    pub kind: u32,
    pub dword: u32,
}

// Tells what a row shows.
#[tactic(auto, unfolding(crate::specs::Numbers::shown_in_numbers, format::specs::Calls::shows, format::specs::Calls::shown_in))]
pub fn shex_shows(instructions: &[u32], words: &[u32], row: u32, count: u32) -> Showing
    ensures { result ≡ showing row count instructions.now words.now }
{
    let [dword] = rows::words_of(instructions, words, row, count) else {
        return Showing { kind: 0, dword: 0 };
    };
    match rows::shows(instructions, words, row, count) {
        Shown::Factor(_) => Showing {
            kind: 2,
            dword: *dword,
        },
        Shown::Count(x) => Showing { kind: 1, dword: x },
        Shown::Nothing => Showing { kind: 0, dword: 0 },
    }
}

// The texture offsets of a row, from -8 to 7.
#[repr(C)]
#[derive(Drop)]
pub struct Sides {
    pub u: i8,
    pub v: i8,
    pub w: i8,
}

// Gives u, v and w of a row.
#[tactic(auto, unfolding(format::specs::Calls::offsets))]
pub fn shex_offsets(instructions: &[u32], row: u32, count: u32) -> Sides
    ensures { result ≡ sides row count instructions.now }
{
    let Offsets { u, v, w } = rows::offsets(instructions, row, count);
    Sides { u, v, w }
}
