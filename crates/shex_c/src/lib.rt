// The static library that a program in another language links: each export calls the function of its name in `shex`, under the same clause.
#![tactic(auto)]

ghost use Rattle.std.specs.Prelude.{◌≡◌};
ghost use Rattle.shex.specs.Numbers.{Read, Wrote, lies, showing, sides};

use shex::{Reading, Showing, Sides, Span, Writing};

// Reads a chunk of a FourCC at an edition, into three lent pools.
#[unsafe(no_mangle)]
pub extern "C" fn shex_decode(
    chunk: &[u8],
    four: u32,
    edition: u32,
    instructions: &mut [u32],
    operands: &mut [u32],
    words: &mut [u32],
) -> Reading
    ensures { Read edition four chunk.now instructions.old operands.old words.old result instructions.new operands.new words.new }
{
    shex::shex_decode(chunk, four, edition, instructions, operands, words)
}

// Encodes a version token, so many rows and words at an edition into the output.
#[unsafe(no_mangle)]
pub extern "C" fn shex_encode(
    edition: u32,
    version: u32,
    instructions: &[u32],
    instruction_count: u32,
    operands: &[u32],
    operand_count: u32,
    words: &[u32],
    word_count: u32,
    output: &mut [u8],
) -> Writing
    ensures { Wrote edition version instruction_count operand_count word_count instructions.now operands.now words.now output.old result output.new }
{
    shex::shex_encode(
        edition,
        version,
        instructions,
        instruction_count,
        operands,
        operand_count,
        words,
        word_count,
        output,
    )
}

// Tells where a row's words are; an export can't return the part itself. The span is empty and at 0 for a row number at or past the count,
// a row outside its pool or a span outside the word pool.
#[unsafe(no_mangle)]
pub extern "C" fn shex_words(instructions: &[u32], words: &[u32], row: u32, count: u32) -> Span
    ensures { result ≡ lies row count instructions.now words.now }
{
    shex::shex_words(instructions, words, row, count)
}

// Tells what a row shows.
#[unsafe(no_mangle)]
pub extern "C" fn shex_shows(instructions: &[u32], words: &[u32], row: u32, count: u32) -> Showing
    ensures { result ≡ showing row count instructions.now words.now }
{
    shex::shex_shows(instructions, words, row, count)
}

// Gives u, v and w of a row.
#[unsafe(no_mangle)]
pub extern "C" fn shex_offsets(instructions: &[u32], row: u32, count: u32) -> Sides
    ensures { result ≡ sides row count instructions.now }
{
    shex::shex_offsets(instructions, row, count)
}
