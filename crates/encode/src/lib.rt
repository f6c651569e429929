// The encoder: rows, counts and words that are the reading of a chunk are written as that chunk.
#![tactic(auto)]

ghost use Rattle.std.specs.Prelude.{◌≡◌, ℕ, ◌+◌, ◌-◌, ◌*◌, ◌/◌, ◌^◌, ◌<◌, ◌≤◌, length, take, drop};
ghost use Rattle.encode.specs.Encode as e;
ghost use Rattle.encode.specs.Emits as w;

use format::{Encoded, Refusal};
use operand_emit::Place;
use output::put_dword;

// Writes all instructions, from the third dword of the output on.
fn emit_all(instructions: &[u32], operands: &[u32], words: &[u32], output: &mut [u8])
    requires { w.Going instructions.now operands.now words.now 0 w.start output.old }
    ensures { w.Finished instructions.now operands.now words.now output.old output.new }
{
    let mut place = Place {
        operand: 0,
        word: 0,
        at: 2,
    };
    for row in instructions.as_chunks::<16>().0 {
        let end = place.word + row[15] as usize;
        place = instruction_emit::emit(row, operands, &words[..end], place, output);
    }
}

// Writes a chunk of so many dwords whose instructions were confirmed: its version token, its length and its instructions.
fn write(
    version: u32,
    dwords: usize,
    instructions: &[u32],
    operands: &[u32],
    words: &[u32],
    output: &mut [u8],
)
    requires { w.Ready instructions.now operands.now words.now dwords (length output.old) }
    ensures { w.Wrote version instructions.now operands.now words.now dwords output.old output.new }
{
    put_dword(output, 0, version);
    put_dword(output, 1, dwords as u32);
    emit_all(instructions, operands, words, output);
}

// Tells why there is no chunk at an edition: 1, or 15.
fn no_chunk(edition: u32) -> Refusal
    ensures { result ≡ e.no_chunk edition }
{
    if 3 < edition {
        Refusal::Edition
    } else {
        Refusal::NoReading
    }
}

// Encodes a version token, so many rows and words, which may be any numbers, into the output: 1, then 15, then 16, or the
// chunk that is read at that edition to exactly these.
pub fn encode(
    edition: u32,
    version: u32,
    instructions: &[u32],
    instruction_count: u32,
    operands: &[u32],
    operand_count: u32,
    words: &[u32],
    word_count: u32,
    output: &mut [u8],
) -> Encoded
    ensures { e.Encodes edition version instruction_count operand_count word_count instructions.now operands.now words.now output.old result output.new }
{
    let dwords = reading::size(
        edition,
        version,
        instructions,
        instruction_count,
        operands,
        operand_count,
        words,
        word_count,
    )
    .ok_or(no_chunk(edition))?;
    if output.len() / 4 < dwords {
        return Err(Refusal::OutputShort);
    }
    write(
        version,
        dwords,
        &instructions[..instruction_count as usize * 16],
        &operands[..operand_count as usize * 16],
        &words[..word_count as usize],
        output,
    );
    Ok(dwords as u32 * 4)
}
