// The reader: a chunk is checked, measured and then written into three lent pools.
#![tactic(auto)]

ghost use Rattle.std.specs.Prelude.{◌≡◌, length};
ghost use Rattle.format.specs.Dwords.{dwords_of};
ghost use Rattle.format.specs.Refusals as h;
ghost use Rattle.decode.specs.Decode as d;

use format::{Accepted, Answer, Refusal};
use header::{ceiling, clear, decode_header, has_room, is_model51};
use stream_write::write_all;

// Reads the stream of a chunk whose header has passed, into pools that have room for it.
fn decode_body(
    chunk: &[u8],
    version: u32,
    ceiling: u32,
    instructions: &mut [u32],
    operands: &mut [u32],
    words: &mut [u32],
) -> Answer
    requires { d.Entered chunk.now version (length instructions.old) (length operands.old) (length words.old) }
    ensures { d.Ends (h.body ceiling (dwords_of chunk.now)) instructions.old operands.old words.old result instructions.new operands.new words.new }
{
    let model51 = is_model51(version);
    match stream::measure(chunk, ceiling, model51) {
        Ok(needs) => {
            write_all(chunk, ceiling, model51, instructions, operands, words);
            Ok(Accepted {
                version,
                instructions: needs.instructions,
                operands: needs.operands,
                words: needs.words,
            })
        }
        Err(r) => {
            clear(instructions);
            clear(operands);
            clear(words);
            Err(r)
        }
    }
}

// Reads a chunk of a FourCC at an edition, into three lent pools.
pub fn decode(
    chunk: &[u8],
    four: u32,
    edition: u32,
    instructions: &mut [u32],
    operands: &mut [u32],
    words: &mut [u32],
) -> Answer
    ensures { d.Decoded edition four chunk.now instructions.old operands.old words.old result instructions.new operands.new words.new }
{
    let version = decode_header(chunk, four, edition)?;
    if !has_room(chunk.len(), instructions.len(), operands.len(), words.len()) {
        return Err(Refusal::Room);
    }
    decode_body(
        chunk,
        version,
        ceiling(edition),
        instructions,
        operands,
        words,
    )
}
