// Writes a stream that was accepted into three lent pools, one instruction after the other.
#![tactic(auto)]

ghost use Rattle.std.specs.Prelude.{◌≡◌, ◌<◌, length};
ghost use Rattle.format.specs.Dwords.{dwords_of};
ghost use Rattle.stream_write.specs.Writing as d;

use header::instruction_length;
use instruction_write::Place;
use tokens::dwords;

// How far writing has come: dwords of the chunk, and rows and words written.
#[derive(Drop)]
pub struct Mark {
    pub at: usize,
    pub instructions: usize,
    pub operands: usize,
    pub words: usize,
}

// Writes the next instruction, into what the ones before it left of each pool.
fn write_next(
    chunk: &[u8],
    s: Mark,
    ceiling: u32,
    model51: bool,
    instructions: &mut [u32],
    operands: &mut [u32],
    words: &mut [u32],
) -> Mark
    requires { (s.at < length (dwords_of chunk.now)) × d.Writing ceiling model51 (dwords_of chunk.now) s (length instructions.old) (length operands.old) (length words.old) }
    ensures { (s.at < result.at) × d.Writing ceiling model51 (dwords_of chunk.now) result (length instructions.new) (length operands.new) (length words.new) × d.Toward ceiling model51 (dwords_of chunk.now) s instructions.old operands.old words.old result instructions.new operands.new words.new }
{
    let end = s.at + instruction_length(chunk, s.at) as usize;
    let place = Place {
        offset: (s.at * 4) as u32,
        row: s.operands as u32,
        word: s.words as u32,
    };
    let x = instruction_write::write(
        &chunk[s.at * 4..end * 4],
        ceiling,
        model51,
        place,
        &mut instructions[s.instructions * 16..],
        &mut operands[s.operands * 16..],
        &mut words[s.words..],
    );
    Mark {
        at: end,
        instructions: s.instructions + 1,
        operands: s.operands + x.rows,
        words: s.words + x.words,
    }
}

// Writes a stream that was accepted: its rows and words, to the front of each pool. It stays a function of its own, so that the numbers of the
// first pass do not take its registers.
#[inline(never)]
pub fn write_all(
    chunk: &[u8],
    ceiling: u32,
    model51: bool,
    instructions: &mut [u32],
    operands: &mut [u32],
    words: &mut [u32],
)
    requires { d.Writing ceiling model51 (dwords_of chunk.now) d.start (length instructions.old) (length operands.old) (length words.old) }
    ensures { d.Left ceiling model51 (dwords_of chunk.now) d.start instructions.old operands.old words.old instructions.new operands.new words.new }
{
    let n = dwords(chunk);
    let mut s = Mark {
        at: 2,
        instructions: 0,
        operands: 0,
        words: 0,
    };
    while s.at < n {
        s = write_next(chunk, s, ceiling, model51, instructions, operands, words);
    }
}
