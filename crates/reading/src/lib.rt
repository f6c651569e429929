// Tells whether rows, counts and words are the reading of a chunk at an edition, and of how many dwords.
#![tactic(auto)]

ghost use Rattle.std.specs.Prelude.{◌≡◌, ◌*◌, ◌/◌, ◌^◌, ◌<◌, ◌≤◌, length};
ghost use Rattle.format.specs.Refusals as h;
ghost use Rattle.format.specs.Encoder as e;
ghost use Rattle.reading.specs.Confirm as c;
ghost use Rattle.reading.specs.Walks as w;

use header::{ceiling, decode_version, is_model51};
use instruction_deep::Pools;
use instruction_walk::{Rules, walk};

// The dwords of the longest chunk that is read, of 1,048,576 bytes.
const MOST_DWORDS: usize = 262_144;

// How far a walk over rows has come: dwords of the chunk, operand rows and words.
#[derive(Clone, Copy, Drop)]
pub struct Walk {
    pub at: usize,
    pub row: usize,
    pub word: usize,
}

// Whether a header may have this version token at this edition.
fn taken(edition: u32, version: u32) -> bool
    ensures { result ≡ c.untold (h.first_of (h.header_tests edition h.SHEX 8 version 2)) }
{
    edition <= 3 && decode_version(8, version, 2).is_ok()
}

// Walks past the instruction of a row: the row, its operands' rows and as many words as it says. The place may pass a chunk's
// greatest length: since it only grows, `walk_all` asks that once, at the end. No sum overflows, since each row tells its own
// place and size in 32 bits.
fn next(
    instruction: &[u32; 16],
    operands: &[u32],
    words: &[u32],
    s: Walk,
    rules: Rules,
) -> Option<Walk>
    requires { (s.at < 2 ^ 33) × (16 * s.row ≤ length operands.now) × (s.word ≤ length words.now) }
    ensures { result ≡ w.next_walk rules.ceiling rules.model51 instruction.now operands.now words.now s }
{
    let end = s.word + instruction[15] as usize;
    if words.len() < end {
        return None;
    }
    let pools = Pools {
        operands,
        row: s.row,
        words: &words[..end],
        word: s.word,
    };
    let walked = walk(instruction, s.at * 4, rules, &pools)?;
    Some(Walk {
        at: s.at + walked.dwords,
        row: s.row + walked.rows,
        word: end,
    })
}

// Walks over all instructions, whose rows are these; their operands' rows and words are these and no others. The chunk's
// dwords; none if these are no chunk's.
fn walk_all(instructions: &[u32], operands: &[u32], words: &[u32], rules: Rules) -> Option<usize>
    requires { 16 * (length instructions.now / 16) ≡ length instructions.now }
    ensures { result ≡ w.dwords_from 2 (c.confirm_all rules.ceiling rules.model51 (length instructions.now / 16) 8 instructions.now operands.now words.now 0 0) }
{
    let mut s = Walk {
        at: 2,
        row: 0,
        word: 0,
    };
    let (rows, _) = instructions.as_chunks::<16>();
    for row in rows {
        s = next(row, operands, words, s, rules)?;
    }
    if MOST_DWORDS < s.at || s.row * 16 < operands.len() || s.word < words.len() {
        return None;
    }
    Some(s.at)
}

// Tells whether a version token, so many rows and words, which may be any numbers, are the reading of a chunk at an edition:
// the chunk's dwords, and none where there is no such chunk.
pub fn size(
    edition: u32,
    version: u32,
    instructions: &[u32],
    instruction_count: u32,
    operands: &[u32],
    operand_count: u32,
    words: &[u32],
    word_count: u32,
) -> Option<usize>
    ensures { result ≡ w.read_of (e.chunk_giving edition (w.lent version instruction_count operand_count word_count instructions.now operands.now words.now)) }
{
    let i = instruction_count as usize * 16;
    let o = operand_count as usize * 16;
    let n = word_count as usize;
    if instructions.len() < i {
        return None;
    }
    if operands.len() < o {
        return None;
    }
    if words.len() < n {
        return None;
    }
    if !taken(edition, version) {
        return None;
    }
    let rules = Rules {
        ceiling: ceiling(edition),
        model51: is_model51(version),
    };
    walk_all(&instructions[..i], &operands[..o], &words[..n], rules)
}
