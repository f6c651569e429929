// The reader's first pass over a chunk's stream: refused with 11, 12, 13 or 14, or the rows and words that it needs.
#![tactic(auto)]

ghost use Rattle.std.specs.Prelude.{◌≡◌, ◌*◌, ◌%◌, ◌<◌, ◌≤◌, length};
ghost use Rattle.std.proofs.Math.Seq.{slice};
ghost use Rattle.format.specs.Dwords.{dwords_of};
ghost use Rattle.format.specs.Instructions as ins;
ghost use Rattle.instruction.specs.Measure.{verdict};
ghost use Rattle.stream.specs.Stream.{passes, measured, noted, Walking, Steps};

use format::Refusal;
use header::instruction_length;
use instruction::Fault;
use tokens::dwords;

// What a stream needs: rows for its instructions and for their operands, and words.
#[derive(Clone, Copy)]
pub struct Needs {
    pub instructions: u32,
    pub operands: u32,
    pub words: u32,
}

// How far a walk over a stream has come, in dwords; what it has met; and the byte offset of the first instruction that
// is not exact.
#[derive(Clone, Copy)]
pub struct Walk {
    pub at: usize,
    pub instructions: usize,
    pub operands: usize,
    pub words: usize,
    pub late: Option<u32>,
}

// A chunk whose stream is measured, under a ceiling, in model 5.1 or not.
#[derive(Clone, Copy)]
struct Chunk<'a> {
    bytes: &'a [u8],
    ceiling: u32,
    model51: bool,
    ghost small: { length (dwords_of bytes.now) ≤ 262_144 },
}

// The byte offset of an instruction.
fn place(at: usize) -> u32
    requires { at ≤ 262_144 }
    ensures { result ≡ 4 * at }
{
    (at * 4) as u32
}

// The walk past an instruction that is not exact, which ends at a place: it goes on there, and the first 14's place is kept.
fn noted(s: Walk, to: usize) -> Walk
    requires { s.at ≤ 262_144 }
    ensures { result ≡ noted s to }
{
    Walk {
        at: to,
        late: s.late.or(Some(place(s.at))),
        ..s
    }
}

impl<'a> Chunk<'a> {
    // Measures the instruction from one place to another.
    fn measure_part(&self, at: usize, end: usize) -> Result<instruction::Needs, Fault>
        requires { (at < end) × (end ≤ length (dwords_of self.now.bytes.now)) }
        ensures { result ≡ verdict (ins.read self.now.ceiling self.now.model51 (slice at end (dwords_of self.now.bytes.now))) }
    {
        let chunk = self.bytes;
        let a = at * 4;
        let b = end * 4;
        instruction::measure(&chunk[a..b], self.ceiling, self.model51)
    }

    // Walks past the next instruction.
    fn next(&self, s: Walk) -> Result<Walk, Refusal>
        requires { (s.at < length (dwords_of self.now.bytes.now)) × Walking self.now.ceiling self.now.model51 (dwords_of self.now.bytes.now) s }
        ensures { Steps self.now.ceiling self.now.model51 (dwords_of self.now.bytes.now) s.at result }
    {
        let n = instruction_length(self.bytes, s.at) as usize;
        if n == 0 {
            return Err(Refusal::ZeroLength { at: place(s.at) });
        }
        if dwords(self.bytes) - s.at < n {
            return Err(Refusal::PastEnd { at: place(s.at) });
        }
        let end = s.at + n;
        match self.measure_part(s.at, end) {
            Ok(needs) => Ok(Walk {
                at: end,
                instructions: s.instructions + 1,
                operands: s.operands + needs.rows,
                words: s.words + needs.words,
                late: s.late,
            }),
            Err(Fault::Miscounted) => Err(Refusal::OperandCount { at: place(s.at) }),
            Err(Fault::Inexact) => Ok(noted(s, end)),
        }
    }

    // What a walk to the end tells.
    fn finish(&self, s: Walk) -> Result<Needs, Refusal>
        requires { (length (dwords_of self.now.bytes.now) ≤ s.at) × Walking self.now.ceiling self.now.model51 (dwords_of self.now.bytes.now) s }
        ensures { result ≡ measured (passes self.now.ceiling self.now.model51 (dwords_of self.now.bytes.now)) }
    {
        if let Some(at) = s.late {
            return Err(Refusal::Layout { at });
        }
        Ok(Needs {
            instructions: s.instructions as u32,
            operands: s.operands as u32,
            words: s.words as u32,
        })
    }
}

// Measures a chunk's stream, under a ceiling, in model 5.1 or not; it writes nothing. Each step goes past an
// instruction, by that instruction's own length.
pub fn measure(chunk: &[u8], ceiling: u32, model51: bool) -> Result<Needs, Refusal>
    requires { (8 ≤ length chunk.now) × (length chunk.now % 4 ≡ 0) × (length chunk.now ≤ 1_048_576) }
    ensures { result ≡ measured (passes ceiling model51 (dwords_of chunk.now)) }
{
    let it = Chunk {
        bytes: chunk,
        ceiling,
        model51,
    };
    let n = dwords(chunk);
    let mut s = Walk {
        at: 2,
        instructions: 0,
        operands: 0,
        words: 0,
        late: None,
    };
    while s.at < n {
        s = it.next(s)?;
    }
    it.finish(s)
}
