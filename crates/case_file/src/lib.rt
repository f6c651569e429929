// The file of cases that programs run, data/cases. That of crates/cases is written by its make from cases.txt, that of crates/replay by the
// oracle. It is dwords, the lowest byte first, and begins with the number of cases. A case is a head of 14 dwords, the chunk's bytes up to
// a whole dword, the entries of the three pools that an accepted chunk uses, and the questions, of 9 dwords each.
#![tactic(auto)]

ghost use Rattle.std.specs.Prelude.{◌≡◌, length, OnErr};
ghost use Rattle.case_file.specs.Heads as h;

use format::{Answer, Refusal};
use std::fs::File;
use std::io;
use std::io::{ErrorKind, Read};

// How many bytes a head has.
pub const HEAD: usize = 56;

// What a head says. Bytes of the chunk past those given are 0. `before` is what the first entry of the instruction pool holds before the
// call. `number` is the refusal's, or 0 for an accepted chunk.
#[derive(Clone, Copy, Drop)]
pub struct Head {
    pub four_cc: u32,
    pub edition: u32,
    pub size: u32,
    pub given: u32,
    pub lent_instructions: u32,
    pub lent_operands: u32,
    pub lent_words: u32,
    pub before: u32,
    pub number: u32,
    pub version_or_place: u32,
    pub instructions: u32,
    pub operands: u32,
    pub words: u32,
    pub questions: u32,
}

// A pool: how many entries are lent, used afterwards and cleared by a refusal, and what the first one holds before.
#[derive(Clone, Copy, Drop)]
pub struct Pool {
    pub lent: usize,
    pub used: usize,
    pub cleared: usize,
    pub before: u32,
}

// How many bytes a question has.
pub const QUESTION: usize = 36;

// A question: the row and the count that are asked for; the words expected, what is shown (0 nothing, 1 a count, 2 a factor) and its bits,
// and the offsets with 8 added.
#[derive(Clone, Copy, Drop)]
pub struct Question {
    pub row: u32,
    pub count: u32,
    pub start: u32,
    pub length: u32,
    pub shown: u32,
    pub bits: u32,
    pub u: u32,
    pub v: u32,
    pub w: u32,
}

// Room for the three pools of a case.
#[derive(Drop)]
pub struct Pools {
    pub instructions: [u32; 4096],
    pub operands: [u32; 4096],
    pub words: [u32; 4096],
}

// Room for a chunk, all zero.
pub fn no_bytes() -> [u8; 1048580]
    ensures { 1048580 ≡ length result }
{
    [0; 1048580]
}

// Room for the entries of a pool or the questions of a case, all zero.
pub fn large_buffer() -> [u8; 65536]
    ensures { 65536 ≡ length result }
{
    [0; 65536]
}

// The dword at a place, or 0 past the end.
pub fn at(part: &[u8], k: usize) -> u32
    ensures { result ≡ h.dword_at part.now k }
{
    if k < tokens::dwords(part) {
        return tokens::dword(part, k);
    }
    0
}

impl Head {
    // The dwords of a head, in their order; one that is missing is 0.
    pub fn read(bytes: &[u8]) -> Head
        ensures { result ≡ h.head_of bytes.now }
    {
        Head {
            four_cc: at(bytes, 0),
            edition: at(bytes, 1),
            size: at(bytes, 2),
            given: at(bytes, 3),
            lent_instructions: at(bytes, 4),
            lent_operands: at(bytes, 5),
            lent_words: at(bytes, 6),
            before: at(bytes, 7),
            number: at(bytes, 8),
            version_or_place: at(bytes, 9),
            instructions: at(bytes, 10),
            operands: at(bytes, 11),
            words: at(bytes, 12),
            questions: at(bytes, 13),
        }
    }

    // A pool of the case: refusals 11 to 14 clear all that is lent.
    fn pool(&self, lent: u32, used: usize, before: u32) -> Pool
        ensures { result ≡ h.pool_of self.now.number lent used before }
    {
        let lent = lent as usize;
        Pool {
            lent,
            used,
            cleared: if 10 < self.number { lent } else { 0 },
            before,
        }
    }

    // The instruction pool of the case.
    pub fn instruction_pool(&self) -> Pool
        ensures { result ≡ h.instruction_pool self.now }
    {
        self.pool(
            self.lent_instructions,
            self.instructions as usize * 16,
            self.before,
        )
    }

    // The operand pool of the case. What it holds before is far from what the other pools hold.
    pub fn operand_pool(&self) -> Pool
        ensures { result ≡ h.operand_pool self.now }
    {
        self.pool(
            self.lent_operands,
            self.operands as usize * 16,
            self.before.wrapping_add(0x1_0000),
        )
    }

    // The word pool of the case.
    pub fn word_pool(&self) -> Pool
        ensures { result ≡ h.word_pool self.now }
    {
        self.pool(
            self.lent_words,
            self.words as usize,
            self.before.wrapping_add(0x2_0000),
        )
    }
}

impl Question {
    // The dwords of a question, in their order; one that is missing is 0.
    pub fn read(bytes: &[u8]) -> Question {
        Question {
            row: at(bytes, 0),
            count: at(bytes, 1),
            start: at(bytes, 2),
            length: at(bytes, 3),
            shown: at(bytes, 4),
            bits: at(bytes, 5),
            u: at(bytes, 6),
            v: at(bytes, 7),
            w: at(bytes, 8),
        }
    }
}

impl Pools {
    // Room that is all zero.
    pub fn new() -> Pools {
        Pools {
            instructions: [0; 4096],
            operands: [0; 4096],
            words: [0; 4096],
        }
    }
}

// Fills a buffer, and tells whether there were as many bytes left. Where not, and after an error, the buffer holds any bytes.
pub fn read_all(file: &mut File, buffer: &mut [u8]) -> io::Result<bool> {
    match file.read_exact(buffer) {
        Ok(()) => Ok(true),
        Err(e) if e.kind() == ErrorKind::UnexpectedEof => Ok(false),
        Err(e) => Err(e),
    }
}

// Reads n bytes to the front of a buffer, and tells whether there were as many.
pub fn read_front(file: &mut File, buffer: &mut [u8], n: usize) -> io::Result<bool> {
    match buffer.get_mut(..n) {
        Some(front) => read_all(file, front),
        None => Ok(false),
    }
}

// Fills a pool with numbers that rise from the first.
fn fill(pool: &mut [u32], first: u32) {
    let mut x = first;
    for entry in pool {
        *entry = x;
        x = x.wrapping_add(1);
    }
}

// Lends the parts of the chunk and of the pools that a case names to the reader. Where there is less, the answer is one that no chunk gives.
fn lend(
    head: &Head,
    chunk: &[u8],
    instructions: &mut [u32],
    operands: &mut [u32],
    words: &mut [u32],
) -> Answer {
    let (Some(chunk), Some(instructions), Some(operands), Some(words)) = (
        chunk.get(..head.size as usize),
        instructions.get_mut(..head.lent_instructions as usize),
        operands.get_mut(..head.lent_operands as usize),
        words.get_mut(..head.lent_words as usize),
    ) else {
        return Err(Refusal::OutputShort);
    };
    decode::decode(
        chunk,
        head.four_cc,
        head.edition,
        instructions,
        operands,
        words,
    )
}

// Reads the chunk of a case into room that is all zero, fills the pools and decodes the chunk. Where the file has no such chunk, the answer
// is one that no chunk gives. An error comes of the file alone; it leaves the pools as they were, and in the room any bytes.
pub fn decoded(
    file: &mut File,
    head: &Head,
    chunk: &mut [u8],
    instructions: &mut [u32],
    operands: &mut [u32],
    words: &mut [u32],
) -> io::Result<Answer>
    ensures instructions_kept { OnErr result (instructions.new ≡ instructions.old) }
    ensures operands_kept { OnErr result (operands.new ≡ operands.old) }
    ensures words_kept { OnErr result (words.new ≡ words.old) }
{
    if !read_front(file, chunk, head.given as usize)? {
        return Ok(Err(Refusal::OutputShort));
    }
    fill(instructions, head.instruction_pool().before);
    fill(operands, head.operand_pool().before);
    fill(words, head.word_pool().before);
    Ok(lend(head, chunk, instructions, operands, words))
}

// Whether a part holds the n words of the pool from a place on.
pub fn same_part(part: &[u32], words: &[u32], start: usize, n: usize) -> bool {
    match words.get(start..).and_then(|rest| rest.get(..n)) {
        Some(wanted) => part == wanted,
        None => false,
    }
}

// How many cases the file says it has. A file that doesn't say it has 1, which cannot be read and counts as wrong.
pub fn number_of_cases(file: &mut File) -> io::Result<u32> {
    let mut number = [0; 4];
    if read_all(file, &mut number)? {
        return Ok(u32::from_le_bytes(number));
    }
    Ok(1)
}

// Whether something is left of the file.
pub fn left_over(file: &mut File) -> io::Result<bool> {
    read_all(file, &mut [0])
}
