// Runs the cases of a program's data/cases: each chunk is read, and the whole answer and the whole pools are compared; then the questions
// are asked. The first lines of case_file say what the file is.
#![tactic(auto)]

ghost use Rattle.std.specs.Prelude.{◌≤◌, IfOk};

use case_file::{HEAD, Head, Pool, Pools, QUESTION, Question};
use format::{Accepted, Answer, Shown};
use std::fs::File;
use std::{fs, io};

// The bits of infinity: those above them, the sign left out, are a NaN's.
const INFINITY: u32 = 0x7F80_0000;

// Whether a float is the one with these bits, or some NaN if these are a NaN's.
#[tactic(auto, using(rows::proofs::Nans::no_nan))]
fn same_float(f: f32, bits: u32) -> bool {
    if INFINITY < bits % 0x8000_0000 {
        return f.is_nan();
    }
    f == f32::from_bits(bits)
}

// Whether what is shown is what a question expects.
fn same_shown(shown: Shown, q: &Question) -> bool {
    match shown {
        Shown::Nothing => q.shown == 0 && q.bits == 0,
        Shown::Count(n) => q.shown == 1 && q.bits == n,
        Shown::Factor(f) => q.shown == 2 && same_float(f, q.bits),
    }
}

// Whether an offset is the expected one, to which 8 was added.
fn same_offset(offset: i8, expected: u32) -> bool {
    i64::from(offset) + 8 == i64::from(expected)
}

// Whether the calls on rows answer a question as it expects.
fn is_answered(q: &Question, instructions: &[u32], words: &[u32]) -> bool {
    let part = rows::words_of(instructions, words, q.row, q.count);
    let shown = rows::shows(instructions, words, q.row, q.count);
    let offsets = rows::offsets(instructions, q.row, q.count);
    case_file::same_part(part, words, q.start as usize, q.length as usize)
        && same_shown(shown, q)
        && same_offset(offsets.u, q.u)
        && same_offset(offsets.v, q.v)
        && same_offset(offsets.w, q.w)
}

// What an entry should hold: the expected one where it is used; past those 0 where it is cleared, else what was there before.
fn wanted(entries: &[[u8; 4]], i: usize, p: Pool, before: u32) -> u32 {
    match entries.get(i) {
        Some(entry) if i < p.used => u32::from_le_bytes(*entry),
        _ if i < p.cleared => 0,
        _ => before,
    }
}

// Whether every entry of a pool is as it should be, those that were not lent included.
fn same_pool(pool: &[u32], entries: &[[u8; 4]], p: Pool) -> bool {
    let mut before = p.before;
    for (i, x) in pool.iter().enumerate() {
        if *x != wanted(entries, i, p, before) {
            return false;
        }
        before = before.wrapping_add(1);
    }
    true
}

// Reads the next expected entries, and tells whether a pool begins with them and is as it should be past them.
fn next_same(file: &mut File, pool: &[u32], p: Pool) -> io::Result<bool> {
    let mut buffer = case_file::large_buffer();
    if pool.len() < p.used || !case_file::read_front(file, &mut buffer, p.used * 4)? {
        return Ok(false);
    }
    let (entries, _) = buffer.as_chunks();
    Ok(same_pool(pool, entries, p))
}

// Whether the answer is the one that a case expects. A refusal has no counts.
fn same_answer(answer: Answer, head: &Head) -> bool {
    let counts = Accepted {
        version: head.version_or_place,
        instructions: head.instructions,
        operands: head.operands,
        words: head.words,
    };
    match answer {
        Ok(accepted) => head.number == 0 && accepted == counts,
        Err(r) => {
            let none = Accepted {
                version: answers::place(r),
                instructions: 0,
                operands: 0,
                words: 0,
            };
            head.number == answers::number(r) && none == counts
        }
    }
}

// Reads the next question, and tells whether it is answered as it expects.
fn next_answered(file: &mut File, instructions: &[u32], words: &[u32]) -> io::Result<bool> {
    let mut question = [0; QUESTION];
    if !case_file::read_all(file, &mut question)? {
        return Ok(false);
    }
    Ok(is_answered(&Question::read(&question), instructions, words))
}

// Asks the questions of a case, and tells whether all are answered as they expect; the calls are lent as much of the pools as the reader was.
fn all_answered(file: &mut File, head: &Head, pools: &Pools) -> io::Result<bool> {
    let (Some(instructions), Some(words)) = (
        pools.instructions.get(..head.lent_instructions as usize),
        pools.words.get(..head.lent_words as usize),
    ) else {
        return Ok(false);
    };
    let mut right = true;
    for _ in 0..head.questions {
        right &= next_answered(file, instructions, words)?;
    }
    Ok(right)
}

// Whether the answer and the three pools are those that a case expects, and its questions are answered as they expect. All that the file
// holds of the case is read, whatever is wrong.
fn compared(file: &mut File, head: &Head, answer: Answer, pools: &Pools) -> io::Result<bool> {
    let instructions = next_same(file, &pools.instructions, head.instruction_pool())?;
    let operands = next_same(file, &pools.operands, head.operand_pool())?;
    let words = next_same(file, &pools.words, head.word_pool())?;
    let questions = all_answered(file, head, pools)?;
    Ok(same_answer(answer, head) && instructions && operands && words && questions)
}

// Runs the next case in room that is all zero, and tells whether it is right; none if there is no more.
fn next_is_right(file: &mut File) -> io::Result<Option<bool>> {
    let mut head = [0; HEAD];
    if !case_file::read_all(file, &mut head)? {
        return Ok(None);
    }
    let head = Head::read(&head);
    let mut chunk = case_file::no_bytes();
    let mut pools = Pools::new();
    let answer = case_file::decoded(
        file,
        &head,
        &mut chunk,
        &mut pools.instructions,
        &mut pools.operands,
        &mut pools.words,
    )?;
    Ok(Some(compared(file, &head, answer, &pools)?))
}

// How many of the next so many cases are right; one that cannot be read is not, nor are those after it.
fn count_right(file: &mut File, cases: u32) -> io::Result<u32>
    ensures { IfOk result (λ n. n ≤ cases) }
{
    let mut right = 0;
    for i in 0..cases {
        let Some(is_right) = next_is_right(file)? else {
            break;
        };
        right += u32::from(is_right);
    }
    Ok(right)
}

// Prints how many cases are right, and how many wrong; what is left of the file is wrong too.
fn report(rt: &impl Print, file: &mut File) -> io::Result<()> {
    let cases = case_file::number_of_cases(file)?;
    let right = count_right(file, cases)?;
    let wrong = u64::from(cases - right) + u64::from(case_file::left_over(file)?);
    println!(rt; "{right} right, {wrong} wrong")
}

// Runs the cases of the file, which stands in the program's data/.
pub fn run(rt: &HostRuntime) -> io::Result<()> {
    let mut file = fs::open(rt, "cases")?;
    report(rt, &mut file)
}
