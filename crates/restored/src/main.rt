// Encodes what the reader makes of the cases of data/cases, which is the file of the crate `cases`. The rows and words of each accepted
// chunk are encoded into outputs that are exactly long enough, one byte short and one byte longer. Then each entry of its rows and words,
// its version token and its counts are changed, one at a time: the encoder must refuse, or give bytes that are read to exactly these.
#![tactic(auto)]

ghost use Rattle.std.specs.Prelude.{◌≡◌, length};

use case_file::{HEAD, Head, Pools, QUESTION};
use format::{Accepted, Encoded, Refusal};
use std::fs::File;
use std::ops::Range;
use std::{fs, io};

// The letters SHEX, as a dword.
const SHEX: u32 = 0x5845_4853;

// Rows and words stand in one array, so that one function changes any of them: the instruction rows, the operand rows from here on, and
// the words from there on.
const FIRST_OPERAND: usize = 4096;

const FIRST_WORD: usize = 8192;

const END: usize = 12288;

// What is encoded: the edition, and what is told beside the rows and words.
#[derive(Clone, Copy, Drop)]
struct Told {
    edition: u32,
    accepted: Accepted,
}

// What comes of a case: restored or lost; and of a change: refused, read back or wrong.
#[derive(Drop)]
enum Outcome {
    Restored,
    Lost,
    Refused,
    ReadBack,
    Wrong,
}

// How many there are of each outcome.
#[derive(Drop)]
struct Totals {
    restored: u64,
    lost: u64,
    refused: u64,
    read_back: u64,
    wrong: u64,
}

impl Totals {
    fn count(&mut self, o: Outcome) {
        let total = match o {
            Outcome::Restored => &mut self.restored,
            Outcome::Lost => &mut self.lost,
            Outcome::Refused => &mut self.refused,
            Outcome::ReadBack => &mut self.read_back,
            Outcome::Wrong => &mut self.wrong,
        };
        *total = total.wrapping_add(1);
    }
}

// Room for an output, all zero.
fn no_output() -> [u8; 2048]
    ensures { 2048 ≡ length result }
{
    [0; 2048]
}

// Room for the rows and words of a case, all zero.
fn no_rows() -> [u32; END]
    ensures { END ≡ length result }
{
    [0; END]
}

// What an output holds at a place before a call: it rises over the chunk's bytes, and is never the same.
fn before(chunk: &[u8], i: usize) -> u8 {
    let byte = chunk.get(i).copied().unwrap_or(0);
    byte.wrapping_add((i % 255 + 1) as u8)
}

// An output with what it holds before a call.
fn prepared(chunk: &[u8]) -> [u8; 2048] {
    let mut output = no_output();
    for (i, byte) in output.iter_mut().enumerate() {
        *byte = before(chunk, i);
    }
    output
}

// Whether an output begins with the first n bytes of the chunk.
fn begins(output: &[u8], chunk: &[u8], n: usize) -> bool {
    output
        .get(..n)
        .is_some_and(|front| chunk.starts_with(front))
}

// Whether an output holds from a place on what it held before a call.
fn kept(output: &[u8], from: usize, chunk: &[u8]) -> bool {
    output
        .iter()
        .enumerate()
        .skip(from)
        .all(|(i, byte)| *byte == before(chunk, i))
}

// Encodes rows and words into an output.
fn encoded(told: Told, rows: &[u32; END], output: &mut [u8]) -> Encoded {
    encode::encode(
        told.edition,
        told.accepted.version,
        &rows[..FIRST_OPERAND],
        told.accepted.instructions,
        &rows[FIRST_OPERAND..FIRST_WORD],
        told.accepted.operands,
        &rows[FIRST_WORD..],
        told.accepted.words,
        output,
    )
}

// Whether encoding into n bytes gives this answer, and writes as many bytes of the chunk as it says and nothing else.
fn gives(told: Told, rows: &[u32; END], chunk: &[u8], n: usize, answer: Encoded) -> bool {
    let mut output = prepared(chunk);
    let Some(lent) = output.get_mut(..n) else {
        return false;
    };
    let same = encoded(told, rows, lent) == answer;
    let written = answer.unwrap_or(0) as usize;
    same && begins(&output, chunk, written) && kept(&output, written, chunk)
}

// Whether a chunk of so many bytes comes back from its rows and words: into as many bytes, not into one less, and into one more.
fn restored(told: Told, rows: &[u32; END], chunk: &[u8], size: u32) -> Outcome {
    let n = size as usize;
    if n != 0
        && gives(told, rows, chunk, n, Ok(size))
        && gives(told, rows, chunk, n - 1, Err(Refusal::OutputShort))
        && gives(told, rows, chunk, n + 1, Ok(size))
    {
        return Outcome::Restored;
    }
    Outcome::Lost
}

// Whether a pool begins with the first n entries of others.
fn same_front(pool: &[u32], others: &[u32], n: usize) -> bool {
    pool.get(..n).is_some_and(|front| others.starts_with(front))
}

// Whether bytes are read to exactly these rows and words.
fn reads_to(bytes: &[u8], told: Told, rows: &[u32; END]) -> bool {
    let mut pools = Pools::new();
    let answer = decode::decode(
        bytes,
        SHEX,
        told.edition,
        &mut pools.instructions,
        &mut pools.operands,
        &mut pools.words,
    );
    let counts = told.accepted;
    answer == Ok(counts)
        && same_front(
            &pools.instructions,
            &rows[..FIRST_OPERAND],
            counts.instructions as usize * 16,
        )
        && same_front(
            &pools.operands,
            &rows[FIRST_OPERAND..FIRST_WORD],
            counts.operands as usize * 16,
        )
        && same_front(&pools.words, &rows[FIRST_WORD..], counts.words as usize)
}

// What comes of encoding rows and words that were changed into a long output: refused, with the output as it was; or so many bytes are
// written that are read back, and the output is as it was past them.
fn outcome_of(told: Told, rows: &[u32; END], chunk: &[u8]) -> Outcome {
    let mut output = prepared(chunk);
    match encoded(told, rows, &mut output) {
        Err(Refusal::NoReading) if kept(&output, 0, chunk) => Outcome::Refused,
        Ok(size) => {
            let size = size as usize;
            let is_read = output
                .get(..size)
                .is_some_and(|bytes| reads_to(bytes, told, rows));
            if is_read && kept(&output, size, chunk) {
                Outcome::ReadBack
            } else {
                Outcome::Wrong
            }
        }
        _ => Outcome::Wrong,
    }
}

// What comes of an entry to which something is added for a call.
fn with_entry(told: Told, rows: &mut [u32; END], i: usize, change: u32, chunk: &[u8]) -> Outcome {
    let Some(old) = rows.get(i).copied() else {
        return Outcome::Wrong;
    };
    rows[i] = old.wrapping_add(change);
    let outcome = outcome_of(told, rows, chunk);
    rows[i] = old;
    outcome
}

// Changes each of these entries, one more, one less, and the top bit, and counts what comes of it.
fn with_entries(
    told: Told,
    rows: &mut [u32; END],
    entries: Range<usize>,
    chunk: &[u8],
    totals: &mut Totals,
) {
    for i in entries {
        for change in [1, 0xFFFF_FFFF, 0x8000_0000] {
            totals.count(with_entry(told, rows, i, change, chunk));
        }
    }
}

// Changes the version token, one more, and each count, one more and one less.
fn with_each_told(told: Told, rows: &[u32; END], chunk: &[u8], totals: &mut Totals) {
    let a = told.accepted;
    let changed = [
        Accepted {
            version: a.version.wrapping_add(1),
            ..a
        },
        Accepted {
            instructions: a.instructions.wrapping_add(1),
            ..a
        },
        Accepted {
            instructions: a.instructions.wrapping_sub(1),
            ..a
        },
        Accepted {
            operands: a.operands.wrapping_add(1),
            ..a
        },
        Accepted {
            operands: a.operands.wrapping_sub(1),
            ..a
        },
        Accepted {
            words: a.words.wrapping_add(1),
            ..a
        },
        Accepted {
            words: a.words.wrapping_sub(1),
            ..a
        },
    ];
    for accepted in changed {
        totals.count(outcome_of(Told { accepted, ..told }, rows, chunk));
    }
}

// Restores an accepted chunk of so many bytes, and changes what it is restored from.
fn run(told: Told, rows: &mut [u32; END], chunk: &[u8], size: u32, totals: &mut Totals) {
    let instructions_end = told.accepted.instructions as usize * 16;
    let operands_end = FIRST_OPERAND + told.accepted.operands as usize * 16;
    let words_end = FIRST_WORD + told.accepted.words as usize;
    totals.count(restored(told, rows, chunk, size));
    with_each_told(told, rows, chunk, totals);
    with_entries(told, rows, 0..instructions_end, chunk, totals);
    with_entries(told, rows, FIRST_OPERAND..operands_end, chunk, totals);
    with_entries(told, rows, FIRST_WORD..words_end, chunk, totals);
}

// The rows and words of three pools in one array.
fn rows_of(pools: &Pools) -> [u32; END] {
    let mut rows = no_rows();
    let entries = pools
        .instructions
        .iter()
        .chain(&pools.operands)
        .chain(&pools.words);
    for (row, entry) in rows.iter_mut().zip(entries) {
        *row = *entry;
    }
    rows
}

// Runs what the reader made of a case that it accepted.
fn run_accepted(head: &Head, accepted: Accepted, pools: &Pools, chunk: &[u8], totals: &mut Totals) {
    let told = Told {
        edition: head.edition,
        accepted,
    };
    run(told, &mut rows_of(pools), chunk, head.size, totals);
}

// Reads past what a case expects, and tells whether it was there.
fn skipped(file: &mut File, head: &Head) -> io::Result<bool> {
    let rows = head.instructions as usize + head.operands as usize;
    let entries = rows * 16 + head.words as usize;
    let mut buffer = case_file::large_buffer();
    case_file::read_front(
        file,
        &mut buffer,
        entries * 4 + head.questions as usize * QUESTION,
    )
}

// Runs the next case. One that cannot be read counts as lost.
fn next(file: &mut File, totals: &mut Totals) -> io::Result<()> {
    let mut head = [0; HEAD];
    if !case_file::read_all(file, &mut head)? {
        totals.count(Outcome::Lost);
        return Ok(());
    }
    let head = Head::read(&head);
    let mut chunk = case_file::no_bytes();
    let mut pools = Pools::new();
    let answer = case_file::decoded(
        file,
        &head,
        &mut chunk,
        &mut pools.instructions,
        &mut pools.operands,
        &mut pools.words,
    )?;
    if !skipped(file, &head)? {
        totals.count(Outcome::Lost);
    } else if let Ok(accepted) = answer {
        run_accepted(&head, accepted, &pools, &chunk, totals);
    }
    Ok(())
}

// Runs the next so many cases.
fn all(file: &mut File, cases: u32) -> io::Result<Totals> {
    let mut totals = Totals {
        restored: 0,
        lost: 0,
        refused: 0,
        read_back: 0,
        wrong: 0,
    };
    for _ in 0..cases {
        next(file, &mut totals)?;
    }
    Ok(totals)
}

// Lays 256 operand rows that say their three indices are operands, and how many rows and dwords are in their trees: each is made of the next
// three times over, or all of the first, which is without end.
fn nest_all(rows: &mut [u32; END], endless: bool) {
    let operands = rows[FIRST_OPERAND..FIRST_WORD].chunks_exact_mut(16);
    for ((row, next), left) in operands.zip(1..257).zip((1..257).rev()) {
        row[6] = 3;
        row[7] = 2 + 2 * 8 + 2 * 64;
        row[11..14].fill(if endless { 0 } else { next });
        row[14..].fill(left);
    }
}

// Whether rows and words are refused with 15, with so many rows and with counts that are past every pool.
fn refused(rows: &[u32; END]) -> bool {
    let few = Accepted {
        version: 0x50,
        instructions: 1,
        operands: 256,
        words: 0,
    };
    let most = Accepted {
        version: 0x50,
        instructions: u32::MAX,
        operands: u32::MAX,
        words: u32::MAX,
    };
    [few, most].iter().all(|accepted| {
        let told = Told {
            edition: 3,
            accepted: *accepted,
        };
        gives(told, rows, b"", 2048, Err(Refusal::NoReading))
    })
}

// Whether rows are refused that an encoder which follows their child rows would take for a tree with 3 to the power of 256 rows, or for one
// without end. The instruction has one operand.
fn hostile_refused() -> bool {
    let mut rows = no_rows();
    rows[0] = 8;
    rows[1] = 127;
    rows[2] = 4;
    rows[3] = 1;
    rows[13] = 1;
    nest_all(&mut rows, false);
    let deep_refused = refused(&rows);
    nest_all(&mut rows, true);
    deep_refused && refused(&rows)
}

// Prints how many accepted cases are restored and how many are not, and what came of the changes.
fn print_totals(rt: &impl Print, t: &Totals) -> io::Result<()> {
    println!(rt; "{} restored, {} wrong", t.restored, t.lost)?;
    let changed = t.refused.wrapping_add(t.read_back).wrapping_add(t.wrong);
    println!(rt;
        "{changed} changed: {} refused, {} read back, {} wrong",
        t.refused, t.read_back, t.wrong
    )
}

// Runs the cases and the hostile rows; what is left of the file is lost too.
fn report(rt: &impl Print, file: &mut File) -> io::Result<()> {
    let cases = case_file::number_of_cases(file)?;
    let mut totals = all(file, cases)?;
    if case_file::left_over(file)? {
        totals.count(Outcome::Lost);
    }
    print_totals(rt, &totals)?;
    if hostile_refused() {
        return println!(rt; "hostile rows refused");
    }
    Ok(())
}

// Runs the cases of the file, which stands in data/.
fn main(rt: HostRuntime) -> io::Result<()> {
    let mut file = fs::open(&rt, "cases")?;
    report(&rt, &mut file)
}
