// Asks for the words, what is shown and the offsets of some rows, and compares.
#![tactic(auto)]

use format::{Offsets, Shown};
use std::io;

// What row 1 holds, of the words that the calls read; its others are 0.
#[derive(Clone, Copy, Drop)]
struct Row {
    code: u32,
    kind: u32,
    extensions: u32,
    nibbles: u32,
    start: u32,
    length: u32,
}

// What should be shown: a float stands beside those that are no number, since those are equal to nothing.
#[derive(Clone, Copy, Drop)]
enum Wanted {
    Nothing,
    Count(u32),
    Factor(f32),
    NoNumber,
}

use Wanted::{Count, Factor, NoNumber, Nothing};

// A row number and a count that are asked for, and what is wanted: how many words, the first of them, what is shown, and u, v and w.
#[derive(Clone, Copy, Drop)]
struct Case {
    row: u32,
    count: u32,
    holds: Row,
    words: usize,
    first: Option<u32>,
    shown: Wanted,
    offsets: (i8, i8, i8),
}

const CASES: [Case; 16] = [
    Case {
        row: 1,
        count: 2,
        holds: Row {
            code: 152,
            kind: 4,
            extensions: 0,
            nibbles: 0xF87,
            start: 1,
            length: 1,
        },
        words: 1,
        first: Some(0x3FC0_0000),
        shown: Factor(1.5),
        offsets: (0, 0, 0),
    },
    Case {
        row: 1,
        count: 2,
        holds: Row {
            code: 152,
            kind: 4,
            extensions: 0,
            nibbles: 0,
            start: 2,
            length: 1,
        },
        words: 1,
        first: Some(0x7FC0_0000),
        shown: NoNumber,
        offsets: (0, 0, 0),
    },
    Case {
        row: 1,
        count: 2,
        holds: Row {
            code: 144,
            kind: 4,
            extensions: 1,
            nibbles: 0xF87,
            start: 0,
            length: 1,
        },
        words: 1,
        first: Some(7),
        shown: Count(7),
        offsets: (7, -8, -1),
    },
    Case {
        row: 1,
        count: 2,
        holds: Row {
            code: 206,
            kind: 4,
            extensions: 7,
            nibbles: 0x0F8,
            start: 3,
            length: 1,
        },
        words: 1,
        first: Some(5),
        shown: Count(5),
        offsets: (-8, -1, 0),
    },
    Case {
        row: 1,
        count: 2,
        holds: Row {
            code: 152,
            kind: 1,
            extensions: 3,
            nibbles: 0x1000,
            start: 1,
            length: 1,
        },
        words: 1,
        first: Some(0x3FC0_0000),
        shown: Nothing,
        offsets: (0, 0, 0),
    },
    Case {
        row: 1,
        count: 2,
        holds: Row {
            code: 95,
            kind: 4,
            extensions: 2,
            nibbles: 0xF87,
            start: 1,
            length: 1,
        },
        words: 1,
        first: Some(0x3FC0_0000),
        shown: Nothing,
        offsets: (0, 0, 0),
    },
    Case {
        row: 1,
        count: 2,
        holds: Row {
            code: 152,
            kind: 4,
            extensions: 0,
            nibbles: 0,
            start: 1,
            length: 2,
        },
        words: 2,
        first: Some(0x3FC0_0000),
        shown: Nothing,
        offsets: (0, 0, 0),
    },
    Case {
        row: 1,
        count: 2,
        holds: Row {
            code: 152,
            kind: 4,
            extensions: 0,
            nibbles: 0,
            start: 1,
            length: 0,
        },
        words: 0,
        first: None,
        shown: Nothing,
        offsets: (0, 0, 0),
    },
    Case {
        row: 1,
        count: 2,
        holds: Row {
            code: 152,
            kind: 4,
            extensions: 0,
            nibbles: 0,
            start: 4,
            length: 0,
        },
        words: 0,
        first: None,
        shown: Nothing,
        offsets: (0, 0, 0),
    },
    Case {
        row: 1,
        count: 2,
        holds: Row {
            code: 152,
            kind: 4,
            extensions: 0,
            nibbles: 0,
            start: 0,
            length: 4,
        },
        words: 4,
        first: Some(7),
        shown: Nothing,
        offsets: (0, 0, 0),
    },
    Case {
        row: 1,
        count: 2,
        holds: Row {
            code: 144,
            kind: 4,
            extensions: 1,
            nibbles: 0x111,
            start: 4,
            length: 1,
        },
        words: 0,
        first: None,
        shown: Nothing,
        offsets: (1, 1, 1),
    },
    Case {
        row: 1,
        count: 2,
        holds: Row {
            code: 144,
            kind: 4,
            extensions: 1,
            nibbles: 0x111,
            start: 0xFFFF_FFFF,
            length: 2,
        },
        words: 0,
        first: None,
        shown: Nothing,
        offsets: (1, 1, 1),
    },
    Case {
        row: 1,
        count: 1,
        holds: Row {
            code: 144,
            kind: 4,
            extensions: 1,
            nibbles: 0x111,
            start: 0,
            length: 1,
        },
        words: 0,
        first: None,
        shown: Nothing,
        offsets: (0, 0, 0),
    },
    Case {
        row: 2,
        count: 3,
        holds: Row {
            code: 144,
            kind: 4,
            extensions: 1,
            nibbles: 0x111,
            start: 0,
            length: 1,
        },
        words: 0,
        first: None,
        shown: Nothing,
        offsets: (0, 0, 0),
    },
    Case {
        row: 0x1000_0001,
        count: 0xFFFF_FFFF,
        holds: Row {
            code: 144,
            kind: 4,
            extensions: 1,
            nibbles: 0x111,
            start: 0,
            length: 1,
        },
        words: 0,
        first: None,
        shown: Nothing,
        offsets: (0, 0, 0),
    },
    Case {
        row: 0,
        count: 1,
        holds: Row {
            code: 144,
            kind: 4,
            extensions: 1,
            nibbles: 0x111,
            start: 0,
            length: 1,
        },
        words: 0,
        first: None,
        shown: Nothing,
        offsets: (0, 0, 0),
    },
];

// Whether what is shown is what was wanted.
fn same_shown(shown: Shown, wanted: Wanted) -> bool {
    match (shown, wanted) {
        (Shown::Nothing, Nothing) => true,
        (Shown::Count(n), Count(m)) => n == m,
        (Shown::Factor(f), Factor(g)) => f == g,
        (Shown::Factor(f), NoNumber) => f.is_nan(),
        _ => false,
    }
}

// Whether the three answers are those wanted. Row 0 is all zero, and the word pool has four words.
fn right(case: &Case) -> bool {
    let mut pool = [0u32; 32];
    let holds = case.holds;
    pool[18] = holds.code;
    pool[19] = holds.kind;
    pool[24] = holds.extensions;
    pool[25] = holds.nibbles;
    pool[30] = holds.start;
    pool[31] = holds.length;
    let words: [u32; 4] = [7, 0x3FC0_0000, 0x7FC0_0000, 5];
    let part = rows::words_of(&pool, &words, case.row, case.count);
    let shown = rows::shows(&pool, &words, case.row, case.count);
    let (u, v, w) = case.offsets;
    part.len() == case.words
        && part.first().copied() == case.first
        && same_shown(shown, case.shown)
        && rows::offsets(&pool, case.row, case.count) == Offsets { u, v, w }
}

// Prints how many cases are right, and how many wrong.
fn main(rt: HostRuntime) -> io::Result<()> {
    let right = CASES.iter().filter(|case| right(case)).count();
    println!(rt; "{right} right, {} wrong", CASES.len() - right)
}
