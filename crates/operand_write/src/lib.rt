// Writes an operand that was measured: its rows and its words.
#![tactic(auto)]

ghost use Rattle.std.specs.Prelude.{◌≡◌, ◌+◌, ◌-◌, ◌<◌, length, get_or, drop};
ghost use Rattle.std.proofs.Math.Seq.{slice};
ghost use Rattle.format.specs.Dwords.{dwords_of};
ghost use Rattle.format.specs.Operands as op;
ghost use Rattle.operand_write.specs.Writes as w;

use operand_rows::{Front, Sums, make_row, own_words, put_row, single};

// Writes an index of a representation behind what is counted.
#[cycle(extended_index_tree)]
fn index(
    part: &[u8],
    at: usize,
    r: u32,
    left: usize,
    ops: &mut [u32],
    words: &mut [u32],
    row: usize,
    word: usize,
    before: Sums,
) -> Sums
    requires { (0 < left) × w.Ready (op.read_index (op.operand (left - 1)) r (drop (at + before.dwords) (dwords_of part.now))) (length (dwords_of part.now)) at (length ops.old) (length words.old) row word before }
    ensures { w.WroteNext (op.read_index (op.operand (left - 1)) r (drop (at + before.dwords) (dwords_of part.now))) row word before ops.old words.old result ops.new words.new }
{
    let next = own_words(part, at, r, words, before);
    if !tokens::nests(r) {
        return next;
    }
    let from = at + next.dwords;
    let x = extended(
        part,
        from,
        tokens::dword(part, from),
        left - 1,
        &mut ops[next.rows * 16..],
        &mut words[next.words..],
        row + next.rows,
        word + next.words,
    );
    Sums {
        rows: next.rows + x.rows,
        words: next.words + x.words,
        dwords: next.dwords + x.dwords,
    }
}

// Writes an operand by its indices, one after the other; its front is read.
#[cycle(extended_index_tree)]
fn tree(
    front: &Front,
    left: usize,
    ops: &mut [u32],
    words: &mut [u32],
    row: usize,
    word: usize,
) -> Sums
    requires { (0 < left) × w.Front (dwords_of front.now.part.now) front.now.at front.now.body front.now.modifiers × w.Room (op.read_indices (op.operand (left - 1)) front.now.token (slice (front.now.at + 1) front.now.body (dwords_of front.now.part.now)) (drop front.now.body (dwords_of front.now.part.now))) (length ops.old) (length words.old) row word }
    ensures { w.Wrote (op.read_indices (op.operand (left - 1)) front.now.token (slice (front.now.at + 1) front.now.body (dwords_of front.now.part.now)) (drop front.now.body (dwords_of front.now.part.now))) row word ops.old words.old result ops.new words.new }
{
    let Front {
        part,
        token,
        body,
        ..
    } = *front;
    let none = Sums {
        rows: 1,
        words: 0,
        dwords: 0,
    };
    let r0 = tokens::repr(0, token);
    let r1 = tokens::repr(1, token);
    let r2 = tokens::repr(2, token);
    let a = index(part, body, r0, left, ops, words, row, word, none);
    let b = index(part, body, r1, left, ops, words, row, word, a);
    let c = index(part, body, r2, left, ops, words, row, word, b);
    let sums = Sums {
        dwords: body - front.at + c.dwords,
        ..c
    };
    let made = make_row(token, front.modifiers, row, word, a, b, sums);
    put_row(ops, made.numbers());
    sums
}

// Writes an operand with extensions or representations, whose dword is read. Few are such, which the compiler is told, so that the usual ways
// keep the registers. An operand in an index goes this way whatever it has, so that `index` is short and is inlined into `tree`.
#[cycle(extended_index_tree)]
#[cold]
fn extended(
    part: &[u8],
    at: usize,
    token: u32,
    left: usize,
    ops: &mut [u32],
    words: &mut [u32],
    row: usize,
    word: usize,
) -> Sums
    requires { (token ≡ get_or (dwords_of part.now) at 0) × w.Room (op.operand left (drop at (dwords_of part.now))) (length ops.old) (length words.old) row word }
    ensures { w.Wrote (op.operand left (drop at (dwords_of part.now))) row word ops.old words.old result ops.new words.new }
{
    let body = tokens::chain(part, at + 1, tokens::follows(token)).unwrap();
    let front = Front {
        part,
        at,
        token,
        body,
        modifiers: tokens::modifiers_of(part, at + 1, body),
    };
    if tokens::immediate(token) {
        return front.leaf(ops, words, word);
    }
    if token / 0x40_0000 % 512 == 0 {
        return front.flat(ops, words, word);
    }
    tree(&front, left, ops, words, row, word)
}

// Writes an operand that was measured, at a place, with so many depths left. Most have neither extensions nor representations, and of these
// most are exact and have one index: they go a short way.
#[inline(always)]
pub fn write(
    part: &[u8],
    at: usize,
    left: usize,
    ops: &mut [u32],
    words: &mut [u32],
    row: usize,
    word: usize,
) -> Sums
    requires { w.Room (op.operand left (drop at (dwords_of part.now))) (length ops.old) (length words.old) row word }
    ensures { w.Wrote (op.operand left (drop at (dwords_of part.now))) row word ops.old words.old result ops.new words.new }
{
    let token = tokens::dword(part, at);
    if tokens::short(token) {
        return single(part, at, token, ops, words, word);
    }
    if token >= 0x40_0000 {
        return extended(part, at, token, left, ops, words, row, word);
    }
    let front = Front {
        part,
        at,
        token,
        body: at + 1,
        modifiers: 0,
    };
    if tokens::immediate(token) {
        return front.leaf(ops, words, word);
    }
    front.flat(ops, words, word)
}
