// Writes the dwords of an operand whose rows and words were confirmed.
#![tactic(auto)]

ghost use Rattle.std.specs.Prelude.{◌≡◌, ◌≢◌, [], ◌∷◌, ◌++◌, ◌+◌, ◌-◌, ◌*◌, ◌^◌, ◌<◌, ◌≤◌, length, get_or, take, drop, option_to_list};
ghost use Rattle.format.specs.Dwords.{bytes_of};
ghost use Rattle.format.specs.Encoder as e;
ghost use Rattle.output.specs.Puts.{put, Headed};
ghost use Rattle.operand_deep.specs.Confirm as c;
ghost use Rattle.operand_emit.specs.Emits as w;

use operand_deep::pair;
use output::{copy, put_dword};

// Where the row of the next operand begins, the next word, and the next dword of the output.
#[derive(Clone, Copy)]
pub struct Place {
    pub operand: usize,
    pub word: usize,
    pub at: usize,
}

// Gives the row that begins at a place.
fn row_at(operands: &[u32], first: usize) -> &[u32; 16]
    requires { first + 16 ≤ length operands.now }
    ensures { result.now ≡ w.row_from first operands.now }
{
    operands[first..first + 16].first_chunk().unwrap()
}

// Bits 0-3 of an operand's dword, by its form.
static LOW: [u32; 5] = [0, 1, 2, 6, 10];

// Makes the extension of some modifiers, if there are any.
#[tactic(auto, unfolding(format::specs::Encoder::extension_of))]
fn extension(m: u32) -> Option<u32>
    requires { m < 2 ^ 7 }
    ensures { option_to_list result ≡ e.extension_of m }
{
    if m == 0 {
        return None;
    }
    Some(1 + m % 4 * 0x40 + m / 16 * 0x4000 + m / 4 % 2 * 0x2_0000)
}

// Joins the dimension and the representations of a row.
#[tactic(auto, unfolding(format::specs::Encoder::operand_dword))]
fn indices(row: &[u32; 16]) -> u32
    requires { w.Fits row.now }
    ensures { result ≡ e.at 7 row.now * 4 + e.at 6 row.now }
{
    row[7] * 4 + row[6]
}

// Makes an operand's dword from its row, whose dimension and representations were joined, but for bit 31, which tells of an
// extension.
#[tactic(auto, unfolding(format::specs::Encoder::operand_dword))]
fn pack(row: &[u32; 16], indices: u32) -> u32
    requires { w.Fits row.now × (indices ≡ e.at 7 row.now * 4 + e.at 6 row.now) }
    ensures { result + length (e.extension_of (e.at 3 row.now)) * 2 ^ 31 ≡ e.operand_dword row.now }
{
    ((indices * 0x100 + row[0]) * 0x100 + row[2]) * 0x10 + LOW[row[1] as usize]
}

// Stores an operand's dword and the extension of its modifiers; gives the dword of the output behind them.
fn head(row: &[u32; 16], output: &mut [u8], at: usize) -> usize
    requires { w.Fits row.now × (4 * (at + length (w.head_of row.now)) ≤ length output.old) }
    ensures { Headed (w.head_of row.now) at output.old result output.new }
{
    let t = pack(row, indices(row));
    let Some(x) = extension(row[3]) else {
        put_dword(output, at, t);
        return at + 1;
    };
    put_dword(output, at, t + 0x8000_0000);
    put_dword(output, at + 1, x);
    at + 2
}

// Stores the dword of an operand of one index of one dword, without modifiers, and a word behind it.
fn put_with_word(row: &[u32; 16], word: u32, output: &mut [u8], at: usize)
    requires { w.Fits row.now × (e.at 6 row.now ≡ 1) × (e.at 7 row.now ≡ 0) × (e.at 3 row.now ≡ 0) × (4 * (at + 2) ≤ length output.old) }
    ensures { output.new ≡ put (4 * at) (bytes_of (e.operand_dword row.now ∷ word ∷ [])) output.old }
{
    put_dword(output, at, pack(row, 1));
    put_dword(output, at + 1, word);
}

// Writes n words; gives the place behind them.
pub fn write_words(words: &[u32], from: Place, n: usize, output: &mut [u8]) -> Place
    requires { (n ≤ length words.now - from.word) × (4 * (from.at + n) ≤ length output.old) }
    ensures bytes { output.new ≡ put (4 * from.at) (bytes_of (take n (drop from.word words.now))) output.old }
    ensures place { result ≡ record from { word = from.word + n; at = from.at + n } }
{
    copy(words, from.word, n, output, from.at);
    Place {
        operand: from.operand,
        word: from.word + n,
        at: from.at + n,
    }
}

// Writes an operand with no operand in it, whose row the place has passed: its dword and extension, and behind them its words, one
// behind the other.
#[inline(always)]
fn lone(row: &[u32; 16], words: &[u32], from: Place, output: &mut [u8]) -> Place
    requires { w.Lone row.now (length words.now) from.word from.at (length output.old) }
    ensures bytes { output.new ≡ put (4 * from.at) (bytes_of (w.head_of row.now ++ take (w.words_left row.now) (drop from.word words.now))) output.old }
    ensures place { result ≡ record from { word = from.word + w.words_left row.now; at = from.at + e.at 15 row.now } }
{
    let behind = Place {
        at: head(row, output, from.at),
        ..from
    };
    let n = from.at + row[15] as usize - behind.at;
    write_words(words, behind, n, output)
}

// Writes an index of a representation: words of its own, and the operand that stands in it.
#[cycle(deep_index_tree)]
fn index(
    operands: &[u32],
    words: &[u32],
    from: Place,
    r: u32,
    left: usize,
    output: &mut [u8],
) -> Place
    requires { (0 < left) × w.Ready (w.standing (c.confirm_index (c.confirm (left - 1)) r) operands.now words.now from.operand from.word) from.at (length output.old) }
    ensures { w.Emitted (w.standing (c.confirm_index (c.confirm (left - 1)) r) operands.now words.now from.operand from.word) from.operand from.word from.at output.old result output.new }
{
    let next = write_words(words, from, tokens::own(r), output);
    if !tokens::nests(r) {
        return next;
    }
    deep(operands, words, next, left - 1, output)
}

// Writes an operand with an operand in it: its dword and extension, and behind them its indices.
#[cycle(deep_index_tree)]
fn tree(
    row: &[u32; 16],
    operands: &[u32],
    words: &[u32],
    from: Place,
    left: usize,
    output: &mut [u8],
) -> Place
    requires { (row.now ≡ w.row_from from.operand operands.now) × (e.at 14 row.now ≢ 1) × w.Ready (w.standing (c.confirm left) operands.now words.now from.operand from.word) from.at (length output.old) }
    ensures { w.Emitted (w.standing (c.confirm left) operands.now words.now from.operand from.word) from.operand from.word from.at output.old result output.new }
{
    let t = pack(row, indices(row));
    let behind = Place {
        operand: from.operand + 16,
        word: from.word,
        at: head(row, output, from.at),
    };
    let a = index(operands, words, behind, tokens::repr(0, t), left, output);
    let b = index(operands, words, a, tokens::repr(1, t), left, output);
    index(operands, words, b, tokens::repr(2, t), left, output)
}

// Writes the operand that was confirmed at a place, the general way. It stands apart, so that `emit` can be inlined: few operands
// come here.
#[cycle(deep_index_tree)]
#[cold]
fn deep(operands: &[u32], words: &[u32], from: Place, left: usize, output: &mut [u8]) -> Place
    requires { w.Ready (w.standing (c.confirm left) operands.now words.now from.operand from.word) from.at (length output.old) }
    ensures { w.Emitted (w.standing (c.confirm left) operands.now words.now from.operand from.word) from.operand from.word from.at output.old result output.new }
{
    let row = row_at(operands, from.operand);
    if row[14] != 1 {
        return tree(row, operands, words, from, left, output);
    }
    let behind = Place {
        operand: from.operand + 16,
        ..from
    };
    lone(row, words, behind, output)
}

// Writes the operand that was confirmed at a place. Most have no operand in them: their words stand one behind the other, behind
// their dword and its extension. Most of these have one index of one dword, and no extension.
#[inline(always)]
pub fn emit(operands: &[u32], words: &[u32], from: Place, left: usize, output: &mut [u8]) -> Place
    requires { w.Ready (w.standing (c.confirm left) operands.now words.now from.operand from.word) from.at (length output.old) }
    ensures { w.Emitted (w.standing (c.confirm left) operands.now words.now from.operand from.word) from.operand from.word from.at output.old result output.new }
{
    let Place { operand, word, at } = from;
    let row = row_at(operands, operand);
    if pair(row[6], row[7]) == 1 && row[3] == 0 {
        put_with_word(row, words[word], output, at);
        return Place {
            operand: operand + 16,
            word: word + 1,
            at: at + 2,
        };
    }
    if row[14] != 1 {
        return deep(operands, words, Place { operand, word, at }, left, output);
    }
    let behind = Place {
        operand: operand + 16,
        word,
        at,
    };
    lone(row, words, behind, output)
}
