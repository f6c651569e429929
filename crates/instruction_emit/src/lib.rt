// Writes the dwords of an instruction whose row, operand rows and words were confirmed.
#![tactic(auto)]

ghost use Rattle.std.specs.Prelude.{◌≡◌, [], ◌∷◌, ℕ, ◌+◌, ◌*◌, ◌^◌, ◌<◌, ◌≤◌, length, take, drop, option_to_list};
ghost use Rattle.format.specs.Encoder as e;
ghost use Rattle.output.specs.Puts.{Headed};
ghost use Rattle.instruction_emit.specs.Emits as w;

use operand_deep::pair;
use operand_emit::{Place, write_words};
use output::{put_dword, put_some};

// Makes a token from its row, but for its length and bit 31.
fn low(row: &[u32; 16]) -> u32
    requires { w.low_of row.now < 2 ^ 32 }
    ensures { result ≡ w.low_of row.now }
{
    row[2] + row[7] * 0x800 + row[4] * 0x2000 + row[5] * 0x4_0000 + row[6] * 0x8_0000
}

// Tells whether the length is in the next dword.
#[tactic(auto, unfolding(format::specs::Encoder::sized_row))]
fn sized(row: &[u32; 16]) -> bool
    ensures { result ≡ e.sized_row row.now }
{
    row[2] == 53 || (row[2] == 145 || row[2] == 146) && 0 < row[8]
}

// Stores the chain of extensions of a row; gives the dword of the output behind it.
fn chain(row: &[u32; 16], output: &mut [u8], at: usize) -> usize
    requires { (e.at 8 row.now < 8) × (e.at 9 row.now < 2 ^ 12) × (e.at 10 row.now < 2 ^ 31) × (4 * (at + length (w.chain_of_row row.now)) ≤ length output.old) }
    ensures { Headed (w.chain_of_row row.now) at output.old result output.new }
{
    let types = row[8];
    let first = 1 + row[9] * 0x200 + u32::from(1 < types) * 0x8000_0000;
    let second = row[10] + types / 4 * 0x8000_0000;
    let at = put_some(output, at, (types % 2 == 1).then_some(first));
    let at = put_some(output, at, (types / 2 % 2 == 1).then_some(second));
    put_some(output, at, (types / 4 == 1).then_some(row[11]))
}

// Stores the token of a row, and what stands after it; gives the dword of the output behind them.
fn head(row: &[u32; 16], output: &mut [u8], at: usize) -> usize
    requires { w.HeadReady row.now at (length output.old) }
    ensures { Headed (w.head_of row.now) at output.old result output.new }
{
    let token = low(row) + u32::from(0 < row[8]) * 0x8000_0000;
    if sized(row) {
        put_dword(output, at, token);
        put_dword(output, at + 1, row[1]);
        return at + 2;
    }
    put_dword(output, at, token + row[1] * 0x100_0000);
    if 3 <= row[3] {
        return at + 1;
    }
    chain(row, output, at + 1)
}

// Tells whether a row is of kind 1 and its token has only a code and a length: most are. What fails most often is asked first.
fn bare(row: &[u32; 16]) -> bool
    ensures { w.Bare row.now result }
{
    pair(row[7], row[8]) == 0 && pair(row[5], row[6]) == 0 && pair(row[3], row[4]) == 1
}

// Writes what stands in front of an instruction's operands: its token and what stands after it, and the word before the operand
// of code 120. Words alone have nothing there.
fn front(row: &[u32; 16], words: &[u32], from: Place, output: &mut [u8]) -> Place
    requires { w.FrontReady row.now (length words.now) from.word from.at (length output.old) }
    ensures fronted { w.Fronted row.now (drop from.word words.now) from.word from.at output.old result output.new }
    ensures operand { result.operand ≡ from.operand }
{
    if bare(row) {
        put_dword(output, from.at, row[2] + row[1] * 0x100_0000);
        return Place {
            operand: from.operand,
            word: from.word,
            at: from.at + 1,
        };
    }
    if row[3] == 0 {
        return from;
    }
    let behind = Place {
        operand: from.operand,
        word: from.word,
        at: head(row, output, from.at),
    };
    write_words(words, behind, usize::from(row[2] == 120), output)
}

// Writes the instruction that was confirmed: its row, its operands' rows from a place on, and its words from there to the last.
pub fn emit(
    row: &[u32; 16],
    operands: &[u32],
    words: &[u32],
    from: Place,
    output: &mut [u8],
) -> Place
    requires { (from.word ≤ length words.now) × w.Ready row.now (drop from.operand operands.now) (drop from.word words.now) from.operand from.word from.at (length output.old) }
    ensures emitted { w.Emitted row.now (drop from.operand operands.now) (drop from.word words.now) from.operand from.word from.at output.old result output.new }
    ensures words { result.word ≡ length words.now }
{
    let mut place = front(row, words, from, output);
    for _ in 0..row[13] {
        place = operand_emit::emit(operands, words, place, 64, output);
    }
    write_words(words, place, words.len() - place.word, output)
}
