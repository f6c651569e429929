// Walks the row of an instruction, the rows of its operands and its words, which anybody may have written. Most rows are
// usual and have a short way; the others go the general way.
#![tactic(auto)]

ghost use Rattle.std.specs.Prelude.{◌≡◌, ◌*◌, ◌^◌, ◌<◌, ◌≤◌, true, length, get_or, drop, IfSome, Some};
ghost use Rattle.layouts.specs.Shapes.{Sound};
ghost use Rattle.instruction_fields.specs.Fields.{Declared};
ghost use Rattle.instruction_deep.specs.Confirm as c;
ghost use Rattle.instruction_deep.specs.Walks.{rows_in, words_in, walked_instruction, Counts, Unchained};
ghost use Rattle.instruction_walk.specs.Short.{Counted, Bits, Plain, Ready, Linked, chain_in, KnownIf, Stepped, Fitting, OnlyField, Lone};

mod edition;

pub use edition::Rules;
use instruction_deep::{Pools, Walked, chained, known, operands_of, past_rest, placed, unread};
use instruction_fields::{past_dwords, tests};
use layouts::{Shape, declaration, declared, operand_count};
use operand_deep::pair;

// Whether a token of a code with a test holds saturate and test, which is set, as they are.
fn tested(code: u32, saturate: u32, test: u32) -> bool
    ensures { result ≡ true → Bits code saturate test }
{
    saturate < 2 && test == 1 && tests(code)
}

// Whether a row tells of nothing after its token, by two words at once.
fn unextended(instruction: &[u32; 16]) -> bool
    ensures { result ≡ true → Unchained instruction.now 0 }
{
    pair(instruction[10], instruction[11]) == 0 && pair(instruction[8], instruction[9]) == 0
}

// Whether a row has no field, and other numbers that a token holds as they are.
fn plain(instruction: &[u32; 16]) -> bool
    ensures { result ≡ true → Plain instruction.now }
{
    if 2 <= pair(instruction[4], instruction[5])
        && !tested(instruction[2], instruction[4], instruction[5])
    {
        return false;
    }
    pair(instruction[6], instruction[7]) < 16 && instruction[2] != 190
}

// Whether a row is plain and tells this place, first operand row, first word and number of words.
fn ready(instruction: &[u32; 16], place: usize, row: usize, word: usize, words: usize) -> bool
    ensures { result ≡ true → Ready instruction.now place row word words }
{
    instruction[0] as usize == place
        && instruction[12] as usize == row
        && instruction[14] as usize == word
        && instruction[15] as usize == words
        && plain(instruction)
}

// Counts the dwords of the chain that words 8 to 11 of a row tell; none where they tell no chain that a reader takes. Most
// rows tell of an empty one.
#[tactic(auto, using(crate::proofs::Chain::unlinked))]
#[inline(always)]
fn linked(instruction: &[u32; 16]) -> Option<usize>
    ensures { Counts (Linked instruction.now) (length (chain_in instruction.now)) result }
{
    if unextended(instruction) {
        return Some(0);
    }
    let bits = instruction[8];
    chained(
        0 < bits,
        bits,
        instruction[9],
        instruction[10],
        instruction[11],
    )
}

// Walks an instruction of a code with a count, where its row is plain and the operands have one row or two each: behind them
// are words as they are. None says nothing.
fn quick(instruction: &[u32; 16], place: usize, pools: &Pools) -> Option<Walked>
    requires { (get_or instruction.now 2 0 < 2048) × (get_or instruction.now 3 0 ≡ 1) }
    ensures { KnownIf instruction.now place (rows_in pools.now) (words_in pools.now) pools.now.row pools.now.word result }
{
    let end = pools.words.len();
    let rest = end - pools.word;
    if 0x1_0000_0000 <= end || !ready(instruction, place, pools.row, pools.word, rest) {
        return None;
    }
    let count = operand_count(instruction[2])?;
    let k = count as usize;
    if instruction[13] != count || pools.operands.len() / 16 < pools.row + k {
        return None;
    }
    let ran = operand_walk::run(pools.operands, pools.row, pools.word, k, end)?;
    let dwords = 1 + k + rest + ran.dwords + linked(instruction)?;
    if 128 <= dwords || instruction[1] as usize != dwords {
        return None;
    }
    Some(Walked {
        rows: k + ran.rows,
        dwords,
    })
}

// Walks an instruction of a code with so many operands, where its row is plain, by its operands one after the other. None
// says nothing.
fn by_count(instruction: &[u32; 16], place: usize, pools: &Pools, count: u32) -> Option<Walked>
    requires { Counted instruction.now count }
    ensures { KnownIf instruction.now place (rows_in pools.now) (words_in pools.now) pools.now.row pools.now.word result }
{
    if !plain(instruction) {
        return None;
    }
    let end = pools.words.len();
    let rest = end - pools.word;
    if !placed(instruction, place, 1, pools.row, count, pools.word, rest) {
        return None;
    }
    let past = operands_of(pools, count)?;
    let chain = linked(instruction)?;
    let dwords = 1 + chain + past.dwords + (end - past.word);
    if 128 <= dwords || instruction[1] as usize != dwords {
        return None;
    }
    Some(Walked {
        rows: past.row - pools.row,
        dwords,
    })
}

// Whether a token holds a field as it is, within its bounds. No field that begins at another bit than 11 is bounded.
#[tactic(auto, using(crate::proofs::Fitting::far_fits, crate::proofs::Fitting::bounded_fits))]
fn field_fits(s: Shape, f: u32) -> bool
    requires { Sound s × Stepped s }
    ensures { result ≡ true → Fitting s f }
{
    if s.first != 11 {
        return f % 32 == 0 && f / 32 < 1u32 << s.width;
    }
    if 1u32 << s.width <= f {
        return false;
    }
    if s.bounded == 0 {
        return true;
    }
    let x = f % (1u32 << s.bounded);
    s.lo <= x && x <= s.hi
}

// Whether a row of a short declaration has nothing but a field, which its token holds within its bounds.
fn only_field(instruction: &[u32; 16], s: Shape) -> bool
    requires { (get_or instruction.now 2 0 < 2048) × Sound s × Stepped s }
    ensures { result ≡ true → OnlyField instruction.now s }
{
    pair(instruction[4], instruction[5]) == 0
        && instruction[6] == 0
        && unextended(instruction)
        && instruction[1] < 128
        && field_fits(s, instruction[7])
}

// Past an operand that stands alone and has no extension, at the pools' row and a word, if there is to be one. None says
// nothing.
#[tactic(auto, using(crate::proofs::Declared::no_lone, crate::proofs::Declared::lone_fits, crate::proofs::Declared::one_lone))]
fn past_lone(pools: &Pools, at: usize, count: u32) -> Option<usize>
    requires { (at ≤ length pools.now.words.now) × (count ≤ 1) }
    ensures { Lone count pools.now.operands.now pools.now.words.now pools.now.row at result }
{
    if count == 0 {
        return Some(at);
    }
    let end = pools.words.len();
    if 0x1_0000_0000 <= end || pools.operands.len() / 16 <= pools.row {
        return None;
    }
    let ran = operand_walk::run(pools.operands, pools.row, at, 1, end)?;
    if ran.rows != 0 || ran.dwords != 0 {
        return None;
    }
    Some(at + pools.operands[16 * pools.row + 15] as usize - 1)
}

// Walks a declaration whose row has only a field, where its operand stands alone. None says nothing.
fn short_declaration(
    instruction: &[u32; 16],
    place: usize,
    model51: bool,
    pools: &Pools,
    s: Shape,
) -> Option<Walked>
    requires { OnlyField instruction.now s × Declared (get_or instruction.now 2 0) s }
    ensures { IfSome result (λ x. Some x ≡ walked_instruction (c.confirm_known model51 instruction.now place (rows_in pools.now) (words_in pools.now) pools.now.row pools.now.word)) }
{
    let a = past_dwords(pools.words, pools.word, s.before)?;
    let b = past_lone(pools, a, s.operands)?;
    let k = past_rest(pools.words, b, s, model51)? - pools.word;
    let kind = s.kind.number();
    if !placed(
        instruction,
        place,
        kind,
        pools.row,
        s.operands,
        pools.word,
        k,
    ) {
        return None;
    }
    let rows = s.operands as usize;
    let dwords = 1 + rows + k;
    if instruction[1] as usize != dwords {
        return None;
    }
    Some(Walked { rows, dwords })
}

// Walks the instruction that `walk` walks, of a code with a count or of a declaration, where its row is usual and its operands
// stand alone, or have one operand in an index. None says nothing.
#[tactic(auto, using(crate::proofs::Ceiling::quick_known, crate::proofs::Ceiling::if_known))]
pub fn usual(instruction: &[u32; 16], place: usize, rules: Rules, pools: &Pools) -> Option<Walked>
    ensures { IfSome result (λ x. Some x ≡ walked_instruction (c.confirm_instruction rules.ceiling rules.model51 instruction.now place (rows_in pools.now) (words_in pools.now) pools.now.row pools.now.word)) }
{
    let code = instruction[2];
    if rules.ceiling <= code {
        return None;
    }
    if instruction[3] == 1 {
        return quick(instruction, place, pools);
    }
    let s = declared(declaration(code)?);
    if !only_field(instruction, s) {
        return None;
    }
    short_declaration(instruction, place, rules.model51, pools, s)
}

// Walks it the general way. It is kept out of the loops of callers, most of whose rows do not come here.
#[tactic(auto, using(crate::proofs::Ceiling::by_unread, crate::proofs::Ceiling::by_known))]
#[cold]
fn general(instruction: &[u32; 16], place: usize, rules: Rules, pools: &Pools) -> Option<Walked>
    ensures { result ≡ walked_instruction (c.confirm_instruction rules.ceiling rules.model51 instruction.now place (rows_in pools.now) (words_in pools.now) pools.now.row pools.now.word) }
{
    let code = instruction[2];
    if rules.ceiling <= code {
        return unread(instruction, place, pools);
    }
    if let Some(count) = operand_count(code) {
        if let Some(walked) = by_count(instruction, place, pools, count) {
            return Some(walked);
        }
    }
    known(instruction, place, rules.model51, pools)
}

// Walks the instruction of a row whose token stands at a place, from an operand row on and a word on; the words end with the
// instruction's own. Codes from the ceiling on are unread. It is inlined, and the general way has a copy of the pools: so what
// they hold stays in registers on the short way.
#[inline(always)]
pub fn walk(instruction: &[u32; 16], place: usize, rules: Rules, pools: &Pools) -> Option<Walked>
    ensures { result ≡ walked_instruction (c.confirm_instruction rules.ceiling rules.model51 instruction.now place (rows_in pools.now) (words_in pools.now) pools.now.row pools.now.word) }
{
    if let Some(walked) = usual(instruction, place, rules, pools) {
        return Some(walked);
    }
    let copied = *pools;
    general(instruction, place, rules, &copied)
}
