// Walks operand rows and words that anybody may have written, the general way, and tells whether they are those of an operand.
#![tactic(auto)]

ghost use Rattle.std.specs.Prelude.{◌≡◌, [], ◌∷◌, ◌+◌, ◌-◌, ◌*◌, ◌^◌, ◌<◌, ◌≤◌, length, get_or, take, drop, option_to_list};
ghost use Rattle.format.specs.Operands as op;
ghost use Rattle.format.specs.Rows as rows;
ghost use Rattle.format.specs.Encoder as e;
ghost use Rattle.operand_deep.specs.Confirm as c;
ghost use Rattle.operand_deep.specs.Walks as w;

// The rows, words and dwords of an operand.
#[derive(Clone, Copy)]
pub struct Walked {
    pub rows: usize,
    pub words: usize,
    pub dwords: usize,
}

// A row and a word of the pools.
#[derive(Clone, Copy)]
struct Place {
    row: usize,
    word: usize,
}

// The place behind an index, and its dwords.
#[derive(Clone, Copy)]
struct Step {
    end: Place,
    dwords: usize,
}

// The dword that a row would be of, and its extension if it has one, both exact.
#[derive(Clone, Copy)]
struct Guess {
    token: u32,
    extension: Option<u32>,
}

// Joins two neighbours, so that they are compared at once.
pub fn pair(a: u32, b: u32) -> u64
    ensures value { result ≡ a + b * 2 ^ 32 }
    ensures low { a < 2 ^ 32 }
{
    u64::from(a) + u64::from(b) * 0x1_0000_0000
}

// Gives bits 0-3 of an operand's dword, by its form.
fn low(form: u32) -> u64
    ensures value { result ≡ get_or (0 ∷ 1 ∷ 2 ∷ 6 ∷ 10 ∷ []) form 0 }
    ensures small { result < 16 }
{
    match form {
        1 => 1,
        2 => 2,
        3 => 6,
        4 => 10,
        _ => 0,
    }
}

// Makes the extension of some modifiers, if there are any. Modifiers that no reader tells give one that is not exact, or that
// has other modifiers.
#[tactic(auto, using(crate::proofs::Fields::extension_none, crate::proofs::Fields::extension_some))]
fn extension(m: u32) -> Option<u64>
    ensures { option_to_list result ≡ e.extension_of m }
{
    if m == 0 {
        return None;
    }
    Some(1 + u64::from(m % 4) * 0x40 + u64::from(m / 16) * 0x4000 + u64::from(m / 4 % 2) * 0x2_0000)
}

// Makes an operand's dword from the numbers of its row and its extension. It is no dword where the numbers are too large.
fn pack(row: &[u32; 16], extension: Option<u64>) -> u64
    ensures { result ≡ op.dword_with (e.at 1 row.now) (e.at 2 row.now) (e.at 0 row.now) (e.at 6 row.now) (e.at 7 row.now) (length (option_to_list extension)) }
{
    let t = low(row[1])
        + u64::from(row[2]) * 0x10
        + u64::from(row[0]) * 0x1000
        + u64::from(row[6]) * 0x10_0000
        + u64::from(row[7]) * 0x40_0000;
    match extension {
        Some(_) => t + 0x8000_0000,
        None => t,
    }
}

// Takes a dword and an extension where they are exact.
#[tactic(auto, using(crate::proofs::Fields::no_token, crate::proofs::Fields::no_extension), unfolding(crate::specs::Walks::guessed, format::specs::Operands::exact_extension))]
fn exact(t: u64, x: Option<u64>) -> Option<Guess>
    ensures { result ≡ w.guessed t (option_to_list x) }
{
    let token = u32::try_from(t).ok()?;
    if !tokens::exact_dword(token) {
        return None;
    }
    let Some(x) = x else {
        return Some(Guess {
            token,
            extension: None,
        });
    };
    let x = u32::try_from(x).ok()?;
    if !tokens::exact_extension(x) {
        return None;
    }
    Some(Guess {
        token,
        extension: Some(x),
    })
}

// Guesses what a row is of.
fn front(row: &[u32; 16]) -> Option<Guess>
    ensures { result ≡ w.guessed (e.operand_dword row.now) (e.extension_of (e.at 3 row.now)) }
{
    let x = extension(row[3]);
    exact(pack(row, x), x)
}

impl Guess {
    // Counts the dwords that the token and its extension take.
    fn dwords(self) -> usize
        ensures value { result ≡ 1 + length (option_to_list self.extension) }
        ensures few { result ≤ 2 }
    {
        1 + usize::from(self.extension.is_some())
    }

    // Gives the modifiers that the reader tells of the extension.
    #[tactic(auto, unfolding(format::specs::Operands::modifiers))]
    fn modifiers(self) -> u32
        ensures { result ≡ op.modifiers (option_to_list self.extension) }
    {
        match self.extension {
            Some(x) => tokens::modifiers(x),
            None => 0,
        }
    }
}

// Gives a place, or 0 if it is not used.
fn placed(used: bool, p: usize) -> usize
    ensures { result ≡ rows.placed used p }
{
    if used { p } else { 0 }
}

// Tells whether a row begins with the numbers of a guess and m immediates at a word.
fn same_front(row: &[u32; 16], guess: Guess, word: usize, m: usize) -> bool
    ensures { result ≡ e.same (take 8 row.now) (w.front_for guess.token (op.modifiers (option_to_list guess.extension)) word m) }
{
    let t = guess.token;
    (row[0] == tokens::type_of(t))
        & (row[1] == tokens::form(t))
        & (row[2] == tokens::selection(t))
        & (row[3] == guess.modifiers())
        & (row[4] as usize == placed(0 < m, word))
        & (row[5] as usize == m)
        & (row[6] == tokens::dimension(t))
        & (row[7] == tokens::reprs(t))
}

// Tells whether a row ends with the places of three indices, and so many rows and dwords.
fn same_back(
    row: &[u32; 16],
    t: u32,
    a: Place,
    b: Place,
    c: Place,
    rows: usize,
    dwords: usize,
) -> bool
    ensures { result ≡ e.same (take 8 (drop 8 row.now)) (w.back_for t a b c rows dwords) }
{
    let i = tokens::repr(0, t);
    let j = tokens::repr(1, t);
    let k = tokens::repr(2, t);
    (row[8] as usize == placed(0 < tokens::own(i), a.word))
        & (row[9] as usize == placed(0 < tokens::own(j), b.word))
        & (row[10] as usize == placed(0 < tokens::own(k), c.word))
        & (row[11] as usize == placed(tokens::nests(i), a.row))
        & (row[12] as usize == placed(tokens::nests(j), b.row))
        & (row[13] as usize == placed(tokens::nests(k), c.row))
        & (row[14] as usize == rows)
        & (row[15] as usize == dwords)
}

// Walks an operand of immediates, which was guessed from its row.
fn leaf(numbers: &[u32; 16], guess: Guess, words: &[u32], row: usize, word: usize) -> Option<Walked>
    requires { row + 1 < 2 ^ 64 }
    ensures { result ≡ w.walked (c.confirm_immediates numbers.now guess.token (option_to_list guess.extension) (drop word words.now) row word) }
{
    if tokens::dimension(guess.token) != 0 {
        return None;
    }
    let m = tokens::immediates(guess.token);
    if words.len().saturating_sub(word) < m {
        return None;
    }
    if !same_front(numbers, guess, word, m) {
        return None;
    }
    let end = Place {
        row: row + 1,
        word: word + m,
    };
    let dwords = guess.dwords() + m;
    if !same_back(numbers, guess.token, end, end, end, 1, dwords) {
        return None;
    }
    Some(Walked {
        rows: 1,
        words: m,
        dwords,
    })
}

// Walks an index of a representation, whose operand, if it has one, stands at a place's row, and whose words at its word. It is inlined into
// `tree`, so that its answer is not passed through memory.
#[cycle(deep_index_tree)]
#[inline(always)]
fn index(operands: &[u32], words: &[u32], at: Place, r: u32, left: usize) -> Option<Step>
    requires { (0 < left) × (16 * at.row ≤ length operands.now) }
    ensures { result ≡ w.reached at (w.there (c.confirm_index (c.confirm (left - 1)) r) operands.now words.now at.row at.word) }
{
    if !tokens::known(r) {
        return None;
    }
    let own = tokens::own(r);
    if words.len().saturating_sub(at.word) < own {
        return None;
    }
    let word = at.word + own;
    if !tokens::nests(r) {
        let end = Place { row: at.row, word };
        return Some(Step { end, dwords: own });
    }
    let child = deep(operands, words, at.row, word, left - 1)?;
    Some(Step {
        end: Place {
            row: at.row + child.rows,
            word: word + child.words,
        },
        dwords: own + child.dwords,
    })
}

// Walks an operand by its indices, one after the other, and compares its row, from which it was guessed.
#[cycle(deep_index_tree)]
fn tree(
    operands: &[u32],
    words: &[u32],
    numbers: &[u32; 16],
    guess: Guess,
    at: Place,
    left: usize,
) -> Option<Walked>
    requires { (0 < left) × (16 * at.row + 16 ≤ length operands.now) }
    ensures { result ≡ w.walked (c.confirm_indices (c.confirm (left - 1)) numbers.now guess.token (option_to_list guess.extension) (drop (16 * (at.row + 1)) operands.now) (drop at.word words.now) at.row at.word) }
{
    let t = guess.token;
    let first = Place {
        row: at.row + 1,
        word: at.word,
    };
    let a = index(operands, words, first, tokens::repr(0, t), left)?;
    let b = index(operands, words, a.end, tokens::repr(1, t), left)?;
    let c = index(operands, words, b.end, tokens::repr(2, t), left)?;
    if !same_front(numbers, guess, at.word, 0) {
        return None;
    }
    let rows = c.end.row - at.row;
    let dwords = guess.dwords() + a.dwords + b.dwords + c.dwords;
    if !same_back(numbers, t, first, a.end, b.end, rows, dwords) {
        return None;
    }
    Some(Walked {
        rows,
        words: c.end.word - at.word,
        dwords,
    })
}

// Walks any operand, with so many depths left. Its children are walked in reading order, never by the rows that point to them.
#[cycle(deep_index_tree)]
pub fn deep(operands: &[u32], words: &[u32], row: usize, word: usize, left: usize) -> Option<Walked>
    ensures { result ≡ w.walked (c.confirm left (drop (16 * row) operands.now) (drop word words.now) row word) }
{
    if left == 0 {
        return None;
    }
    let numbers = operands.as_chunks::<16>().0.get(row)?;
    let guess = front(numbers)?;
    if tokens::immediate(guess.token) {
        return leaf(numbers, guess, words, row, word);
    }
    tree(operands, words, numbers, guess, Place { row, word }, left)
}
