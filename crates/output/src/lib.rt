// Stores dwords and words in an output.
#![tactic(auto)]

ghost use Rattle.std.specs.Prelude.{◌≡◌, [], ◌∷◌, ◌+◌, ◌-◌, ◌*◌, ◌≤◌, length, take, drop, option_to_list};
ghost use Rattle.format.specs.Dwords.{bytes_of};
ghost use Rattle.output.specs.Puts.{put, Headed};

// Stores a dword's four bytes, the lowest first.
pub fn put_dword(output: &mut [u8], at: usize, x: u32)
    requires { 4 * (at + 1) ≤ length output.old }
    ensures { output.new ≡ put (4 * at) (bytes_of (x ∷ [])) output.old }
{
    let i = 4 * at;
    let [a, b, c, d] = x.to_le_bytes();
    output[i] = a;
    output[i + 1] = b;
    output[i + 2] = c;
    output[i + 3] = d;
}

// Stores a dword, if there is one; gives the dword of the output behind it.
pub fn put_some(output: &mut [u8], at: usize, x: Option<u32>) -> usize
    requires { 4 * (at + length (option_to_list x)) ≤ length output.old }
    ensures { Headed (option_to_list x) at output.old result output.new }
{
    let Some(x) = x else {
        return at;
    };
    put_dword(output, at, x);
    at + 1
}

// Copies n words from a word on, one after the other. It stands apart, so that `copy` can be inlined.
#[inline(never)]
fn copy_each(words: &[u32], word: usize, n: usize, output: &mut [u8], at: usize)
    requires { (n ≤ length words.now - word) × (4 * (at + n) ≤ length output.old) }
    ensures { output.new ≡ put (4 * at) (bytes_of (take n (drop word words.now))) output.old }
{
    for i in 0..n {
        put_dword(output, at + i, words[word + i]);
    }
}

// Copies n words from a word on, none or two of them without a loop.
fn copy_few(words: &[u32], word: usize, n: usize, output: &mut [u8], at: usize)
    requires { (n ≤ length words.now - word) × (4 * (at + n) ≤ length output.old) }
    ensures { output.new ≡ put (4 * at) (bytes_of (take n (drop word words.now))) output.old }
{
    match n {
        0 => {}
        2 => {
            put_dword(output, at, words[word]);
            put_dword(output, at + 1, words[word + 1]);
        }
        _ => copy_each(words, word, n, output, at),
    }
}

// Copies n words from a word on; none, one, two or four of them without a loop: few operands have other numbers of words.
pub fn copy(words: &[u32], word: usize, n: usize, output: &mut [u8], at: usize)
    requires { (n ≤ length words.now - word) × (4 * (at + n) ≤ length output.old) }
    ensures { output.new ≡ put (4 * at) (bytes_of (take n (drop word words.now))) output.old }
{
    if n == 0 {
        return;
    }
    put_dword(output, at, words[word]);
    if n == 1 {
        return;
    }
    put_dword(output, at + 1, words[word + 1]);
    copy_few(words, word + 2, n - 2, output, at + 2);
}
