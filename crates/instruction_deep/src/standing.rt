// Where an instruction stands in the pools.

ghost use Rattle.std.specs.Prelude.{◌≤◌, length};

// Where the operands and the words of an instruction stand: from a row on, and from a word on to the end.
#[derive(Clone, Copy)]
pub struct Pools<'a> {
    pub operands: &'a [u32],
    pub row: usize,
    pub words: &'a [u32],
    pub word: usize,
    pub ghost within: { word ≤ length words.now },
}
