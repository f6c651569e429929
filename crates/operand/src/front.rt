// The front of an operand, and what is measured from there on.

ghost use Rattle.std.specs.Prelude.{◌≡◌, ◌-◌, ◌<◌, drop, IfSome};
ghost use Rattle.format.specs.Dwords.{dwords_of};
ghost use Rattle.format.specs.Operands as op;
ghost use Rattle.operand.specs.Standing.{Stands};

use super::{Measured, index};

// The front of an operand that stands at a place of its part: its dword, the place behind its extensions, and whether
// both are exact.
#[derive(Drop)]
pub struct Front<'a> {
    pub part: &'a [u8],
    pub at: usize,
    pub token: u32,
    pub body: usize,
    pub exact: bool,
    pub ghost stands: { Stands (dwords_of part.now) at token body exact },
}

impl<'a> Front<'a> {
    ghost use Rattle.operand.specs.Measures as m;

    // Reads the front of an operand at a place, with so many depths left; none if no depth is left or
    // the part ends before.
    pub fn read(part: &'a [u8], at: usize, left: usize) -> Option<Front<'a>>
        ensures told { m.told result ≡ m.fronted at (m.front left (drop at (dwords_of part.now))) }
        ensures placed { IfSome result (λ f. (f.part.now ≡ part.now) × (f.at ≡ at)) }
    {
        if left == 0 {
            return None;
        }
        if tokens::dwords(part) <= at {
            return None;
        }
        let token = tokens::dword(part, at);
        let body = tokens::chain(part, at + 1, tokens::follows(token))?;
        let exact = tokens::exact_dword(token) & tokens::exact_extensions(part, at + 1, body);
        Some(Front {
            part,
            at,
            token,
            body,
            exact,
        })
    }

    // Measures an operand of so many words, in which no operand stands; none if its part ends before.
    fn with_words(&self, words: usize) -> Option<Measured>
        ensures { result ≡ m.with_words self.now words }
    {
        let left = tokens::dwords(self.part) - self.body;
        if left < words {
            return None;
        }
        Some(Measured {
            rows: 1,
            words,
            dwords: self.body - self.at + words,
            exact: self.exact,
        })
    }

    // Measures an operand of immediates.
    pub fn leaf(&self) -> Option<Measured>
        ensures { result ≡ m.measured (op.read_immediates self.now.token (m.extensions self.now) (m.behind self.now)) }
    {
        if tokens::dimension(self.token) != 0 {
            return None;
        }
        self.with_words(tokens::immediates(self.token))
    }

    // Measures an operand whose indices are one dword each.
    pub fn flat(&self) -> Option<Measured>
        requires { m.Flat self.now.token }
        ensures { m.AnyDepth result self.now.token (m.extensions self.now) (m.behind self.now) }
    {
        self.with_words(tokens::dimension(self.token) as usize)
    }

    // Measures an operand by its indices, one after the other.
    #[cycle(measure_index_tree)]
    pub fn tree(&self, left: usize) -> Option<Measured>
        requires { 0 < left }
        ensures { result ≡ m.measured (op.read_indices (op.operand (left - 1)) self.now.token (m.extensions self.now) (m.behind self.now)) }
    {
        let mut rows = 1;
        let mut words = 0;
        let mut place = self.body;
        let mut exact = self.exact;
        for i in 0..tokens::dimension(self.token) {
            let m = index(self.part, place, tokens::repr(i, self.token), left)?;
            rows += m.rows;
            words += m.words;
            place += m.dwords;
            exact &= m.exact;
        }
        Some(Measured {
            rows,
            words,
            dwords: place - self.at,
            exact,
        })
    }
}
