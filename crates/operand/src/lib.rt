// Measures an operand, and writes nothing.
#![tactic(auto)]

mod front;

ghost use Rattle.std.specs.Prelude.{◌≡◌, ◌-◌, ◌<◌, ◌≤◌, length, drop};
ghost use Rattle.format.specs.Dwords.{dwords_of};
ghost use Rattle.format.specs.Operands as op;
ghost use Rattle.operand.specs.Measures as m;

use front::Front;

// The rows and words that an operand needs, the dwords that it takes, and whether they are exact.
#[derive(Clone, Copy)]
pub struct Measured {
    pub rows: usize,
    pub words: usize,
    pub dwords: usize,
    pub exact: bool,
}

// Measures an index of a representation at a place; none if it is malformed.
#[cycle(measure_index_tree)]
fn index(part: &[u8], at: usize, r: u32, left: usize) -> Option<Measured>
    requires { (at ≤ length (dwords_of part.now)) × (0 < left) }
    ensures { result ≡ m.measured (op.read_index (op.operand (left - 1)) r (drop at (dwords_of part.now))) }
{
    if !tokens::known(r) {
        return None;
    }
    let own = tokens::own(r);
    if tokens::dwords(part) - at < own {
        return None;
    }
    if !tokens::nests(r) {
        return Some(Measured {
            rows: 0,
            words: own,
            dwords: own,
            exact: true,
        });
    }
    let inner = measure(part, at + own, left - 1)?;
    Some(Measured {
        words: own + inner.words,
        dwords: own + inner.dwords,
        ..inner
    })
}

// Measures an operand at a place, with so many depths left: 64 at depth 0; none if it is malformed.
#[cycle(measure_index_tree)]
pub fn measure(part: &[u8], at: usize, left: usize) -> Option<Measured>
    ensures { result ≡ m.measured (op.operand left (drop at (dwords_of part.now))) }
{
    let front = Front::read(part, at, left)?;
    if tokens::immediate(front.token) {
        return front.leaf();
    }
    if front.token / 0x40_0000 % 512 == 0 {
        return front.flat();
    }
    front.tree(left)
}
