// Measures an instruction: refused with 13 or 14, or the rows and words that it needs.
#![tactic(auto)]

ghost use Rattle.std.specs.Prelude.{◌≡◌, [], ◌∷◌, not, ◌&&◌, ◌/◌, ◌<◌, ◌≤◌, length, get_or, drop, eqb, IfSome};
ghost use Rattle.std.proofs.Math.Option.{none, some};
ghost use Rattle.format.specs.Dwords.{dwords_of};
ghost use Rattle.format.specs.Dwords as d;
ghost use Rattle.format.specs.Counts.{operand_count};
ghost use Rattle.format.specs.Framing.{code};
ghost use Rattle.format.specs.Declarations.{layout};
ghost use Rattle.format.specs.Instructions as ins;
ghost use Rattle.format.specs.Operands as op;
ghost use Rattle.operand.specs.Measures.{measured};
ghost use Rattle.layouts.specs.Shapes.{Sound, Laid, meant, items_of};
ghost use Rattle.instruction_fields.specs.Fields.{sum_of, Declared};
ghost use Rattle.instruction.specs.Measure.{Run, body_of, verdict, by_layout, Judged, Begins, Begun, surplus, Behind, Quick};

use instruction_fields::{
    bare, ends, exact_head, extra, head, item_count, past_dwords, plain, rising, small_at,
};
use layouts::{
    Kind, Shape, counted_layout, declaration, declared, operand_count, uncounted_layout,
};
use operand::Measured;
use tokens::{chain, dimension, dword, dwords, exact_dword, follows, immediate, usual_length};

// What an instruction needs.
#[derive(Clone, Copy)]
pub struct Needs {
    pub rows: usize,
    pub words: usize,
}

// Why an instruction is refused: by check 13, or by check 14.
#[derive(Clone, Copy, PartialEq, Eq)]
pub enum Fault {
    Miscounted,
    Inexact,
}

// An instruction: its own dwords, its token, which is the first of them, and whether it is of model 5.1.
#[derive(Clone, Copy)]
struct Instruction<'a> {
    part: &'a [u8],
    token: u32,
    model51: bool,
    ghost some: { 0 < length (dwords_of part.now) },
    ghost first: { token ≡ get_or (dwords_of part.now) 0 0 },
}

// Operands one after the other: what they need, the place behind them and whether they are exact.
#[derive(Drop)]
pub struct Operands {
    pub rows: usize,
    pub words: usize,
    pub end: usize,
    pub exact: bool,
}

// What the parts of an instruction need, and whether they are exact.
#[derive(Drop)]
pub struct Body {
    pub rows: usize,
    pub words: usize,
    pub exact: bool,
}

// An operand that is not usual: its rows but one, its dwords that are neither rows nor words, all of its dwords and
// whether it is exact.
#[derive(Drop)]
pub struct Surplus {
    pub rows: usize,
    pub skipped: usize,
    pub dwords: usize,
    pub exact: bool,
}

// Why an instruction is refused whose dwords are not those of its layout: by 13 if it has a count, above 0; by 14 otherwise.
fn fault_of(s: Shape) -> Fault
    requires { Sound s }
    ensures { Err result ≡ verdict (ins.fault (meant s)) }
{
    if s.kind == Kind::Counted && 1 < item_count(s) {
        Fault::Miscounted
    } else {
        Fault::Inexact
    }
}

// Whether an operand's dword is exact, has no representations and no immediates, and one extension follows it, which is exact.
fn extends(t: u32, x: u32) -> bool
    ensures { result ≡ (eqb (t / 0x400000) 512 && op.exact_dword t && not (op.immediate t) && not (d.follows x) && op.exact_extension (x ∷ [])) }
{
    (t / 0x40_0000 == 512)
        & exact_dword(t)
        & !immediate(t)
        & !follows(x)
        & tokens::exact_extension(x)
}

// Measures an operand that is not usual; none if it is malformed. Most of them have one extension and are usual otherwise.
fn beside(part: &[u8], at: usize) -> Option<Measured>
    requires { at < length (dwords_of part.now) }
    ensures { result ≡ measured (op.operand 64 (drop at (dwords_of part.now))) }
{
    let n = dwords(part) - at;
    let t = dword(part, at);
    if n < 2 || !extends(t, dword(part, at + 1)) {
        return operand::measure(part, at, 64);
    }
    let indices = dimension(t) as usize;
    if n - 2 < indices {
        return None;
    }
    Some(Measured {
        rows: 1,
        words: indices,
        dwords: 2 + indices,
        exact: true,
    })
}

// Measures an operand that is not usual, by what it has beside a usual one; none if it is malformed.
fn unusual(part: &[u8], at: usize) -> Option<Surplus>
    requires { at < length (dwords_of part.now) }
    ensures { result ≡ surplus (measured (op.operand 64 (drop at (dwords_of part.now)))) }
{
    let it = beside(part, at)?;
    Some(Surplus {
        rows: it.rows - 1,
        skipped: it.dwords - it.words - it.rows,
        dwords: it.dwords,
        exact: it.exact,
    })
}

// Measures so many operands from a place on; none if one is malformed. Most are usual, and are passed by the number of
// their dwords; the rows and dwords that others have beside are counted apart. Each instruction goes through
// it, so it is inlined.
#[inline(always)]
fn operands_of(part: &[u8], from: usize, count: u32) -> Option<Operands>
    requires { from ≤ length (dwords_of part.now) }
    ensures { Run count (dwords_of part.now) from result }
{
    let n = dwords(part);
    let mut more = 0;
    let mut skipped = 0;
    let mut end = from;
    let mut exact = true;
    for _i in 0..count {
        if n <= end {
            return None;
        }
        match usual_length(dword(part, end)) {
            Some(k) => end += k,
            None => {
                let Some(other) = unusual(part, end) else {
                    return None;
                };
                more += other.rows;
                skipped += other.skipped;
                end += other.dwords;
                exact &= other.exact;
            }
        }
    }
    if n < end {
        return None;
    }
    let rows = count as usize + more;
    Some(Operands {
        rows,
        words: end - from - rows - skipped,
        end,
        exact,
    })
}

// The place behind a usual operand, if there is to be one; none if it is not usual.
fn past_usual(part: &[u8], at: usize, operands: u32) -> Option<usize>
    requires { (at ≤ 4) × (operands ≤ 1) }
    ensures { IfSome result (λ end. Behind operands (dwords_of part.now) at end) }
{
    if operands == 0 {
        return Some(at);
    }
    if dwords(part) <= at {
        return None;
    }
    Some(at + usual_length(dword(part, at))?)
}

// The place behind the chain of a token that is plain but for bit 31, as texture instructions have it, if the chain is exact.
fn chained_head(part: &[u8], t: u32) -> Option<usize>
    requires { 0 < length (dwords_of part.now) }
    ensures { IfSome result (λ at. Begun t (dwords_of part.now) at) }
{
    if t < 0x8000_0000 {
        return None;
    }
    if !plain(t - 0x8000_0000) {
        return None;
    }
    let end = chain(part, 1, true)?;
    rising(part, 1, end).then_some(end)
}

impl<'a> Instruction<'a> {
    // Measures its parts, from a place on to its end; none if they do not end with it.
    fn parts_of(self, at: usize, s: Shape) -> Option<Body>
        requires { (at ≤ length (dwords_of self.part.now)) × Sound s }
        ensures { result ≡ body_of (sum_of self.entry.model51 (items_of s) (drop at (dwords_of self.entry.part.now))) }
    {
        let from = past_dwords(self.part, at, s.before)?;
        let operands = operands_of(self.part, from, s.operands)?;
        if !ends(self.part, operands.end, s, self.model51) {
            return None;
        }
        Some(Body {
            rows: operands.rows,
            words: from - at + operands.words + (dwords(self.part) - operands.end),
            exact: operands.exact,
        })
    }

    // Measures it by its shape.
    fn measure_shaped(self, s: Shape) -> Result<Needs, Fault>
        requires { Laid (code self.token) s }
        ensures { result ≡ by_layout self.entry.model51 self.entry.token (dwords_of self.entry.part.now) }
    {
        let Some(end) = head(self.part, s, self.token) else {
            return Err(fault_of(s));
        };
        let Some(body) = self.parts_of(end, s) else {
            return Err(fault_of(s));
        };
        if !body.exact || !exact_head(self.part, s, self.token, end) {
            return Err(Fault::Inexact);
        }
        Ok(Needs {
            rows: body.rows,
            words: body.words,
        })
    }

    // Measures its n operands, which stand from a place on, behind a head that is exact, and its tail.
    fn measure_plain(self, from: usize, n: u32) -> Result<Needs, Fault>
        requires { (operand_count (code self.token) ≡ some n) × Begins self.token (dwords_of self.part.now) from }
        ensures { Judged self.entry.token (dwords_of self.entry.part.now) result }
    {
        let Some(operands) = operands_of(self.part, from, n) else {
            return Err(Fault::Miscounted);
        };
        if !operands.exact {
            return Err(Fault::Inexact);
        }
        Ok(Needs {
            rows: operands.rows,
            words: operands.words + (dwords(self.part) - operands.end),
        })
    }

    // How many dwords it has as a declaration of a bare token, without a list and with at most a usual operand, as most have.
    fn quick(self, s: Shape) -> Option<usize>
        requires { Declared (code self.token) s }
        ensures { IfSome result (λ n. Quick self.entry.model51 self.entry.token s (dwords_of self.entry.part.now) n) }
    {
        if s.list != 0 || !bare(s, self.token) {
            return None;
        }
        let end = past_usual(self.part, 1 + s.before as usize, s.operands)?;
        if !small_at(self.part, end, s.small) {
            return None;
        }
        Some(end + (s.small + s.after + extra(s, self.model51)) as usize)
    }

    // Measures it, if its code has no count.
    fn measure_uncounted(self) -> Result<Needs, Fault>
        requires { operand_count (code self.token) ≡ none }
        ensures { result ≡ by_layout self.entry.model51 self.entry.token (dwords_of self.entry.part.now) }
    {
        if let Some(d) = declaration(self.token % 2048) {
            let s = declared(d);
            let n = dwords(self.part);
            if self.quick(s) == Some(n) {
                let rows = s.operands as usize;
                return Ok(Needs {
                    rows,
                    words: n - 1 - rows,
                });
            }
        }
        self.measure_shaped(uncounted_layout(self.token % 2048))
    }

    // The place behind its head, if its code has a count and the head is plain or chained and exact; the others are left
    // to the general way. Most tokens are plain; the part is lent afresh for the others, which leaves the callers' in registers.
    fn plain_head(self) -> Option<usize>
        ensures { IfSome result (λ at. Begun self.entry.token (dwords_of self.entry.part.now) at) }
    {
        if plain(self.token) {
            return Some(1);
        }
        let p = &self.part[0..self.part.len()];
        chained_head(p, self.token)
    }
}

// Measures an instruction: its own dwords, under a ceiling, in model 5.1 or not.
pub fn measure(part: &[u8], ceiling: u32, model51: bool) -> Result<Needs, Fault>
    requires { 0 < length (dwords_of part.now) }
    ensures { result ≡ verdict (ins.read ceiling model51 (dwords_of part.now)) }
{
    let token = dword(part, 0);
    let code = token % 2048;
    if ceiling <= code {
        return Ok(Needs {
            rows: 0,
            words: dwords(part),
        });
    }
    let it = Instruction {
        part,
        token,
        model51,
    };
    let Some(n) = operand_count(code) else {
        return it.measure_uncounted();
    };
    if let Some(from) = it.plain_head() {
        return it.measure_plain(from, n);
    }
    it.measure_shaped(counted_layout(code, n))
}
