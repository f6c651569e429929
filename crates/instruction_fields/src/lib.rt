// Tells of an instruction's token, its fields and what stands behind it, without looking at its operands.
#![tactic(auto)]

ghost use Rattle.std.specs.Prelude.{◌≡◌, [], ◌∷◌, cond, ℕ, ◌+◌, ◌*◌, ◌-◌, ◌%◌, ◌^◌, ◌<◌, ◌≤◌, length, drop, replicate, ltb, eqb};
ghost use Rattle.std.proofs.Math.Seq.{slice};
ghost use Rattle.format.specs.Dwords.{dwords_of, bits};
ghost use Rattle.format.specs.Framing as fr;
ghost use Rattle.format.specs.Framing.{code};
ghost use Rattle.format.specs.Declarations as dc;
ghost use Rattle.format.specs.Counts as ct;
ghost use Rattle.format.specs.Instructions as ins;
ghost use Rattle.layouts.specs.Shapes.{Sound, kind_number, listed, meant, items_of};
ghost use Rattle.tokens.specs.Chains.{ends as endsOf};
ghost use Rattle.instruction_fields.specs.Places.{dwords_on, small_on, list_on, rest_on};
ghost use Rattle.instruction_fields.specs.Fields.{Passes, Bits, Listed, Ends, rest, fields_in, classed, headed, clear_token, plain_token, bare_token, IsSmall};

use framing::{long, sized};
use layouts::{Kind, Shape, field_of, in_bounds};
use tokens::{DwordList, chain, dword, dwords, follows};

// Past k dwords: the place behind them, if there are so many.
#[tactic(auto, using(crate::proofs::Passing::passes_dwords, crate::proofs::Passing::passes_off))]
pub fn past_dwords<D: DwordList>(part: D, at: usize, k: u32) -> Option<usize>
    requires { at ≤ length (D.listed part) }
    ensures place { result ≡ dwords_on (length (D.listed part)) at k }
    ensures passes { Passes (replicate k dc.d) (D.listed part) at result }
{
    let k = k as usize;
    if part.count() - at < k {
        return None;
    }
    Some(at + k)
}

// Past a dword under 65,536, if there is to be one.
fn past_small<D: DwordList>(part: D, at: usize, small: u32) -> Option<usize>
    ensures { result ≡ small_on small (D.listed part) at }
{
    if small == 0 {
        return Some(at);
    }
    if part.count() <= at || 65536 <= part.at(at) {
        return None;
    }
    Some(at + 1)
}

// How many more dwords a list's first dword says, in its low 16 bits or in all.
pub fn list_length(x: u32, bits: u32) -> u32
    requires { Bits bits }
    ensures { result ≡ x % 2 ^ bits }
{
    if bits == 16 {
        return x % 65536;
    }
    x
}

// Past a list that is counted by so many bits of its first dword, if there is to be one.
fn past_list<D: DwordList>(part: D, at: usize, bits: u32) -> Option<usize>
    requires { Listed bits }
    ensures { result ≡ list_on bits (D.listed part) at }
{
    if bits == 0 {
        return Some(at);
    }
    if part.count() <= at {
        return None;
    }
    past_dwords(part, at + 1, list_length(part.at(at), bits))
}

// The dwords that follow in model 5.1 alone.
pub fn extra(s: Shape, model51: bool) -> u32
    ensures { result ≡ cond model51 s.extra 0 }
{
    if model51 { s.extra } else { 0 }
}

// Past the items behind the operands, to the end if there is a tail.
#[tactic(auto, using(crate::proofs::Passing::listed_of), unfolding(crate::specs::Places::rest_on))]
pub fn past_rest<D: DwordList>(part: D, at: usize, s: Shape, model51: bool) -> Option<usize>
    requires { (at ≤ length (D.listed part)) × Sound s }
    ensures { result ≡ rest_on model51 s (D.listed part) at }
{
    let a = past_small(part, at, s.small)?;
    let b = past_dwords(part, a, s.after + extra(s, model51))?;
    let c = past_list(part, b, s.list)?;
    Some(if s.tail { part.count() } else { c })
}

// Whether the items behind the operands, from a place on, end with the part.
#[tactic(auto, using(crate::proofs::Rests::rest_ends))]
pub fn ends(part: &[u8], at: usize, s: Shape, model51: bool) -> bool
    requires { (at ≤ length (dwords_of part.now)) × Sound s }
    ensures { Ends model51 (rest s) (dwords_of part.now) at result }
{
    past_rest(part, at, s, model51) == Some(dwords(part))
}

// The place behind a token's length dword or extension chain.
#[tactic(auto, unfolding(format::specs::Instructions::read_head, format::specs::Dwords::some, format::specs::Dwords::chain))]
pub fn head(part: &[u8], s: Shape, t: u32) -> Option<usize>
    requires { 0 < length (dwords_of part.now) }
    ensures { result ≡ endsOf 1 (ins.read_head (meant s) t (drop 1 (dwords_of part.now))) }
{
    if sized(t) {
        if dwords(part) < 2 {
            return None;
        }
        return Some(2);
    }
    if s.kind.has_chain() {
        return chain(part, 1, follows(t));
    }
    Some(1)
}

// What a token says beside its code.
#[derive(Clone, Copy, Drop)]
pub struct Fields {
    pub field: u32,
    pub saturate: u32,
    pub test: u32,
    pub precise: u32,
    pub length: u32,
    pub extended: u32,
}

// Whether a code has a test bit.
#[tactic(auto, unfolding(format::specs::Counts::within))]
pub fn tests(code: u32) -> bool
    ensures { result ≡ ct.within code (3 ∷ 5 ∷ 8 ∷ 13 ∷ 31 ∷ 63 ∷ []) }
{
    matches!(code, 3 | 5 | 8 | 13 | 31 | 63)
}

// Bit 18, for the codes that have it.
fn test(t: u32) -> u32
    ensures { result ≡ cond (ct.within (code t) (3 ∷ 5 ∷ 8 ∷ 13 ∷ 31 ∷ 63 ∷ [])) (bits 18 18 t) 0 }
{
    if tests(t % 2048) { t / 0x4_0000 % 2 } else { 0 }
}

// Bits 19 to 22, for kinds 1 to 3.
fn precise(s: Shape, t: u32) -> u32
    ensures { result ≡ cond (ltb (kind_number s.kind) 4) (bits 19 22 t) 0 }
{
    if s.kind.has_flags() {
        t / 0x8_0000 % 16
    } else {
        0
    }
}

// Bits 24 to 30, where the length is not in the next dword.
fn length_bits(t: u32) -> u32
    ensures { result ≡ cond (fr.sized t) 0 (bits 24 30 t) }
{
    if sized(t) { 0 } else { t / 0x100_0000 % 128 }
}

// The code whose field takes bit 13 too.
const SYNC: u32 = 190;

// Bit 13, for kinds 1 to 3 and not for code 190.
#[tactic(auto, unfolding(format::specs::Instructions::fields_of))]
fn saturate(s: Shape, t: u32) -> u32
    ensures { result ≡ (ins.fields_of (meant s) t).saturate }
{
    if s.kind.has_flags() && t % 2048 != SYNC {
        return t / 0x2000 % 2;
    }
    0
}

// Bit 31, for kinds 1 and 2 and the long form.
#[tactic(auto, unfolding(format::specs::Instructions::fields_of))]
fn extended(s: Shape, t: u32) -> u32
    ensures { result ≡ (ins.fields_of (meant s) t).extended }
{
    if s.kind.has_chain() || long(t) {
        return t / 0x8000_0000 % 2;
    }
    0
}

// The parts of a token beside its code.
#[tactic(auto, unfolding(format::specs::Instructions::fields_of))]
pub fn fields_of(s: Shape, t: u32) -> Fields
    requires { Sound s }
    ensures { fields_in result ≡ ins.fields_of (meant s) t }
{
    Fields {
        field: field_of(s, t),
        saturate: saturate(s, t),
        test: test(t),
        precise: precise(s, t),
        length: length_bits(t),
        extended: extended(s, t),
    }
}

// A token is its code and its fields, and has no other bits.
pub fn exact_token(t: u32, f: Fields) -> bool
    ensures { result ≡ eqb t (ct.token_with (code t) (fields_in f)) }
{
    let low = u64::from(t % 2048) + u64::from(f.field) * 0x800 + u64::from(f.saturate) * 0x2000;
    let mid = low + u64::from(f.test) * 0x4_0000 + u64::from(f.precise) * 0x8_0000;
    u64::from(t) == mid + u64::from(f.length) * 0x100_0000 + u64::from(f.extended) * 0x8000_0000
}

// An extension of an instruction has the bits that its type allows.
#[tactic(auto, using(crate::proofs::Chained::other_type), unfolding(format::specs::Counts::lower_bits))]
fn exact_extension(e: u32) -> bool
    ensures { result ≡ eqb e (ct.lower_bits e + bits 31 31 e * 2 ^ 31) }
{
    e % 64 != 1 || e == 1 + e / 0x200 % 0x1000 * 0x200 + e / 0x8000_0000 % 2 * 0x8000_0000
}

// Whether the extensions between two places are of types 1, 2, 3, rising, and exact.
#[tactic(auto, using(crate::proofs::Chained::begin, crate::proofs::Chained::risen))]
pub fn rising(part: &[u8], from: usize, to: usize) -> bool
    requires { (from ≤ to) × (to ≤ length (dwords_of part.now)) }
    ensures { result ≡ ct.rising 0 (slice from to (dwords_of part.now)) }
{
    let mut last = 0;
    for at in from..to {
        let e = dword(part, at);
        let k = e % 64;
        if k <= last || 4 <= k || !exact_extension(e) {
            return false;
        }
        last = k;
    }
    true
}

// Custom data of class 3 has a multiple of 4 dwords after its two.
pub fn exact_class(kind: Kind, t: u32, n: usize) -> bool
    ensures { result ≡ classed (kind_number kind) t n }
{
    kind != Kind::CustomData || t / 0x800 % 32 != 3 || n % 4 == 0
}

// How many items a shape has, those of model 5.1 among them.
#[tactic(auto, using(crate::proofs::Heads::item_sum, crate::proofs::Heads::lists, crate::proofs::Heads::tails))]
pub fn item_count(s: Shape) -> u32
    requires { Sound s }
    ensures { result ≡ length (items_of s) }
{
    let list = u32::from(s.list != 0);
    let tail = u32::from(s.tail);
    s.before + s.operands + s.small + s.after + s.extra + list + tail
}

// Whether the extensions of kinds 1 and 2, which stand before a place, are what they should be.
#[tactic(auto, unfolding(format::specs::Counts::rising))]
fn risen(part: &[u8], kind: Kind, end: usize) -> bool
    requires { (1 ≤ end) × (end ≤ length (dwords_of part.now)) }
    ensures { result ≡ ct.rising 0 (cond (ltb (kind_number kind) 3) (slice 1 end (dwords_of part.now)) []) }
{
    !kind.has_chain() || rising(part, 1, end)
}

// Whether the dwords of an instruction are exactly those of its layout, apart from its parts.
#[tactic(auto, unfolding(crate::specs::Fields::headed, format::specs::Instructions::extensions))]
pub fn exact_head(part: &[u8], s: Shape, t: u32, end: usize) -> bool
    requires { (Sound s) × (1 ≤ end) × (end ≤ length (dwords_of part.now)) }
    ensures { result ≡ headed (meant s) t (slice 1 end (dwords_of part.now)) (length (dwords_of part.now) - end) }
{
    exact_token(t, fields_of(s, t))
        && risen(part, s.kind, end)
        && in_bounds(s, t)
        && exact_class(s.kind, t, dwords(part) - end)
}

// Whether a token has only its code, its length, saturate, test and precise, and no extension.
fn clear(t: u32) -> bool
    ensures { result ≡ clear_token t }
{
    t / 0x800 % 4 == 0 && t / 0x4000 % 16 == 0 && t / 0x80_0000 % 2 == 0 && t / 0x8000_0000 % 2 == 0
}

// The same, and a test only where the code has one. Most have none, which one comparison tells.
pub fn plain(t: u32) -> bool
    ensures { result ≡ plain_token t }
{
    clear(t) && (t / 0x4_0000 % 2 == 0 || tests(t % 2048))
}

// Whether a declaration's token has only its code, its length and a field within its bounds.
pub fn bare(s: Shape, t: u32) -> bool
    requires { Sound s }
    ensures { result ≡ bare_token s t }
{
    t < 0x8000_0000 && t / 0x800 % 0x2000 == field_of(s, t) && in_bounds(s, t)
}

// Whether a dword is under 65,536, if there is to be one.
#[tactic(auto, using(crate::proofs::Passing::small_told))]
pub fn small_at(part: &[u8], at: usize, small: u32) -> bool
    requires { small ≤ 1 }
    ensures { IsSmall small (dwords_of part.now) at result }
{
    past_small(part, at, small).is_some()
}
