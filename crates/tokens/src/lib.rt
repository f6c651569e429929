// Dwords out of bytes, the fields of an operand's dword, and chains of extensions.
#![tactic(auto)]

ghost use Rattle.std.specs.Prelude.{◌≡◌, List, [], ◌∷◌, ℕ, ◌+◌, ◌*◌, ◌-◌, ◌/◌, ◌%◌, ◌^◌, ◌<◌, ◌≤◌, length, get_or, drop, ◌&&◌, eqb, ltb};
ghost use Rattle.std.proofs.Math.Seq.{slice};
ghost use Rattle.format.specs.Dwords as d;
ghost use Rattle.format.specs.Dwords.{dwords_of};
ghost use Rattle.format.specs.Operands as op;
ghost use Rattle.tokens.specs.Chains.{ends};
ghost use Rattle.tokens.specs.Low.{allowed_bits};
ghost use Rattle.tokens.specs.Usuals.{stray_bits, usual_length};

// How many dwords a part has.
#[tactic(auto, using(format::proofs::Dwords::length_dwords))]
pub fn dwords(part: &[u8]) -> usize
    ensures { result ≡ length (dwords_of part.now) }
{
    part.len() / 4
}

// The dword at a place.
#[tactic(auto, using(format::proofs::Dwords::length_dwords))]
pub fn dword(part: &[u8], k: usize) -> u32
    requires { k < length (dwords_of part.now) }
    ensures { result ≡ get_or (dwords_of part.now) k 0 }
{
    let i = k * 4;
    u32::from_le_bytes([part[i], part[i + 1], part[i + 2], part[i + 3]])
}

// A run of dwords, which bytes hold or words are.
pub trait DwordList: Copy {
    ghost listed: { Self → List ℕ };

    fn count(self) -> usize
        ensures { result ≡ length (listed self) };

    fn at(self, k: usize) -> u32
        requires { k < length (listed self) }
        ensures { result ≡ get_or (listed self) k 0 };
}

impl DwordList for &[u8] {
    ghost listed = { λ part. dwords_of part.now };

    fn count(self) -> usize {
        dwords(self)
    }

    fn at(self, k: usize) -> u32 {
        dword(self, k)
    }
}

impl DwordList for &[u32] {
    ghost listed = { λ words. words.now };

    fn count(self) -> usize {
        self.len()
    }

    fn at(self, k: usize) -> u32 {
        self[k]
    }
}

// Bit 31: another dword follows.
#[tactic(auto, unfolding(format::specs::Dwords::follows))]
pub fn follows(t: u32) -> bool
    ensures { result ≡ d.follows t }
{
    t / 0x8000_0000 % 2 == 1
}

pub fn type_of(t: u32) -> u32
    ensures { result ≡ op.type_of t }
{
    t / 0x1000 % 0x100
}

pub fn dimension(t: u32) -> u32
    ensures { result ≡ op.dimension t }
{
    t / 0x10_0000 % 4
}

// Types 4 and 5 hold immediate dwords.
#[tactic(auto, unfolding(format::specs::Operands::immediate))]
pub fn immediate(t: u32) -> bool
    ensures { result ≡ op.immediate t }
{
    let k = type_of(t);
    k == 4 || k == 5
}

// The form by a dword's lowest four bits.
static FORMS: [u32; 16] = [0, 1, 2, 0, 0, 1, 3, 0, 0, 1, 4, 0, 0, 1, 0, 0];

// 0 none, 1 one, 2 mask, 3 swizzle, 4 scalar: the number that rows hold.
#[tactic(auto, using(crate::proofs::Low::form_entry))]
pub fn form(t: u32) -> u32
    ensures { result ≡ op.form t }
{
    FORMS[(t % 16) as usize]
}

// The bits of each form's selection, all set.
static SELECTED: [u32; 5] = [0, 0, 0x0F, 0xFF, 0x03];

#[tactic(auto, using(crate::proofs::Fields::form_small), unfolding(format::specs::Operands::selection))]
pub fn selection(t: u32) -> u32
    ensures { result ≡ op.selection t }
{
    (t >> 4) & SELECTED[form(t) as usize]
}

// How many immediate dwords an operand of an immediate type has.
#[tactic(auto, unfolding(format::specs::Operands::immediates))]
pub fn immediates(t: u32) -> usize
    ensures { result ≡ op.immediates t }
{
    match form(t) {
        0 => 0,
        1 => 1,
        _ => 4,
    }
}

// Three bits for each dimension, all set.
fn used(d: u32) -> u32
    requires { d < 4 }
    ensures { result ≡ 2 ^ (3 * d) - 1 }
{
    match d {
        0 => 0,
        1 => 7,
        2 => 63,
        _ => 511,
    }
}

#[tactic(auto, using(crate::proofs::Fields::reprs_is))]
pub fn reprs(t: u32) -> u32
    ensures { result ≡ op.reprs t }
{
    (t >> 22) & used(dimension(t))
}

// The representation of index i, 8 past the dimension.
#[tactic(auto, unfolding(format::specs::Operands::repr))]
pub fn repr(i: u32, t: u32) -> u32
    requires { i < 3 }
    ensures { result ≡ op.repr i t }
{
    if i < dimension(t) {
        (t >> (22 + 3 * i)) & 7
    } else {
        8
    }
}

// How many dwords of its own an index has.
#[tactic(auto, unfolding(format::specs::Operands::own))]
pub fn own(r: u32) -> usize
    ensures { result ≡ op.own r }
{
    match r {
        0 | 3 => 1,
        1 | 4 => 2,
        _ => 0,
    }
}

// An operand stands in the index.
#[tactic(auto, unfolding(format::specs::Operands::nests))]
pub fn nests(r: u32) -> bool
    ensures { result ≡ op.nests r }
{
    2 <= r && r < 5
}

#[tactic(auto, unfolding(format::specs::Operands::known))]
pub fn known(r: u32) -> bool
    ensures { result ≡ op.known r }
{
    r < 5 || r == 8
}

// The bits that an operand's dword may have below its type, by the lowest four of them.
fn allowed(lowest: u32) -> u32
    ensures { result ≡ allowed_bits lowest }
{
    match lowest {
        1 => 0x001,
        2 => 0x0F2,
        6 => 0xFF6,
        10 => 0x03A,
        _ => 0,
    }
}

// An operand's dword has no other bits than its fields'.
pub fn exact_dword(t: u32) -> bool
    ensures { result ≡ op.exact_dword t }
{
    let low = t % 4096;
    low & allowed(low % 16) == low && t / 0x40_0000 % 512 == reprs(t)
}

// The bits that an exact dword without extensions and representations has not, by its lowest four.
static STRAYS: [u32; 16] = [
    0xFFC0_0FFF,
    0xFFC0_0FFE,
    0xFFC0_0F0D,
    0xFFC0_0FFF,
    0xFFC0_0FFF,
    0xFFC0_0FFF,
    0xFFC0_0009,
    0xFFC0_0FFF,
    0xFFC0_0FFF,
    0xFFC0_0FFF,
    0xFFC0_0FC5,
    0xFFC0_0FFF,
    0xFFC0_0FFF,
    0xFFC0_0FFF,
    0xFFC0_0FFF,
    0xFFC0_0FFF,
];

// The stray bits of a dword, by its lowest four.
#[tactic(auto, using(crate::proofs::Usuals::stray_entry))]
fn stray(t: u32) -> u32
    ensures { result ≡ stray_bits (t % 16) }
{
    STRAYS[(t % 16) as usize]
}

// An operand's dword is exact, and has neither extensions nor representations.
pub fn usual(t: u32) -> bool
    ensures { result ≡ (ltb t 0x400000 && op.exact_dword t) }
{
    t & stray(t) == 0
}

// An operand's dword is exact, has neither extensions nor representations, and one index.
pub fn short(t: u32) -> bool
    ensures { result ≡ (eqb (t / 0x100000) 1 && op.exact_dword t) }
{
    t & (stray(t) + 0x30_0000) == 0x10_0000
}

// How many dwords an operand has whose dword is exact and without extensions and representations; None: it is another, or malformed.
#[tactic(auto, using(crate::proofs::Usuals::immediates_few), unfolding(crate::specs::Usuals::usual_length))]
pub fn usual_length(t: u32) -> Option<usize>
    ensures { result ≡ usual_length t }
{
    if !usual(t) {
        return None;
    }
    if !immediate(t) {
        return Some(1 + (t / 0x10_0000) as usize);
    }
    if t < 0x10_0000 {
        return Some(1 + immediates(t));
    }
    None
}

// The modifiers that an extension holds.
#[tactic(auto, unfolding(format::specs::Operands::modifiers))]
pub fn modifiers(x: u32) -> u32
    ensures { result ≡ op.modifiers (x ∷ []) }
{
    x / 0x40 % 4 + x / 0x2_0000 % 2 * 4 + x / 0x4000 % 8 * 16
}

// An extension is of type 1, has some modifier, and no other bits.
#[tactic(auto, unfolding(format::specs::Operands::exact_extension))]
pub fn exact_extension(x: u32) -> bool
    ensures { result ≡ op.exact_extension (x ∷ []) }
{
    0 < modifiers(x)
        && x == 1 + x / 0x40 % 4 * 0x40 + x / 0x4000 % 8 * 0x4000 + x / 0x2_0000 % 2 * 0x2_0000
}

// The place behind the chain of extension dwords from a place on, if there is one; None: the chain runs off the end of its part.
pub fn chain(part: &[u8], from: usize, first: bool) -> Option<usize>
    ensures { result ≡ ends from (d.chain first (drop from (dwords_of part.now))) }
{
    if !first {
        return Some(from);
    }
    for at in from..dwords(part) {
        if !follows(dword(part, at)) {
            return Some(at + 1);
        }
    }
    None
}

// The modifiers of an operand's extensions, which stand between two places.
#[tactic(auto, unfolding(format::specs::Operands::modifiers))]
pub fn modifiers_of(part: &[u8], from: usize, to: usize) -> u32
    requires { (from ≤ to) × (to ≤ length (dwords_of part.now)) }
    ensures { result ≡ op.modifiers (slice from to (dwords_of part.now)) }
{
    if from == to {
        return 0;
    }
    modifiers(dword(part, from))
}

// An operand's extensions, which stand between two places, are exact.
#[tactic(auto, unfolding(format::specs::Operands::exact_extension))]
pub fn exact_extensions(part: &[u8], from: usize, to: usize) -> bool
    requires { (from ≤ to) × (to ≤ length (dwords_of part.now)) }
    ensures { result ≡ op.exact_extension (slice from to (dwords_of part.now)) }
{
    if from == to {
        return true;
    }
    to - from == 1 && exact_extension(dword(part, from))
}
