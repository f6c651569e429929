// The layout of every code: operand counts, the table of declarations, field bits.
#![tactic(auto)]

ghost use Rattle.std.specs.Prelude.{◌≡◌, ◌≤◌, ltb};
ghost use Rattle.std.proofs.Math.Option.{none, some};
ghost use Rattle.format.specs.Counts.{operand_count};
ghost use Rattle.format.specs.Declarations.{field_in, in_bounds};
ghost use Rattle.layouts.specs.Shapes.{kind_number, counted, field_of, Sound, Laid};
ghost use Rattle.layouts.specs.Table.{row_of, Declares, shape_of, plain_shape, width_of};

// The kinds of codes. A row holds the number of its code's kind.
#[derive(Clone, Copy, PartialEq, Eq)]
pub enum Kind {
    Counted = 1,
    Opaque = 2,
    Phase = 3,
    Declaration = 4,
    CustomData = 5,
}

impl Kind {
    pub fn number(self) -> u32
        ensures { result ≡ kind_number self }
    {
        self as u32
    }

    // Whether extensions may follow the token: kinds 1 and 2.
    pub fn has_chain(self) -> bool
        ensures { result ≡ ltb (kind_number self) 3 }
    {
        matches!(self, Kind::Counted | Kind::Opaque)
    }

    // Whether the token may have saturate and precise bits: kinds 1 to 3.
    pub fn has_flags(self) -> bool
        ensures { result ≡ ltb (kind_number self) 4 }
    {
        matches!(self, Kind::Counted | Kind::Opaque | Kind::Phase)
    }
}

// What stands beside a code and after its token. Field bits: width bits from bit first on; where bounded is above 0, that many bits from
// bit 11 on hold lo to hi. Then dwords, operands, small dwords, dwords, dwords of model 5.1 alone, a list counted by list bits, and a tail.
#[derive(Clone, Copy, Drop)]
pub struct Shape {
    pub kind: Kind,
    pub first: u32,
    pub width: u32,
    pub bounded: u32,
    pub lo: u32,
    pub hi: u32,
    pub before: u32,
    pub operands: u32,
    pub small: u32,
    pub after: u32,
    pub extra: u32,
    pub list: u32,
    pub tail: bool,
}

// What is added to a code for each part of its shape: a first bit of 16 and not 11, each bit, bounded bit, lo, hi, dword before, operand,
// small dword, dword after, dword of model 5.1, and each 16 list bits.
const FIRST: u32 = 0x100;

const WIDTH: u32 = 0x200;

const BOUNDED: u32 = 0x2000;

const LO: u32 = 0x1_0000;

const HI: u32 = 0x2_0000;

const BEFORE: u32 = 0x20_0000;

const OPERAND: u32 = 0x80_0000;

const SMALL: u32 = 0x100_0000;

const AFTER: u32 = 0x200_0000;

const EXTRA: u32 = 0x800_0000;

const LIST: u32 = 0x2000_0000;

// The declarations, a code and its shape in each row.
static DECLARATIONS: [u32; 40] = [
    88 + 12 * WIDTH + 5 * BOUNDED + LO + 10 * HI + OPERAND + SMALL + EXTRA,
    89 + WIDTH + OPERAND + 2 * EXTRA,
    90 + 4 * WIDTH + 4 * BOUNDED + 2 * HI + OPERAND + EXTRA,
    91 + OPERAND + AFTER,
    92 + 6 * WIDTH,
    93 + 6 * WIDTH,
    94 + BEFORE,
    95 + OPERAND,
    96 + OPERAND + AFTER,
    97 + OPERAND + AFTER,
    98 + 4 * WIDTH + 4 * BOUNDED + 7 * HI + OPERAND,
    99 + 4 * WIDTH + 4 * BOUNDED + 7 * HI + OPERAND + AFTER,
    100 + 4 * WIDTH + 4 * BOUNDED + 7 * HI + OPERAND + AFTER,
    101 + OPERAND,
    102 + OPERAND + AFTER,
    103 + OPERAND + AFTER,
    104 + BEFORE,
    105 + 3 * BEFORE,
    106 + 9 * WIDTH,
    120 + BEFORE + OPERAND,
    144 + BEFORE,
    145 + BEFORE + 2 * LIST,
    146 + WIDTH + 2 * BEFORE + LIST,
    147 + 6 * WIDTH,
    148 + 6 * WIDTH,
    149 + 2 * WIDTH,
    150 + 3 * WIDTH + 3 * BOUNDED + 4 * HI,
    151 + 3 * WIDTH + 3 * BOUNDED + 4 * HI,
    152 + BEFORE,
    153 + BEFORE,
    154 + BEFORE,
    155 + 3 * BEFORE,
    156 + 13 * WIDTH + 5 * BOUNDED + LO + 10 * HI + OPERAND + SMALL + EXTRA,
    157 + FIRST + 8 * WIDTH + OPERAND + EXTRA,
    158 + FIRST + 8 * WIDTH + OPERAND + AFTER + EXTRA,
    159 + OPERAND + AFTER,
    160 + OPERAND + 2 * AFTER,
    161 + OPERAND + EXTRA,
    162 + OPERAND + AFTER + EXTRA,
    206 + BEFORE,
];

// A code's operand count, by comparisons, if it has one. Even and odd codes stand in arms of their own: neighbours in one arm would be
// compared as a range, and one range after the other, where single codes become one table. The reader looks up each code
// twice, so the look-up is inlined into its callers.
#[inline(always)]
#[tactic(auto, unfolding(format::specs::Counts::numbers, format::specs::Counts::within, format::specs::Counts::line_of, format::specs::Counts::operand_count))]
pub fn operand_count(code: u32) -> Option<u32>
    ensures { result ≡ counted (operand_count code) }
{
    match code {
        2 | 10 | 18 | 20 | 22 | 48 | 58 | 62 | 190 => Some(0),
        7 | 9 | 19 | 21 | 23 => Some(0),
        4 | 6 | 8 | 44 | 76 | 118 => Some(1),
        3 | 13 | 31 | 63 | 117 | 119 | 143 => Some(1),
        12 | 26 | 28 | 40 | 54 | 64 | 66 | 68 | 86 | 122 => Some(2),
        124 | 130 | 134 | 136 | 178 | 202 | 212 | 214 | 216 => Some(2),
        5 | 11 | 25 | 27 | 43 | 47 | 59 | 65 | 67 | 75 | 111 | 121 | 123 => Some(2),
        125 | 129 | 131 | 135 | 137 | 141 | 179 | 199 | 201 | 205 | 215 | 217 => Some(2),
        0 | 14 | 16 | 24 | 30 | 32 | 34 | 36 | 42 | 52 | 56 | 60 | 80 => Some(3),
        84 | 110 | 164 | 166 | 170 | 174 | 176 | 192 | 194 | 196 | 198 | 204 | 210 => Some(3),
        1 | 15 | 17 | 29 | 33 | 37 | 39 | 41 | 45 | 49 => Some(3),
        51 | 57 | 61 | 77 | 79 | 83 | 85 | 87 | 163 | 165 => Some(3),
        169 | 171 | 173 | 175 | 177 | 191 | 193 | 195 | 197 | 203 => Some(3),
        38 | 46 | 50 | 78 | 82 | 108 | 132 | 138 => Some(4),
        168 | 172 | 180 | 182 | 184 | 186 | 188 | 200 => Some(4),
        35 | 55 | 69 | 81 | 109 | 133 | 139 => Some(4),
        167 | 181 | 183 | 187 | 189 | 211 | 213 => Some(4),
        70 | 72 | 74 | 126 | 140 | 142 => Some(5),
        71 | 127 | 185 => Some(5),
        128 => Some(6),
        73 => Some(6),
        _ => None,
    }
}

// The row of a declaration's code: 88 to 106, 120, 144 to 162, 206. Another code declares nothing.
#[tactic(auto, unfolding(crate::specs::Table::row_of))]
fn row_of(code: u32) -> Option<usize>
    ensures { result ≡ row_of code }
{
    let c = code as usize;
    match c {
        88..=106 => Some(c - 88),
        120 => Some(19),
        144..=162 => Some(c - 124),
        206 => Some(39),
        _ => None,
    }
}

// A declaration's row of the table, if the code declares.
#[tactic(auto, using(crate::proofs::Table::row_within))]
pub fn declaration(code: u32) -> Option<u32>
    ensures { Declares code result }
{
    let row = row_of(code)?;
    Some(DECLARATIONS[row])
}

// The shape that a row tells.
pub fn declared(d: u32) -> Shape
    ensures { result ≡ shape_of d }
{
    Shape {
        kind: Kind::Declaration,
        first: 11 + d / FIRST % 2 * 5,
        width: d / WIDTH % 16,
        bounded: d / BOUNDED % 8,
        lo: d / LO % 2,
        hi: d / HI % 16,
        before: d / BEFORE % 4,
        operands: d / OPERAND % 2,
        small: d / SMALL % 2,
        after: d / AFTER % 4,
        extra: d / EXTRA % 4,
        list: d / LIST % 4 * 16,
        tail: false,
    }
}

// A shape of operands and perhaps a tail, with field bits from bit 11 on.
fn plain(kind: Kind, width: u32, operands: u32, tail: bool) -> Shape
    ensures { result ≡ plain_shape kind width operands tail }
{
    Shape {
        kind,
        first: 11,
        width,
        bounded: 0,
        lo: 0,
        hi: 0,
        before: 0,
        operands,
        small: 0,
        after: 0,
        extra: 0,
        list: 0,
        tail,
    }
}

// How many field bits a counted code has.
#[tactic(auto, unfolding(crate::specs::Table::width_of))]
fn counted_width(code: u32) -> u32
    ensures { result ≡ width_of code }
{
    match code {
        61 | 111 => 2,
        190 => 4,
        _ => 0,
    }
}

// The layout of a code of n operands.
pub fn counted_layout(code: u32, n: u32) -> Shape
    requires { operand_count code ≡ some n }
    ensures { Laid code result }
{
    plain(Kind::Counted, counted_width(code), n, true)
}

// The layout of a code without a count: a declaration, a phase, custom data or an opaque one. It has one operand at most.
pub fn uncounted_layout(code: u32) -> Shape
    requires { operand_count code ≡ none }
    ensures { Laid code result × (result.operands ≤ 1) }
{
    if let Some(d) = declaration(code) {
        return declared(d);
    }
    match code {
        53 => plain(Kind::CustomData, 5, 0, true),
        113..=116 => plain(Kind::Phase, 0, 0, false),
        _ => plain(Kind::Opaque, 0, 0, true),
    }
}

// A token's field: the shape's bits, divided by 2,048.
#[tactic(auto, using(crate::proofs::Fields::by_shifts))]
pub fn field_of(s: Shape, t: u32) -> u32
    requires { Sound s }
    ensures { result ≡ field_in (field_of s) t }
{
    ((t >> s.first) % (1u32 << s.width)) << (s.first - 11)
}

// Whether the bounded bits of a token's field hold lo to hi.
#[tactic(auto, using(crate::proofs::Fields::unbounded))]
pub fn in_bounds(s: Shape, t: u32) -> bool
    requires { Sound s }
    ensures { result ≡ in_bounds (field_of s) t }
{
    if s.bounded == 0 {
        return true;
    }
    let x = (t >> 11) % (1u32 << s.bounded);
    s.lo <= x && x <= s.hi
}
