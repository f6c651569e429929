// The cases of document 01's answers. The definitions, in specs/, give each case its number and its values.
#![tactic(auto)]

// Why a chunk, or rows, are refused. A place is the byte offset of an instruction.
#[derive(Clone, Copy, PartialEq, Eq, Drop)]
pub enum Refusal {
    Edition,
    FourCc,
    Short,
    NotDwords,
    Long,
    Reserved,
    Model,
    Program,
    Size,
    Room,
    ZeroLength { at: u32 },
    PastEnd { at: u32 },
    OperandCount { at: u32 },
    Layout { at: u32 },
    NoReading,
    OutputShort,
}

// What is told of a chunk that was read: its version token and the rows and words it holds.
#[derive(Clone, Copy, PartialEq, Eq, Drop)]
pub struct Accepted {
    pub version: u32,
    pub instructions: u32,
    pub operands: u32,
    pub words: u32,
}

// What reading a chunk answers.
pub type Answer = Result<Accepted, Refusal>;

// What encoding answers: the chunk's size in bytes.
pub type Encoded = Result<u32, Refusal>;

// What a row shows.
#[derive(Clone, Copy, Drop)]
pub enum Shown {
    Factor(f32),
    Count(u32),
    Nothing,
}

// The texture offsets of a row.
#[derive(Clone, Copy, PartialEq, Eq, Drop)]
pub struct Offsets {
    pub u: i8,
    pub v: i8,
    pub w: i8,
}
