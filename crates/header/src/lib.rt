// What is checked of a chunk before its stream is read, and how long each of its instructions is.
#![tactic(auto)]

ghost use Rattle.std.specs.Prelude.{suc, ◌-◌, ◌/◌, ◌%◌, ◌^◌, ◌<◌, ◌≡◌, [], ◌∷◌, ◌&&◌, length, get_or, drop, replicate};
ghost use Rattle.format.specs.Counts.{within};
ghost use Rattle.format.specs.Dwords.{dword_of, dwords_of, bits};
ghost use Rattle.format.specs.Dwords as d;
ghost use Rattle.format.specs.Framing as f;
ghost use Rattle.format.specs.Refusals as h;
ghost use Rattle.header.specs.Header.{version_of, header_of, has_room};

use format::Refusal;
use framing::{one_of, sized};
use tokens::{dword, dwords};

// The letters SHEX and SHDR, the first lowest.
const SHEX: u32 = 0x5845_4853;

const SHDR: u32 = 0x5244_4853;

// Whether a FourCC is SHEX or SHDR.
fn is_shader(four: u32) -> bool
    ensures { result ≡ within four (h.SHEX ∷ h.SHDR ∷ []) }
{
    one_of(four, SHEX, SHDR)
}

// The shader model's major number.
fn major(version: u32) -> u32
    ensures { result ≡ bits 4 7 version }
{
    version / 16 % 16
}

// The shader model's minor number.
fn minor(version: u32) -> u32
    ensures { result ≡ version % 2 ^ 4 }
{
    version % 16
}

// Whether the model is 4.0, 4.1, 5.0 or 5.1.
fn is_model(version: u32) -> bool
    ensures { result ≡ (within (bits 4 7 version) (4 ∷ 5 ∷ []) && within (version % 2 ^ 4) (0 ∷ 1 ∷ [])) }
{
    one_of(major(version), 4, 5) && one_of(minor(version), 0, 1)
}

// Whether the model is 5.1.
#[tactic(auto, unfolding(format::specs::Refusals::is_model51))]
pub fn is_model51(version: u32) -> bool
    ensures { result ≡ h.is_model51 version }
{
    major(version) == 5 && minor(version) == 1
}

// Checks 6 to 9, of the size and the first two dwords: the version token, or the first refusal.
#[tactic(auto, unfolding(crate::specs::Header::version_of, format::specs::Refusals::first_of))]
pub fn decode_version(size: usize, version: u32, second: u32) -> Result<u32, Refusal>
    ensures { result ≡ version_of size version second }
{
    if version / 256 % 256 != 0 {
        return Err(Refusal::Reserved);
    }
    if !is_model(version) {
        return Err(Refusal::Model);
    }
    if 5 < version / 65536 % 65536 {
        return Err(Refusal::Program);
    }
    if second as usize * 4 != size {
        return Err(Refusal::Size);
    }
    Ok(version)
}

// Checks 1 to 9, in order: the version token, or the first refusal.
#[tactic(auto, using(format::proofs::Dwords::length_dwords), unfolding(crate::specs::Header::header_of, crate::specs::Header::version_of, format::specs::Refusals::header, format::specs::Refusals::first_of))]
pub fn decode_header(chunk: &[u8], four: u32, edition: u32) -> Result<u32, Refusal>
    ensures { result ≡ header_of edition four chunk.now }
{
    let size = chunk.len();
    if 3 < edition {
        return Err(Refusal::Edition);
    }
    if !is_shader(four) {
        return Err(Refusal::FourCc);
    }
    if size < 8 {
        return Err(Refusal::Short);
    }
    if size % 4 != 0 {
        return Err(Refusal::NotDwords);
    }
    if 1_048_576 < size {
        return Err(Refusal::Long);
    }
    decode_version(size, dword(chunk, 0), dword(chunk, 1))
}

// The payload's dwords, for a chunk of so many bytes.
fn payload(size: usize) -> usize
    ensures { result ≡ size / 4 - 2 }
{
    (size / 4).saturating_sub(2)
}

// Check 10: whether pools of these lengths have room, 16 words to a row, for a chunk of so many bytes.
#[tactic(auto, unfolding(crate::specs::Header::has_room))]
pub fn has_room(size: usize, instructions: usize, operands: usize, words: usize) -> bool
    ensures { result ≡ has_room size instructions operands words }
{
    let m = payload(size);
    m <= instructions / 16 && m <= operands / 16 && m <= words
}

// Sets every word of a pool to 0.
pub fn clear(pool: &mut [u32])
    ensures { pool.new ≡ replicate (length pool.old) 0 }
{
    pool.fill(0);
}

// The codes that an edition knows are below this.
#[tactic(auto, unfolding(format::specs::Framing::ceiling))]
pub fn ceiling(edition: u32) -> u32
    ensures { result ≡ f.ceiling edition }
{
    match edition {
        0 => 107,
        1 => 112,
        2 => 210,
        3 => 2048,
        _ => 0,
    }
}

// The length in dwords of the instruction at a place; 0 where the dword that has it is missing.
#[tactic(auto, unfolding(format::specs::Framing::length_of))]
pub fn instruction_length(chunk: &[u8], at: usize) -> u32
    requires { at < length (dwords_of chunk.now) }
    ensures { result ≡ f.length_of (get_or (dwords_of chunk.now) at 0) (drop (suc at) (dwords_of chunk.now)) }
{
    let token = dword(chunk, at);
    if !sized(token) {
        return token / 0x0100_0000 % 128;
    }
    if dwords(chunk) <= at + 1 {
        return 0;
    }
    dword(chunk, at + 1)
}
