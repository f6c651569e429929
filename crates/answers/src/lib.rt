// An answer in numbers: the number and the place that document 01 gives a refusal.
#![tactic(auto)]

ghost use Rattle.std.specs.Prelude.{◌≡◌};
ghost use Rattle.format.specs.Refusals as h;

use format::Refusal;

// A refusal's number.
pub fn number(r: Refusal) -> u32
    ensures { result ≡ h.number r }
{
    match r {
        Refusal::Edition => 1,
        Refusal::FourCc => 2,
        Refusal::Short => 3,
        Refusal::NotDwords => 4,
        Refusal::Long => 5,
        Refusal::Reserved => 6,
        Refusal::Model => 7,
        Refusal::Program => 8,
        Refusal::Size => 9,
        Refusal::Room => 10,
        Refusal::ZeroLength { at: _ } => 11,
        Refusal::PastEnd { at: _ } => 12,
        Refusal::OperandCount { at: _ } => 13,
        Refusal::Layout { at: _ } => 14,
        Refusal::NoReading => 15,
        Refusal::OutputShort => 16,
    }
}

// A refusal's place: the byte offset of its instruction, or 0.
pub fn place(r: Refusal) -> u32
    ensures { result ≡ h.place r }
{
    match r {
        Refusal::ZeroLength { at }
        | Refusal::PastEnd { at }
        | Refusal::OperandCount { at }
        | Refusal::Layout { at } => at,
        _ => 0,
    }
}
