// Which tokens have their length in the dword after them.
#![tactic(auto)]

ghost use Rattle.std.specs.Prelude.{◌≡◌, [], ◌∷◌};
ghost use Rattle.format.specs.Counts.{within};
ghost use Rattle.format.specs.Framing as f;

// Whether a number is one of two.
#[tactic(auto, unfolding(format::specs::Counts::within))]
pub fn one_of(x: u32, a: u32, b: u32) -> bool
    ensures { result ≡ within x (a ∷ b ∷ []) }
{
    x == a || x == b
}

// A token's code.
fn code(t: u32) -> u32
    ensures { result ≡ f.code t }
{
    t % 2048
}

// The long form of 145 and 146: bit 31 set.
#[tactic(auto, unfolding(format::specs::Framing::long, format::specs::Dwords::follows, format::specs::Counts::within))]
pub fn long(t: u32) -> bool
    ensures { result ≡ f.long t }
{
    one_of(code(t), 145, 146) && t / 0x8000_0000 % 2 == 1
}

// Whether the next dword is the length. Most codes are below 145, where one comparison more tells it.
#[tactic(auto, unfolding(format::specs::Framing::sized, format::specs::Framing::long, format::specs::Counts::within))]
pub fn sized(t: u32) -> bool
    ensures { result ≡ f.sized t }
{
    if code(t) < 145 {
        return code(t) == 53;
    }
    long(t)
}
