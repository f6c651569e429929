// What an edition and a version say of every instruction.

ghost use Rattle.std.specs.Prelude.{◌≤◌};

// The first code that is unread, and whether the model is 5.1.
#[derive(Clone, Copy)]
pub struct Rules {
    pub ceiling: u32,
    pub model51: bool,
    pub ghost few: { ceiling ≤ 2048 },
}
