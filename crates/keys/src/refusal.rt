//! Every refusal that a call can answer with. `number_of` in specs/Refusals.antt fixes their numbers; docs/NUMBERS.md
//! says who returns which.
ghost use Rattle.std.specs.Prelude.{◌≡◌};
ghost use Rattle.keys.specs.Refusals.{number_of};

#[derive(Clone, Copy, Debug, PartialEq, Eq, Hash)]
pub enum Refusal {
    OutOfRange = 1,
    FewCells = 2,
    Map = 3,
    CutOff = 4,
    Field = 5,
    NotAdmitted = 6,
    Full = 7,
    LowLimit = 8,
    ShortOutput = 9,
    UsedUp = 10,
    Foreign = 11,
    DrawCount = 12,
    DrawRange = 13,
    Threshold = 14,
    NoRoom = 15,
}

impl Refusal {
    /// No `From`, since `u8::from` would not show which number of a refusal is meant.
    pub fn number(self) -> u8
        ensures { result ≡ number_of self }
    {
        self as u8
    }
}
