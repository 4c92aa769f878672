//! Event kinds made and read.
ghost use Rattle.std.specs.Prelude.{◌≡◌};
ghost use Rattle.keys.specs.Values.{asked, event_of};

use crate::event::EventKind;
use crate::refusal::Refusal;

/// The event kind with this number; refused with 1 above 63.
impl TryFrom<u8> for EventKind {
    type Error = Refusal;

    ghost try_from_gives = { λ number r. r ≡ asked (event_of number) };

    fn try_from(number: u8) -> Result<Self, Refusal> {
        if number > 63 {
            return Err(Refusal::OutOfRange);
        }
        Ok(EventKind { number })
    }
}

impl EventKind {
    pub fn number(&self) -> u8
        ensures { result ≡ self.now.number }
    {
        self.number
    }
}
