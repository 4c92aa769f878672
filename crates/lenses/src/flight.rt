//! The lens of flight words.
ghost use Rattle.lenses.specs.Gives.{flight_given};

use crate::lens::Lens;
use keys::word::FlightWord;
use records::record::Record;

/// Gives the flight word; none if the record has none, or bytes that make no word.
#[derive(Clone, Copy, Debug, PartialEq, Eq, Hash)]
pub struct FlightLens;

impl Lens for FlightLens {
    type Key = FlightWord;

    ghost gives = { λ _ r. flight_given r };

    fn key(&self, given: &Record<'_>) -> Option<FlightWord> {
        FlightWord::try_from(given.flight?).ok()
    }
}
