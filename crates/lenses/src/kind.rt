//! The lens of event kinds.
ghost use Rattle.lenses.specs.Gives.{kind_given};

use crate::lens::Lens;
use keys::event::EventKind;
use records::record::Record;

/// Gives the event kind; none if the record has none, or one above 63.
#[derive(Clone, Copy, Debug, PartialEq, Eq, Hash)]
pub struct KindLens;

impl Lens for KindLens {
    type Key = EventKind;

    ghost gives = { λ _ r. kind_given r };

    fn key(&self, given: &Record<'_>) -> Option<EventKind> {
        EventKind::try_from(given.kind?).ok()
    }
}
