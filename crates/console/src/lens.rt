//! Lenses by number, which give keys as bytes.
ghost use Rattle.std.specs.Prelude.{◌≡◌};
ghost use Rattle.records.specs.Values.{value_of};
ghost use Rattle.console.specs.Asked.{asked};
ghost use Rattle.console.specs.Lenses.{lens_of, second_of, lenses_of, part_given, parts_given, part_from, parts_from};

use crate::part::{Part, PartKey, part_of};
use keys::event::EventKind;
use keys::pair::Pair;
use keys::prefix::Prefix;
use keys::word::FlightWord;
use lenses::flight::FlightLens;
use lenses::kind::KindLens;
use lenses::lens::Lens;
use lenses::prefix::PrefixLens;
use records::record::Record;
use sketch::making::MOST_KEYS;

/// A lens that gives one part.
#[derive(Clone, Copy, Debug, PartialEq, Eq, Hash)]
pub enum PartLens {
    Kind,
    Word,
    Prefix(PrefixLens),
}

impl PartLens {
    /// The lens of this number, if there is one.
    fn of(number: u32) -> Option<PartLens>
        ensures { result ≡ lens_of number }
    {
        match number {
            1 => Some(PartLens::Kind),
            2 => Some(PartLens::Word),
            256..=288 => {
                let lens = PrefixLens::make((number - 256) as u8).ok()?;
                Some(PartLens::Prefix(lens))
            }
            _ => None,
        }
    }

    /// The second lens by its number: none for 0.
    fn second_of(number: u32) -> Option<Option<PartLens>>
        ensures { result ≡ second_of number }
    {
        if number == 0 {
            return Some(None);
        }
        Some(Some(PartLens::of(number)?))
    }

    /// The key that the lens gives, as bytes.
    fn part(&self, given: &Record<'_>) -> Option<Part>
        ensures { result ≡ part_given self.now (value_of given.now) }
    {
        match self {
            PartLens::Kind => Some(KindLens.key(given)?.part()),
            PartLens::Word => Some(FlightLens.key(given)?.part()),
            PartLens::Prefix(lens) => Some(lens.key(given)?.part()),
        }
    }

    /// The key of these bytes, if they make one of the kind that the lens gives.
    fn part_from(&self, bytes: &[u8]) -> Option<Part>
        ensures { result ≡ part_from self.now bytes.now }
    {
        match self {
            PartLens::Kind => Some(EventKind::from_bytes(bytes)?.part()),
            PartLens::Word => Some(FlightWord::from_bytes(bytes)?.part()),
            PartLens::Prefix(_) => Some(Prefix::from_bytes(bytes)?.part()),
        }
    }
}

/// A lens, or a pair of two.
#[derive(Clone, Copy, Debug, PartialEq, Eq, Hash)]
pub struct Lenses {
    first: PartLens,
    second: Option<PartLens>,
}

impl Lenses {
    /// The lenses of these numbers, if there are such.
    pub(crate) fn of(first: u32, second: u32) -> Option<Lenses>
        ensures { result ≡ lenses_of first second }
    {
        Some(Lenses {
            first: PartLens::of(first)?,
            second: PartLens::second_of(second)?,
        })
    }

    /// The same, for a sketch of k keys, if there can be one.
    pub(crate) fn asked(first: u32, second: u32, k: u32) -> Option<Lenses>
        ensures { result ≡ asked first second k }
    {
        if !(2..=MOST_KEYS).contains(&k) {
            return None;
        }
        Lenses::of(first, second)
    }

    /// The key of the bytes of its parts, if they make one of the kinds that the lenses give.
    pub(crate) fn key_from(&self, first: &[u8], second: &[u8]) -> Option<Pair<Part, Part>>
        ensures { result ≡ parts_from self.now first.now second.now }
    {
        let first = self.first.part_from(first)?;
        let second = match self.second {
            Some(lens) => lens.part_from(second)?,
            None if second.is_empty() => part_of(&[]),
            None => return None,
        };
        Some(Pair { first, second })
    }
}

impl Lens for Lenses {
    type Key = Pair<Part, Part>;

    ghost gives = { parts_given };

    fn key(&self, given: &Record<'_>) -> Option<Pair<Part, Part>> {
        let first = self.first.part(given)?;
        let second = match self.second {
            Some(lens) => lens.part(given)?,
            None => part_of(&[]),
        };
        Some(Pair { first, second })
    }
}
