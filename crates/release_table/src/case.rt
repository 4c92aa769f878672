//! A case: a summary that has taken entries, and what its release is given.
use crate::report::{Noise, report};
use keys::event::EventKind;
use keys::refusal::Refusal;
use keys::word::FlightWord;
use release::entry::Entry;
use sketch::making::MOST_KEYS;
use sketch::sketch::Sketch;
use std::alloc::{AllocError, Global};
use std::num::ParseIntError;
use summaries::summary::Summary;
use tally::tally::Tally;
use tree::cell::Cell;

/// Why a line gets no report.
#[derive(Debug, Drop)]
pub(crate) enum NoReport {
    NoCase,
    OutOfMemory(AllocError),
}

impl From<Refusal> for NoReport {
    fn from(_refusal: Refusal) -> NoReport {
        NoReport::NoCase
    }
}

impl From<ParseIntError> for NoReport {
    fn from(_error: ParseIntError) -> NoReport {
        NoReport::NoCase
    }
}

impl From<AllocError> for NoReport {
    fn from(error: AllocError) -> NoReport {
        NoReport::OutOfMemory(error)
    }
}

/// The release of a tally that has taken these kinds.
fn of_tally(heap: Global, k: u32, kinds: &[u8], noise: &Noise) -> Result<String, NoReport> {
    let mut tally = Tally::make(k)?;
    for digit in kinds {
        tally.take(EventKind::try_from(digit.saturating_sub(b'0'))?)?;
    }
    let unwritten = Entry {
        key: EventKind::try_from(63)?,
        value: 0,
    };
    Ok(report(heap, &tally, unwritten, noise)?)
}

/// The release of a sketch that has taken these words of one byte.
fn of_sketch(heap: Global, k: u32, words: &[u8], noise: &Noise) -> Result<String, NoReport> {
    let lent = k.min(MOST_KEYS) as usize;
    let mut keys = vec![in heap; Cell::Blank; lent]?;
    let mut ranks = vec![in heap; Cell::Blank; lent]?;
    let Ok(mut sketch) = Sketch::make(k, &mut keys, &mut ranks) else {
        return Err(NoReport::NoCase);
    };
    for byte in words {
        sketch.take(FlightWord::try_from([*byte].as_slice())?)?;
    }
    let unwritten = Entry {
        key: FlightWord::try_from(b"________".as_slice())?,
        value: 0,
    };
    Ok(report(heap, &sketch, unwritten, noise)?)
}

/// The draws of a word: numbers with commas between them, or none.
fn draws_of(heap: Global, word: &str) -> Result<Vec<i32>, NoReport> {
    if word == "-" {
        return Ok(Vec::new(heap));
    }
    word.split(',')
        .map(|draw| Ok(draw.parse()?))
        .try_collect(heap)
}

/// What the release of a line answers and leaves.
pub(crate) fn answer(heap: Global, line: &str) -> Result<String, NoReport> {
    let words: Vec<&str> = line.split(' ').collect(heap)?;
    let [summary, k, entries, shared, draws, threshold, room] = *words.as_slice() else {
        return Err(NoReport::NoCase);
    };
    let noise = Noise {
        shared: shared.parse()?,
        draws: draws_of(heap, draws)?,
        threshold: threshold.parse()?,
        room: room.parse()?,
    };
    let taken = entries.strip_prefix("-").unwrap_or(entries).as_bytes();
    match summary {
        "tally" => of_tally(heap, k.parse()?, taken, &noise),
        "sketch" => of_sketch(heap, k.parse()?, taken, &noise),
        _ => Err(NoReport::NoCase),
    }
}
