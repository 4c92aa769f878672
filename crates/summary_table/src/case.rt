//! A case: which summary is fed which log, by which lens.
ghost use Rattle.std.specs.Prelude.{◌<◌};

use crate::report::report;
use crate::shown::Shown;
use keys::held::Held;
use keys::pair::Pair;
use keys::refusal::Refusal;
use lenses::flight::FlightLens;
use lenses::kind::KindLens;
use lenses::lens::Lens;
use lenses::pair::PairLens;
use lenses::prefix::PrefixLens;
use sketch::making::MOST_KEYS;
use sketch::sketch::Sketch;
use std::alloc::{AllocError, Global};
use tally::tally::Tally;
use tree::cell::Cell;

/// Why a line gets no report.
#[derive(Debug, Drop)]
pub enum NoReport {
    NoCase,
    Refused(Refusal),
    OutOfMemory(AllocError),
}

impl From<Refusal> for NoReport {
    fn from(refusal: Refusal) -> NoReport {
        NoReport::Refused(refusal)
    }
}

impl From<AllocError> for NoReport {
    fn from(error: AllocError) -> NoReport {
        NoReport::OutOfMemory(error)
    }
}

/// The value of an upper-case hexadecimal digit; any other byte counts as 0.
fn digit(byte: u8) -> u8
    ensures { result < 16 }
{
    match byte {
        b'0'..=b'9' => byte - b'0',
        b'A'..=b'F' => byte - b'A' + 10,
        _ => 0,
    }
}

/// The bytes that hexadecimal digits stand for; an odd last digit stands for nothing.
fn bytes_of(heap: Global, digits: &str) -> Result<Vec<u8>, AllocError> {
    digits
        .as_bytes()
        .chunks_exact(2)
        .map(|pair| 16 * digit(pair[0]) + digit(pair[1]))
        .collect(heap)
}

/// The lens of a name `prefixP`, which keeps the first P bits.
fn prefix_lens(name: &str) -> Result<PrefixLens, NoReport> {
    let digits = name.strip_prefix("prefix").ok_or(NoReport::NoCase)?;
    let bits = digits.parse().map_err(|_| NoReport::NoCase)?;
    Ok(PrefixLens::make(bits)?)
}

/// What a tally answers.
fn tallied(heap: Global, k: u32, log: &[u8]) -> Result<String, NoReport> {
    let mut tally = Tally::make(k)?;
    Ok(report(heap, &mut tally, &KindLens, log)?)
}

/// What a sketch of the lens's keys answers.
fn sketched<L: Lens>(heap: Global, k: u32, lens: &L, log: &[u8]) -> Result<String, NoReport>
where
    L::Key: Shown,
{
    let lent = k.min(MOST_KEYS) as usize;
    let mut keys: Vec<Cell<Held<L::Key>, u32>> = vec![in heap; Cell::Blank; lent]?;
    let mut ranks: Vec<Cell<Pair<u32, Held<L::Key>>, ()>> = vec![in heap; Cell::Blank; lent]?;
    match Sketch::make(k, &mut keys, &mut ranks) {
        Ok(mut sketch) => Ok(report(heap, &mut sketch, lens, log)?),
        Err(not_made) => Err(NoReport::Refused(not_made.refusal)),
    }
}

/// A lens of two.
fn both<A: Lens, B: Lens>(first: A, second: B) -> PairLens<A, B> {
    PairLens { first, second }
}

/// What a sketch answers, by the parts of the lens's name.
fn sketched_by(heap: Global, k: u32, parts: &[&str], log: &[u8]) -> Result<String, NoReport> {
    match *parts {
        ["kind"] => sketched(heap, k, &KindLens, log),
        ["flight"] => sketched(heap, k, &FlightLens, log),
        [prefix] => sketched(heap, k, &prefix_lens(prefix)?, log),
        ["kind", "flight"] => sketched(heap, k, &both(KindLens, FlightLens), log),
        ["flight", prefix] => sketched(heap, k, &both(FlightLens, prefix_lens(prefix)?), log),
        ["kind", "flight", prefix] => {
            let lens = both(KindLens, both(FlightLens, prefix_lens(prefix)?));
            sketched(heap, k, &lens, log)
        }
        _ => Err(NoReport::NoCase),
    }
}

/// What the summary of a line answers of the line's log.
pub fn answer(heap: Global, line: &str) -> Result<String, NoReport> {
    let words: Vec<&str> = line.split(' ').collect(heap)?;
    let [summary, k, lens, log] = *words.as_slice() else {
        return Err(NoReport::NoCase);
    };
    let k = k.parse().map_err(|_| NoReport::NoCase)?;
    let log = bytes_of(heap, log)?;
    match (summary, lens) {
        ("tally", "kind") => tallied(heap, k, &log),
        ("sketch", _) => {
            let parts: Vec<&str> = lens.split('+').collect(heap)?;
            sketched_by(heap, k, &parts, &log)
        }
        _ => Err(NoReport::NoCase),
    }
}
