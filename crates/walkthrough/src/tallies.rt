//! A tally of the event kinds of a log, and a sketch of the address prefixes and flight words together.
use crate::answers::{show_facts, show_fed, show_page, show_places};
use feeding::feed::feed;
use keys::event::EventKind;
use keys::pair::Pair;
use keys::prefix::Prefix;
use keys::word::FlightWord;
use lenses::flight::FlightLens;
use lenses::kind::KindLens;
use lenses::pair::PairLens;
use lenses::prefix::PrefixLens;
use pages::line::Line;
use sketch::sketch::Sketch;
use std::io;
use tally::tally::Tally;
use tree::cell::Cell;

/// How many event kinds the tally counts.
const KINDS: usize = 8;

/// How many keys the sketch of pairs holds.
const PAIRS: usize = 3;

/// How many of the first bits of an address are kept.
const BITS: u8 = 16;

/// Feeds the log to a fresh tally through the lens of event kinds.
pub fn show_tally(rt: &(impl Print + AllocGlobal), log: &[u8]) -> io::Result<()> {
    let (Ok(mut tally), Ok(key)) = (Tally::make(KINDS as u32), EventKind::try_from(0)) else {
        unreachable!()
    };
    println!(rt; "make: a tally of {KINDS} event kinds")?;
    show_fed(rt, &feed(&mut tally, &KindLens, log))?;
    show_facts(rt, &tally)?;
    let unwritten = Line {
        key,
        count: 0,
        upper: 0,
    };
    show_page(rt, &tally, &mut [unwritten; KINDS])
}

/// Feeds the log to a sketch of pairs.
fn show_pairs_of(
    rt: &(impl Print + AllocGlobal),
    sketch: &mut Sketch<'_, Pair<Prefix, FlightWord>>,
    first: PrefixLens,
    log: &[u8],
) -> io::Result<()> {
    let second = FlightLens;
    let lens = PairLens { first, second };
    show_fed(rt, &feed(sketch, &lens, log))?;
    show_facts(rt, sketch)?;
    show_places(rt, sketch)
}

/// Feeds the log to a fresh sketch through the lens of address prefixes with flight words.
pub fn show_pairs(rt: &(impl Print + AllocGlobal), log: &[u8]) -> io::Result<()> {
    let mut keys = [Cell::Blank; PAIRS];
    let mut ranks = [Cell::Blank; PAIRS];
    let Ok(mut sketch) = Sketch::make(PAIRS as u32, &mut keys, &mut ranks) else {
        unreachable!()
    };
    let Ok(lens) = PrefixLens::make(BITS) else {
        unreachable!()
    };
    println!(rt;
        "make: a sketch of {PAIRS} pairs of an address prefix of {BITS} bits and a flight word"
    )?;
    show_pairs_of(rt, &mut sketch, lens, log)
}
