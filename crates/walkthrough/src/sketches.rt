//! A sketch of the flight words of a log.
use crate::answers::{show_count, show_facts, show_fed, show_page, show_places};
use feeding::feed::feed;
use keys::word::FlightWord;
use lenses::flight::FlightLens;
use pages::line::Line;
use sketch::sketch::Sketch;
use std::io;
use tree::cell::Cell;

/// How many keys the sketch holds.
pub const KEYS: usize = 4;

/// How many cells are lent for each order, more than the sketch has of its own.
pub const CELLS: usize = 6;

/// Some line, to fill an output before a page is written to it.
pub fn some_line() -> Line<FlightWord> {
    let Ok(key) = FlightWord::try_from("-".as_bytes()) else {
        unreachable!()
    };
    Line {
        key,
        count: 0,
        upper: 0,
    }
}

/// The counts of some words: held often, held at 0, pushed out, and never seen.
fn show_counts(rt: &(impl Print + AllocGlobal), sketch: &Sketch<'_, FlightWord>) -> io::Result<()> {
    for bytes in ["KLM1023", "AFR99", "BAW 12", "LOT7"] {
        if let Ok(word) = FlightWord::try_from(bytes.as_bytes()) {
            show_count(rt, sketch, &word)?;
        }
    }
    Ok(())
}

/// Feeds the log to a fresh sketch, and asks all that a summary can be asked.
pub fn show_sketch(
    rt: &(impl Print + AllocGlobal),
    sketch: &mut Sketch<'_, FlightWord>,
    log: &[u8],
) -> io::Result<()> {
    println!(rt; "make: a sketch of {KEYS} flight words, with {CELLS} cells for each order")?;
    show_facts(rt, sketch)?;
    show_fed(rt, &feed(sketch, &FlightLens, log))?;
    show_facts(rt, sketch)?;
    show_counts(rt, sketch)?;
    show_places(rt, sketch)?;
    show_page(rt, sketch, &mut [some_line(); KEYS])
}

/// How many cells hold a key.
pub fn used<K, V>(cells: &[Cell<K, V>]) -> usize {
    cells
        .iter()
        .filter(|cell| matches!(cell, Cell::Used(_)))
        .count()
}

/// Takes the lent cells back, and shows that those beyond the first k of each order are blank still.
pub fn show_cells(rt: &impl Print, sketch: Sketch<'_, FlightWord>) -> io::Result<()> {
    let (keys, ranks) = sketch.into_cells();
    let (own, other) = keys.split_at(KEYS.min(keys.len()));
    println!(rt;
        "cells by key: {} of the first {KEYS} used, {} of the others",
        used(own),
        used(other)
    )?;
    let (own, other) = ranks.split_at(KEYS.min(ranks.len()));
    println!(rt;
        "cells by count: {} of the first {KEYS} used, {} of the others",
        used(own),
        used(other)
    )
}
