//! Makes every call on the log that is given on standard input, and prints a line for each step: a sketch and its page, a
//! tally, pairs of keys, a book with its permits and the lists that are released by them, every refusal, a list of calls
//! in one run beside the same calls one by one, and summaries that are made and worked in one call. Of an input above
//! 65,536 bytes it prints only `long`.
#![tactic(auto)]

mod answers;
mod books;
mod calls;
mod fresh;
mod refusals;
mod runs;
mod shown;
mod sketches;
mod steps;
mod tallies;

use crate::books::show_book;
use crate::fresh::show_fresh;
use crate::refusals::show_refusals;
use crate::runs::show_runs;
use crate::sketches::{CELLS, KEYS, show_cells, show_sketch};
use crate::tallies::{show_pairs, show_tally};
use keys::word::FlightWord;
use sketch::sketch::Sketch;
use std::io;
use std::io::Read;
use tree::cell::Cell;

/// The most bytes of a log that are read; of a longer one only `long` is printed.
const MOST: usize = 65_536;

/// Uses each call on the log.
fn walk(rt: &(impl Print + AllocGlobal), log: &[u8]) -> io::Result<()> {
    let mut keys = [Cell::Blank; CELLS];
    let mut ranks = [Cell::Blank; CELLS];
    let Ok(mut sketch) = Sketch::<FlightWord>::make(KEYS as u32, &mut keys, &mut ranks) else {
        unreachable!()
    };
    show_sketch(rt, &mut sketch, log)?;
    show_tally(rt, log)?;
    show_pairs(rt, log)?;
    show_book(rt, &sketch)?;
    show_cells(rt, sketch)?;
    show_refusals(rt)?;
    show_runs(rt, log)?;
    show_fresh(rt, log)
}

fn main(rt: HostRuntime) -> anyhow::Result<()> {
    // one byte more than is read, so that a longer input is seen to be longer
    let mut log = Vec::new(rt.alloc());
    let _ = rt.stdin().take(MOST as u64 + 1).read_to_end(&mut log)?;
    if log.len() > MOST {
        rt.println("long")?;
    } else {
        walk(&rt, log.as_slice())?;
    }
    Ok(())
}
