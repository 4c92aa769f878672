//! Reads releases, one to a line, as `sketch K ENTRIES SHARED DRAWS THRESHOLD ROOM` or the same of a `tally`, and prints
//! what each answers, how many permits of its book are out and spent, its output, where a `.` is an entry that was not
//! written, and its draws afterwards. Entries are letters, flight words of one byte, for a sketch, and digits, event kinds,
//! for a tally; draws have commas between them; `-` stands for none. The book has a limit of 1, and its permit is handed
//! back after a refusal. A line that is none of these is answered by `?`.
#![tactic(auto)]

mod case;
mod report;

use crate::case::{NoReport, answer};
use std::io::{BufRead, BufReader};

fn main(rt: HostRuntime) -> anyhow::Result<()> {
    let heap = rt.alloc();
    for line in BufReader::new(heap, rt.stdin())?.lines(heap) {
        match answer(heap, line?.as_str()) {
            Ok(text) => rt.println(text)?,
            Err(NoReport::NoCase) => rt.println("?")?,
            Err(NoReport::OutOfMemory(error)) => return Err(error.into()),
        }
    }
    Ok(())
}
