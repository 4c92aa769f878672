//! Reads cases of summaries, one to a line, as `sketch K LENS LOG` or `tally K kind LOG`, with the log in hexadecimal,
//! and prints of each what feeding answers, the summary's numbers k, n and l, its held keys with their counts, and the
//! lines of its page at the limit l + 1. Where something is refused before, it prints `refused` and the number; of a
//! line that is no case, `?`.
#![tactic(auto)]

mod case;
mod report;
mod shown;

use crate::case::{NoReport, answer};
use std::io::{BufRead, BufReader};

fn main(rt: HostRuntime) -> anyhow::Result<()> {
    let heap = rt.alloc();
    for line in BufReader::new(heap, rt.stdin())?.lines(heap) {
        match answer(heap, line?.as_str()) {
            Ok(text) => rt.println(text)?,
            Err(NoReport::NoCase) => rt.println("?")?,
            Err(NoReport::Refused(refusal)) => println!(rt; "refused {}", refusal.number())?,
            Err(NoReport::OutOfMemory(error)) => return Err(error.into()),
        }
    }
    Ok(())
}
