//! Prints the page of a console's log that is given on standard input: the numbers k, n and l of a sketch of 8 flight
//! words, then the words that may have come more than l times, each with two bounds; or only the fault, where the log has
//! one. Of an input above 65,536 bytes it prints only `long`.
#![tactic(auto)]

use page_text::{MOST, page_text};
use std::io::Read;

fn main(rt: HostRuntime) -> anyhow::Result<()> {
    // one byte more than is read, so that a longer input is seen to be longer
    let mut log = Vec::new(rt.alloc());
    let _ = rt.stdin().take(MOST as u64 + 1).read_to_end(&mut log)?;
    let text = page_text(rt.alloc(), log.as_slice())?;
    rt.print(text)?;
    Ok(())
}
