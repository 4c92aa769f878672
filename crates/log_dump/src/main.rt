//! Prints a console's log that is given on standard input: one line for each record, then how many there are; or, at
//! the first fault, the records before it and the fault. Of an input above 65,536 bytes it prints only `long`.
#![tactic(auto)]

use dump::{MOST, dump};
use std::io::Read;

fn main(rt: HostRuntime) -> anyhow::Result<()> {
    // one byte more than is printed, so that a longer input is seen to be longer
    let mut log = Vec::new(rt.alloc());
    let _ = rt.stdin().take(MOST as u64 + 1).read_to_end(&mut log)?;
    let text = dump(rt.alloc(), log.as_slice())?;
    rt.print(text)?;
    Ok(())
}
