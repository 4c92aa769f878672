//! Reads a table of keys, one to a line, and prints the parts of each that is made, or `refused` and the number; of two
//! keys it prints how the first compares to the second, whether it comes before it, and whether the two are the same. A
//! line that is none of these is answered by `?`.
#![tactic(auto)]

mod made;
mod ordered;

use crate::made::made;
use crate::ordered::ordered;
use std::alloc::{AllocError, Global};
use std::io::{BufRead, BufReader};

/// What is printed of a line.
fn answer(heap: Global, line: &str) -> Result<String, AllocError> {
    let words: Vec<&str> = line.split_whitespace().collect(heap)?;
    if let Some(text) = made(heap, &words)? {
        return Ok(text);
    }
    if let Some(text) = ordered(heap, &words)? {
        return Ok(text);
    }
    "?".to_string(heap)
}

fn main(rt: HostRuntime) -> anyhow::Result<()> {
    let heap = rt.alloc();
    for line in BufReader::new(heap, rt.stdin())?.lines(heap) {
        rt.println(answer(heap, line?.as_str())?)?;
    }
    Ok(())
}
