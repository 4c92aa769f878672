//! What a summary answers, as lines.
use crate::shown::Shown;
use feeding::fault::FeedFault;
use feeding::feed::Fed;
use keys::held::Held;
use keys::refusal::Refusal;
use pages::line::Line;
use pages::page::page;
use std::io;
use summaries::answers::Facts;
use summaries::summary::Summary;

/// What feeding answered.
pub fn show_fed(rt: &impl Print, answer: &Result<Fed, FeedFault>) -> io::Result<()> {
    match answer {
        Ok(fed) => println!(rt;
            "feed: {} records read, {} without a key, {} passed over, {} taken",
            fed.read, fed.absent, fed.passed_over, fed.taken
        ),
        Err(fault) => println!(rt;
            "feed: fault of layer {}, refused with {} in record {} at byte {}",
            fault.layer(),
            fault.number(),
            fault.index,
            fault.offset
        ),
    }
}

/// What a summary said of its numbers.
pub fn show_numbers(rt: &impl Print, facts: &Facts) -> io::Result<()> {
    let Facts { k, n, l } = facts;
    println!(rt; "facts: k {k}, n {n}, l {l}")
}

pub fn show_facts<S: Summary>(rt: &impl Print, summary: &S) -> io::Result<()> {
    show_numbers(rt, &summary.facts())
}

/// What counting a key answered.
pub fn show_counted<K: Shown>(
    rt: &(impl Print + AllocGlobal),
    key: &K,
    answer: &Option<u32>,
) -> io::Result<()> {
    let text = key.shown(rt.alloc())?;
    match answer {
        Some(count) => println!(rt; "count: {text} counts {count}"),
        None => println!(rt; "count: {text} is not held"),
    }
}

pub fn show_count<S: Summary>(
    rt: &(impl Print + AllocGlobal),
    summary: &S,
    key: &S::Key,
) -> io::Result<()>
where
    S::Key: Shown,
{
    show_counted(rt, key, &summary.count(key))
}

/// What asking for the j-th place answered.
pub fn show_placed<K: Shown>(
    rt: &(impl Print + AllocGlobal),
    j: usize,
    answer: &Option<(Held<K>, u32)>,
) -> io::Result<()> {
    match answer {
        Some((key, count)) => {
            let text = key.shown(rt.alloc())?;
            println!(rt; "place {j}: {text} counts {count}")
        }
        None => println!(rt; "place {j}: none"),
    }
}

/// All places, and the first that no key has.
pub fn show_places<S: Summary>(rt: &(impl Print + AllocGlobal), summary: &S) -> io::Result<()>
where
    S::Key: Shown,
{
    for j in 0..=summary.facts().k {
        let j = j as usize;
        show_placed(rt, j, &summary.place(j))?;
    }
    Ok(())
}

fn show_line<K: Shown>(rt: &(impl Print + AllocGlobal), line: &Line<K>) -> io::Result<()> {
    let text = line.key.shown(rt.alloc())?;
    println!(rt;
        "line: {text} came at least {} and at most {} times",
        line.count, line.upper
    )
}

/// What asking for a page answered.
pub fn show_paged(rt: &impl Print, limit: u32, answer: &Result<usize, Refusal>) -> io::Result<()> {
    match answer {
        Ok(lines) => println!(rt; "page: {lines} keys may have reached {limit}"),
        Err(refusal) => println!(rt; "page: refused with {}", refusal.number()),
    }
}

/// The lines of a page, of an output that may be longer.
pub fn show_lines<K: Shown>(
    rt: &(impl Print + AllocGlobal),
    output: &[Line<K>],
    lines: usize,
) -> io::Result<()> {
    for line in output.iter().take(lines) {
        show_line(rt, line)?;
    }
    Ok(())
}

/// The page at the limit l + 1, which is the lowest that is not refused.
pub fn show_page<S: Summary>(
    rt: &(impl Print + AllocGlobal),
    summary: &S,
    output: &mut [Line<S::Key>],
) -> io::Result<()>
where
    S::Key: Shown,
{
    let limit = summary.facts().l.saturating_add(1);
    let answer = page(summary, limit, output);
    show_paged(rt, limit, &answer)?;
    show_lines(rt, output, answer.unwrap_or(0))
}
