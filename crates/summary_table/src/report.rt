//! What a summary answers of a log.
use crate::shown::Shown;
use feeding::feed::feed;
use keys::held::Held;
use lenses::lens::Lens;
use pages::line::Line;
use pages::page::page;
use std::alloc::{AllocError, Global};
use summaries::answers::Facts;
use summaries::summary::Summary;

/// Adds each held key with its count.
fn push_held<S: Summary>(text: &mut String, summary: &S, facts: &Facts) -> Result<(), AllocError>
where
    S::Key: Shown,
{
    for j in 0..facts.k {
        if let Some((key, count)) = summary.place(j as usize) {
            write!(text, " ")?;
            key.push_to(text)?;
            write!(text, " {count}")?;
        }
    }
    Ok(())
}

/// Adds the page at the lowest limit that is not refused. There is none where no real key is held; else the first held
/// key is real, and fills the output before the page is written, since a line needs some key.
fn push_page<S: Summary>(
    heap: Global,
    text: &mut String,
    summary: &S,
    facts: &Facts,
) -> Result<(), AllocError>
where
    S::Key: Shown,
{
    let Some((Held::Real(key), _)) = summary.place(0) else {
        return Ok(());
    };
    let unwritten = Line {
        key,
        count: 0,
        upper: 0,
    };
    let mut output = vec![in heap; unwritten; facts.k as usize]?;
    match page(summary, facts.l.saturating_add(1), &mut output) {
        Ok(n) => {
            for line in output.iter().take(n) {
                write!(text, " ")?;
                line.key.push_to(text)?;
                write!(text, " {} {}", line.count, line.upper)?;
            }
            Ok(())
        }
        Err(refusal) => write!(text, " refused {}", refusal.number()),
    }
}

/// Feeds a summary, and gives what feeding answers, the summary's numbers, its held keys and its page.
pub fn report<S: Summary, L: Lens<Key = S::Key>>(
    heap: Global,
    summary: &mut S,
    lens: &L,
    log: &[u8],
) -> Result<String, AllocError>
where
    S::Key: Shown,
{
    let mut text = match feed(summary, lens, log) {
        Ok(fed) => format!(in heap;
            "fed {} {} {} {}",
            fed.read, fed.absent, fed.passed_over, fed.taken
        ),
        Err(fault) => format!(in heap;
            "fault {} {} {} {}",
            fault.layer(),
            fault.number(),
            fault.index,
            fault.offset
        ),
    }?;
    let facts = summary.facts();
    write!(text, " numbers {} {} {} held", facts.k, facts.n, facts.l)?;
    push_held(&mut text, summary, &facts)?;
    write!(text, " page")?;
    push_page(heap, &mut text, summary, &facts)?;
    Ok(text)
}
