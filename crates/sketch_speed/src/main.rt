//! Reads lines `K ENTRIES`. For each it gives so many keys to a sketch of so many keys, and prints the sketch's numbers
//! k, n and l, or its refusal, or `?` of any other line. The keys come from a fixed generator; with `K ENTRIES rising`
//! they are 0, 1 and so on, so that none comes twice. It is there to be timed.
#![tactic(auto)]

use keys::held::Held;
use keys::pair::Pair;
use keys::refusal::Refusal;
use sketch::making::MOST_KEYS;
use sketch::sketch::Sketch;
use std::alloc::{AllocError, Global};
use std::io::{BufRead, BufReader};
use summaries::answers::Facts;
use summaries::summary::Summary;
use tree::cell::Cell;

/// Which keys are given.
#[derive(Clone, Copy)]
enum Keys {
    /// Numbers below 2,000, drawn by a linear congruential generator.
    Drawn,
    /// 0, 1 and so on.
    Rising,
}

/// What a line asks for.
#[derive(Clone, Copy)]
struct Question {
    k: u32,
    entries: u32,
    keys: Keys,
}

impl Question {
    /// The question of these words, if they ask one.
    fn from_words(words: &[&str]) -> Option<Question> {
        let (k, entries, keys) = match *words {
            [k, entries] => (k, entries, Keys::Drawn),
            [k, entries, "rising"] => (k, entries, Keys::Rising),
            _ => return None,
        };
        Some(Question {
            k: k.parse().ok()?,
            entries: entries.parse().ok()?,
            keys,
        })
    }
}

/// The number after this one in the generator.
fn drawn_after(number: u32) -> u32 {
    number.wrapping_mul(1_664_525).wrapping_add(1_013_904_223)
}

/// Gives a summary the keys that are asked for.
fn give<S: Summary<Key = u32>>(summary: &mut S, question: &Question) -> Result<Facts, Refusal> {
    let mut number = 0;
    for i in 0..question.entries {
        number = drawn_after(number);
        let key = match question.keys {
            Keys::Drawn => (number >> 16) % 2_000,
            Keys::Rising => i,
        };
        summary.take(key)?;
    }
    Ok(summary.facts())
}

/// What a sketch answers that took the keys that are asked for.
fn answer(heap: Global, question: &Question) -> Result<String, AllocError> {
    let lent = question.k.min(MOST_KEYS) as usize;
    let mut keys: Vec<Cell<Held<u32>, u32>> = vec![in heap; Cell::Blank; lent]?;
    let mut ranks: Vec<Cell<Pair<u32, Held<u32>>, ()>> = vec![in heap; Cell::Blank; lent]?;
    let given = match Sketch::make(question.k, &mut keys, &mut ranks) {
        Ok(mut sketch) => give(&mut sketch, question),
        Err(not_made) => Err(not_made.refusal),
    };
    match given {
        Ok(facts) => format!(in heap; "{} {} {}", facts.k, facts.n, facts.l),
        Err(refusal) => format!(in heap; "refused {}", refusal.number()),
    }
}

/// What is printed of a line.
fn line_of(heap: Global, line: &str) -> Result<String, AllocError> {
    let words: Vec<&str> = line.split_whitespace().collect(heap)?;
    match Question::from_words(&words) {
        Some(question) => answer(heap, &question),
        None => String::from_str(heap, "?"),
    }
}

fn main(rt: HostRuntime) -> anyhow::Result<()> {
    let heap = rt.alloc();
    for line in BufReader::new(heap, rt.stdin())?.lines(heap) {
        rt.println(line_of(heap, line?.as_str())?)?;
    }
    Ok(())
}
