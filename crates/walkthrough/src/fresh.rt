//! Summaries made and worked in one call, and what is left where one cannot be made.
use crate::books::{BookFacts, show_books, show_written};
use crate::calls::show_answers;
use crate::shown::Shown;
use crate::sketches::used;
use fresh_runs::sketch_run::work_sketch;
use fresh_runs::tally_run::work_tally;
use keys::event::EventKind;
use keys::refusal::Refusal;
use keys::word::FlightWord;
use lenses::flight::FlightLens;
use lenses::kind::KindLens;
use release::book::Book;
use release::entry::Entry;
use std::io;
use tree::cell::Cell;
use work::buffers::Buffers;
use work::call::{Answer, Call, Feeding, Releasing};

/// How many calls there are.
const CALLS: usize = 4;

/// How many draws are lent, and how many entries.
const LENT: usize = 8;

/// How many cells are lent for each order of a sketch.
const CELLS: usize = 3;

/// The draws before any call is made.
const DRAWS: [i32; LENT] = [1, -1, 2, -2, 0, 1, -1, 2];

/// How many calls were made or why none was, what they answered, and what they left in the memory and the book that they
/// were lent.
#[derive(Drop)]
struct Outcome<K> {
    made: Result<usize, Refusal>,
    answers: [Answer<K>; CALLS],
    draws: [i32; LENT],
    entries: [Entry<K>; LENT],
    book: BookFacts,
}

/// Before any call is made. Some key stands in the entries.
fn no_outcome<K: Copy>(key: K) -> Outcome<K> {
    Outcome {
        made: Ok(0),
        answers: [Answer::Place(None); CALLS],
        draws: DRAWS,
        entries: [Entry { key, value: 0 }; LENT],
        book: BookFacts {
            number: 7,
            limit: 1,
            out: 0,
            spent: 0,
        },
    }
}

/// The calls of a summary of k keys.
fn calls<'a, K, L>(lens: &'a L, log: &'a [u8], k: u32) -> [Call<'a, K, L>; CALLS] {
    [
        Call::Feed(Feeding { lens, log }),
        Call::Facts,
        Call::Place(1),
        Call::Release(Releasing {
            issuer: 0,
            book: 0,
            shared: 0,
            draws: k as usize,
            threshold: 10,
            entries: k as usize,
        }),
    ]
}

/// Makes a tally of k kinds and works it.
fn tally_outcome(
    k: u32,
    calls: &[Call<'_, EventKind, KindLens>],
    key: EventKind,
) -> Outcome<EventKind> {
    let Ok(book) = Book::make(7, 1) else {
        unreachable!()
    };
    let mut books = [book];
    let mut outcome = no_outcome(key);
    let mut buffers = Buffers {
        lines: &mut [],
        draws: &mut outcome.draws,
        lists: &mut outcome.entries,
    };
    outcome.made = match work_tally(k, &mut books, calls, &mut outcome.answers, &mut buffers) {
        Ok((_, worked)) => Ok(worked),
        Err(refusal) => Err(refusal),
    };
    let [book] = books;
    outcome.book = BookFacts::of(&book);
    outcome
}

/// Makes a sketch of k flight words and works it; answers also how many cells of each order hold a key then.
fn sketch_outcome(
    k: u32,
    calls: &[Call<'_, FlightWord, FlightLens>],
    key: FlightWord,
) -> (Outcome<FlightWord>, [usize; 2]) {
    let Ok(book) = Book::make(7, 1) else {
        unreachable!()
    };
    let mut books = [book];
    let mut outcome = no_outcome(key);
    let mut buffers = Buffers {
        lines: &mut [],
        draws: &mut outcome.draws,
        lists: &mut outcome.entries,
    };
    let mut keys = [Cell::Blank; CELLS];
    let mut ranks = [Cell::Blank; CELLS];
    outcome.made = match work_sketch(
        k,
        &mut keys,
        &mut ranks,
        &mut books,
        calls,
        &mut outcome.answers,
        &mut buffers,
    ) {
        Ok((_, worked)) => Ok(worked),
        Err(not_made) => Err(not_made.refusal),
    };
    let [book] = books;
    outcome.book = BookFacts::of(&book);
    (outcome, [used(&keys), used(&ranks)])
}

/// Whether the memory is as it was before any call.
fn as_before<K: Shown>(outcome: &Outcome<K>, before: &Outcome<K>) -> bool {
    outcome.answers == before.answers
        && outcome.draws == before.draws
        && outcome.entries == before.entries
        && outcome.book == before.book
}

/// What became of the calls, and what they left, beside what was there before.
fn show_outcome<K: Shown, L>(
    rt: &(impl Print + AllocGlobal),
    calls: &[Call<'_, K, L>],
    outcome: &Outcome<K>,
    before: &Outcome<K>,
) -> io::Result<()> {
    match &outcome.made {
        Ok(worked) => {
            show_answers(rt, calls, &outcome.answers)?;
            show_written(rt, &outcome.entries, &before.entries)?;
            println!(rt; "calls made: {worked}")?;
        }
        Err(refusal) => println!(rt;
            "refused with {}; answers, draws, entries and book as before: {}",
            refusal.number(),
            as_before(outcome, before)
        )?,
    }
    println!(rt; "draws afterwards: {:?}", outcome.draws)?;
    show_books(rt, &[outcome.book])
}

fn show_tally(rt: &(impl Print + AllocGlobal), log: &[u8], k: u32) -> io::Result<()> {
    let Ok(key) = EventKind::try_from(0) else {
        unreachable!()
    };
    println!(rt; "work_tally: {CALLS} calls of a new tally of {k}, draws {DRAWS:?}")?;
    let calls = calls(&KindLens, log, k);
    show_outcome(rt, &calls, &tally_outcome(k, &calls, key), &no_outcome(key))
}

fn show_sketch(rt: &(impl Print + AllocGlobal), log: &[u8], k: u32) -> io::Result<()> {
    let Ok(key) = FlightWord::try_from("-".as_bytes()) else {
        unreachable!()
    };
    println!(rt;
        "work_sketch: {CALLS} calls of a new sketch of {k} in {CELLS} cells, draws {DRAWS:?}"
    )?;
    let calls = calls(&FlightLens, log, k);
    let (outcome, [by_key, by_count]) = sketch_outcome(k, &calls, key);
    show_outcome(rt, &calls, &outcome, &no_outcome(key))?;
    println!(rt; "cells used: {by_key} by key, {by_count} by count")
}

/// A tally and a sketch that are made and worked, and each refusal.
pub fn show_fresh(rt: &(impl Print + AllocGlobal), log: &[u8]) -> io::Result<()> {
    show_tally(rt, log, 8)?;
    show_tally(rt, log, 1)?;
    show_sketch(rt, log, 3)?;
    show_sketch(rt, log, 1)?;
    show_sketch(rt, log, 4)
}
